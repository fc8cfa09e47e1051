// Replies over lent words (crate `runtime`, "replies"): look, decide, store. Promises: whatever the words hold, as many and the same first one; where they
// are a sound runtime, they stand where the rules say, and a reply that is turned away leaves every word. Rests on `decide_reply` and `decide_resume`, on
// `host_store`, and on `host_steps` for the call in hand.
#![tactic(auto)]

ghost use Rattle.std.specs.Prelude.{Some};
ghost use Rattle.std.specs.Prelude.{◌≡◌};
ghost use Rattle.rules.specs.Interaction.{Done, Submitted, Succeeded};
ghost use Rattle.rules.specs.Protocol.{proceed, react, Replies, Observed as ObservedReply, Executed as ExecutedReply, FellBack as FellBackReply, Recorded as RecordedReply};
ghost use Rattle.rules.specs.Rules.{trip as trip_rule, fail as fail_rule, complete as complete_rule, refresh_state};
ghost use Rattle.state.specs.State.{progress_of, after_fallback, after_fell_back, phase_of};
ghost use Rattle.state.specs.declared.Answer.TheVariants.{Item};
ghost use Rattle.state.specs.declared.Awaited.TheVariants.{ObserveAfter};
ghost use Rattle.decide_reply.specs.Replies.{observation_in, seen_by, completing as completing_with};
ghost use Rattle.runtime.specs.Promises.{Good};
ghost use Rattle.runtime.specs.Runtimes.{state_in, tables_in, asked_in, order_in, hand_in, book_on};
ghost use Rattle.layout.specs.Layout.{Long, runtime_in, Becomes};
ghost use Rattle.layout.specs.Promises.{Goes, Turns};
ghost use Rattle.host_steps.specs.Onward.{ComesTo};
ghost use Rattle.host_replies.specs.Altered.{executing, rested_by, fresh_numbers, refreshed_in, ResumesAs};

use decide_reply::{
    Observed, OnExecuted, OnFellBack, OnObserved, OnRecorded, came, completed, fail_reason, failed,
    on_executed, on_fell_back, on_observed, on_recorded, told, unexecuted,
};
use decide_resume::{resumed, search_after};
use host_steps::{Onward, conclude};
use host_store::{announce, follow, look_due, look_sought, place};
use layout::{
    capability_at, carrying_in, falling_in, fixed_in, keep_receipt, lease_at, numbers_in,
    put_active, put_carrying, put_numbers, put_receipt, put_revoked, put_waiting, receipt_at,
    revoked_in, slot_in, submission_in, waiting_in,
};
use model::{Observation, Reason};
use runtime::{awaiting, axis_or_spare, is_going_on};
use state::{
    AfterFallback, AfterRecord, AfterTrip, Answer, Awaited, Carrying, Falling, Mode, Numbers,
    Progress, Revoked, Waiting, refreshed, trips,
};

// The receipt of an order that failed.
fn fail(state: &mut [u64], reason: Reason, progress: Progress) -> Answer
    requires { Long state.old }
    ensures { Goes state.old state.new result (Good (runtime_in state.old)) (proceed (fail_rule (order_in (runtime_in state.old)).capability reason (progress_of progress) (runtime_in state.old).submission (book_on (runtime_in state.old)))) }
{
    let fixed = fixed_in(state);
    let numbers = numbers_in(state);
    let carrying = carrying_in(state);
    let capability = capability_at(state, carrying.at);
    let submission = submission_in(state);
    let receipt = failed(fixed, numbers, capability, submission, reason, progress);
    let slot = place(state, false);
    announce(state, slot, AfterRecord::Failed);
    put_receipt(state, slot, receipt);
    Answer::Item
}

fn completing(numbers: Numbers, soonest: u64) -> Numbers
    ensures { result ≡ completing_with soonest numbers }
{
    let mut next = numbers;
    next.invalid_count = 0;
    next.soonest = soonest;
    next
}

// What an executed order leaves, and its receipt.
fn complete(state: &mut [u64], seen: Observation) -> Answer
    requires { Long state.old }
    ensures { Goes state.old state.new result (Good (runtime_in state.old) × ((runtime_in state.old).waiting.awaited ≡ ObserveAfter)) (proceed (complete_rule (order_in (runtime_in state.old)).capability (runtime_in state.old).carrying.end (seen_by (runtime_in state.old).carrying.pre_state (runtime_in state.old).submission.now (Some seen)) (runtime_in state.old).submission (book_on (runtime_in state.old)))) }
{
    let fixed = fixed_in(state);
    let numbers = numbers_in(state);
    let carrying = carrying_in(state);
    let capability = capability_at(state, carrying.at);
    let submission = submission_in(state);
    let change = completed(fixed, numbers, carrying, capability, submission, seen);
    let active = change.active;
    let receipt = change.receipt;
    put_numbers(state, completing(numbers, change.soonest));
    put_active(state, axis_or_spare(capability.resource), active);
    let slot = place(state, false);
    announce(state, slot, AfterRecord::Executed);
    put_receipt(state, slot, receipt);
    Answer::Item
}

// The receipt of a fallback.
fn tell(state: &mut [u64], ok: bool) -> Answer
    requires { Long state.old }
    ensures { Goes state.old state.new result (Good (runtime_in state.old)) (proceed (after_fell_back (runtime_in state.old).falling (runtime_in state.old).revoked (asked_in (runtime_in state.old)) ok (book_on (runtime_in state.old)))) }
{
    let fixed = fixed_in(state);
    let numbers = numbers_in(state);
    let falling = falling_in(state);
    let revoked = revoked_in(state);
    let receipt = told(fixed, numbers, falling, revoked, ok);
    put_revoked(
        state,
        Revoked {
            lease_id: revoked.lease_id,
            owner: revoked.owner,
            ok: ok,
        },
    );
    let slot = place(state, false);
    announce(state, slot, AfterRecord::Fallback);
    put_receipt(state, slot, receipt);
    Answer::Item
}

// The trip after an order's receipt, which is kept to be answered.
fn trip_order(state: &mut [u64], reason: Reason) -> Answer
    requires { Long state.old }
    ensures { Goes state.old state.new result (Good (runtime_in state.old)) (proceed (trip_rule reason (runtime_in state.old).submission.now (book_on (runtime_in state.old)) (λ b. Done b (Submitted (hand_in (runtime_in state.old)).receipt)))) }
{
    let fixed = fixed_in(state);
    let numbers = numbers_in(state);
    let submission = submission_in(state);
    let slot = slot_in(state);
    keep_receipt(state, slot);
    let course = trips(fixed, numbers, reason, submission.now, AfterTrip::Submit, 0);
    follow(state, course)
}

fn freshened(numbers: Numbers) -> Numbers
    ensures { result ≡ fresh_numbers numbers }
{
    let mode = numbers.mode;
    let state = mode.state;
    let fresh = Mode {
        state: refreshed(numbers.held != 0, state),
    };
    let mut next = numbers;
    next.mode = fresh;
    next
}

// The state refreshed, and nothing awaited.
fn refresh(state: &mut [u64])
    requires { Long state.old }
    ensures { Becomes state.old state.new (refreshed_in (runtime_in state.old)) }
{
    let numbers = numbers_in(state);
    put_numbers(state, freshened(numbers));
    put_waiting(state, awaiting(Awaited::Nothing));
}

// A cancel ends.
fn end_cancel(state: &mut [u64]) -> Answer
    requires { Long state.old }
    ensures { Goes state.old state.new result (Good (runtime_in state.old)) (proceed (Done (refresh_state (book_on (runtime_in state.old))) Succeeded)) }
{
    refresh(state);
    Answer::Succeeded
}

// What follows the receipt of a fallback, any way of it: look, decide, follow.
fn resume_on(state: &mut [u64]) -> Onward
    requires { Long state.old }
    ensures { ComesTo state.old state.new result (Good (runtime_in state.old)) (proceed (after_fallback (runtime_in state.old).falling (tables_in (runtime_in state.old)).capabilities (asked_in (runtime_in state.old)) (runtime_in state.old).revoked.ok (book_on (runtime_in state.old)))) }
{
    let fixed = fixed_in(state);
    let numbers = numbers_in(state);
    let falling = falling_in(state);
    let revoked = revoked_in(state);
    let search = search_after(falling);
    let sought = search.sought;
    let axis = look_sought(state, sought, search.from, falling.time, numbers.flags);
    let lease = lease_at(state, axis as usize);
    let course = resumed(fixed, numbers, falling, axis, lease, revoked.ok);
    let way = course.way;
    let answer = follow(state, course);
    if is_going_on(way) {
        return Onward::GoesOn;
    }
    Onward::Answers(answer)
}

// What follows a fallback: the end of a cancel or the next of the expiries, where it succeeded, or anything.
#[derive(Clone, Copy)]
pub enum Resuming {
    Cancel,
    Expiry,
    Other,
}

fn resumes_by(falling: Falling, ok: bool) -> Resuming
    ensures { ResumesAs result falling.after ok }
{
    let after = falling.after;
    if !ok {
        return Resuming::Other;
    }
    match after {
        AfterFallback::Trip => Resuming::Other,
        AfterFallback::Expiry => Resuming::Expiry,
        AfterFallback::Precondition => Resuming::Other,
        AfterFallback::Recovery => Resuming::Other,
        AfterFallback::Cancel => Resuming::Cancel,
    }
}

// What follows the receipt of a fallback, the way first: where no axis falls back next, nothing is looked up or stored for one.
fn resume_way(state: &mut [u64]) -> Onward
    requires { Long state.old }
    ensures { ComesTo state.old state.new result (Good (runtime_in state.old)) (proceed (after_fallback (runtime_in state.old).falling (tables_in (runtime_in state.old)).capabilities (asked_in (runtime_in state.old)) (runtime_in state.old).revoked.ok (book_on (runtime_in state.old)))) }
{
    let falling = falling_in(state);
    let revoked = revoked_in(state);
    let way = resumes_by(falling, revoked.ok);
    match way {
        Resuming::Cancel => Onward::Answers(end_cancel(state)),
        Resuming::Expiry => {
            let next = look_due(state, falling.axis + 1, falling.time);
            if next < 8 {
                return resume_on(state);
            }
            refresh(state);
            Onward::GoesOn
        }
        Resuming::Other => resume_on(state),
    }
}

fn resume(state: &mut [u64]) -> Answer
    requires { Long state.old }
    ensures { Goes state.old state.new result (Good (runtime_in state.old)) (proceed (after_fallback (runtime_in state.old).falling (tables_in (runtime_in state.old)).capabilities (asked_in (runtime_in state.old)) (runtime_in state.old).revoked.ok (book_on (runtime_in state.old)))) }
{
    let onward = resume_way(state);
    conclude(state, onward)
}

// The order goes to the driver, with the state that was observed.
fn execute(state: &mut [u64], pre_state: u32) -> Answer
    requires { Long state.old }
    ensures { Becomes state.old state.new (executing pre_state (runtime_in state.old)) × (result ≡ Item) }
{
    let carrying = carrying_in(state);
    put_waiting(state, awaiting(Awaited::Execute));
    put_carrying(
        state,
        Carrying {
            end: carrying.end,
            at: carrying.at,
            pre_state: pre_state,
        },
    );
    Answer::Item
}

// The reply to an observation.
pub fn observed_on(state: &mut [u64], reply: Observed) -> Answer
    requires { Long state.old }
    ensures { Turns state.old state.new result (Good (runtime_in state.old)) (react (phase_of (state_in (runtime_in state.old))) (Replies (ObservedReply (observation_in reply)))) }
{
    let waiting = waiting_in(state);
    let carrying = carrying_in(state);
    let capability = capability_at(state, carrying.at);
    let verification = capability.verification;
    let submission = submission_in(state);
    let action = submission.action;
    let parameters = action.parameters;
    let observation = reply.observation;
    let step = on_observed(waiting, verification, parameters, reply);
    match step {
        OnObserved::NoReply => Answer::NoReplyAwaited,
        OnObserved::Other => Answer::OtherAwaited,
        OnObserved::Executes => execute(state, observation.state),
        OnObserved::Completes => complete(state, observation),
        OnObserved::Fails => fail(
            state,
            fail_reason(reply),
            came(waiting, carrying.pre_state, submission.now, reply),
        ),
    }
}

// The reply to an execution.
pub fn executed_on(state: &mut [u64], ok: bool) -> Answer
    requires { Long state.old }
    ensures { Turns state.old state.new result (Good (runtime_in state.old)) (react (phase_of (state_in (runtime_in state.old))) (Replies (ExecutedReply ok))) }
{
    let waiting = waiting_in(state);
    let carrying = carrying_in(state);
    let step = on_executed(waiting, ok);
    match step {
        OnExecuted::NoReply => Answer::NoReplyAwaited,
        OnExecuted::Other => Answer::OtherAwaited,
        OnExecuted::Observes => {
            put_waiting(state, awaiting(Awaited::ObserveAfter));
            Answer::Item
        }
        OnExecuted::Fails => fail(state, Reason::Driver, unexecuted(carrying.pre_state)),
    }
}

// The reply to a fallback.
pub fn fell_back_on(state: &mut [u64], ok: bool) -> Answer
    requires { Long state.old }
    ensures { Turns state.old state.new result (Good (runtime_in state.old)) (react (phase_of (state_in (runtime_in state.old))) (Replies (FellBackReply ok))) }
{
    let waiting = waiting_in(state);
    let step = on_fell_back(waiting);
    match step {
        OnFellBack::NoReply => Answer::NoReplyAwaited,
        OnFellBack::Other => Answer::OtherAwaited,
        OnFellBack::Tells => tell(state, ok),
    }
}

// Nothing is awaited any more; what followed the receipt is left standing, for the answer.
fn rested(waiting: Waiting) -> Waiting
    ensures { result ≡ rested_by waiting }
{
    let after_record = waiting.after_record;
    Waiting {
        awaited: Awaited::Nothing,
        after_record: after_record,
    }
}

// The reply to a receipt.
pub fn recorded_on(state: &mut [u64]) -> Answer
    requires { Long state.old }
    ensures { Turns state.old state.new result (Good (runtime_in state.old)) (react (phase_of (state_in (runtime_in state.old))) (Replies RecordedReply)) }
{
    let fixed = fixed_in(state);
    let numbers = numbers_in(state);
    let waiting = waiting_in(state);
    let receipt = receipt_at(state, slot_in(state));
    let reason = receipt.reason;
    let step = on_recorded(fixed, numbers, waiting);
    match step {
        OnRecorded::NoReply => Answer::NoReplyAwaited,
        OnRecorded::Other => Answer::OtherAwaited,
        OnRecorded::Leased => {
            put_waiting(state, awaiting(Awaited::Nothing));
            Answer::Leased
        }
        OnRecorded::Submitted => {
            put_waiting(state, rested(waiting));
            Answer::Submitted
        }
        OnRecorded::Fails => trip_order(state, reason),
        OnRecorded::Storms => trip_order(state, Reason::InvalidStorm),
        OnRecorded::Resumes => resume(state),
    }
}
