// The driver's replies, by value (runtime.rs: the rest of `submit`, `fallback` and `record` after each driver call): what a reply goes on
// with, and what it leaves to be stored. Each promises that this is what the rule says (specs/Replies). Rests on `state` for the parts and
// the receipts.
#![tactic(auto)]

ghost use Rattle.std.specs.Prelude.{Bool, true, cond, ◌≡◌};
ghost use Rattle.std.specs.Prelude.{Some};
ghost use Rattle.model.specs.declared.Reason.TheVariants.{Driver};
ghost use Rattle.rules.specs.Protocol.{proceed};
ghost use Rattle.rules.specs.Rules.{active_until, same_parameters, verified as verified_rule, complete, fail};
ghost use Rattle.state.specs.State.{active_in, Tables, Asked, Hand, State, state, book_of, progress_of, after_fell_back, carries, Sound, Moves};
ghost use Rattle.state.specs.Stores.{recorded as recorded_in};
ghost use Rattle.state.specs.declared.AfterRecord.TheVariants.{Failed, Rejected};
ghost use Rattle.state.specs.declared.Answer.TheVariants.{Item};
ghost use Rattle.state.specs.declared.Awaited.TheVariants.{ObserveBefore, Execute, ObserveAfter, Record};
ghost use Rattle.decide_reply.specs.declared.OnObserved.TheVariants.{Completes, Fails};
ghost use Rattle.decide_reply.specs.Replies.{observation_in, unexecuted_by, seen_by, failed_by, reason_by, told as told_in, completed as completed_in, ObservesAs, ExecutesAs, FallsBackAs, RecordsAs};

use model::{
    Active, ActiveSlot, Capability, Decision, ExecutionClass, Observation, Presence, Reason,
    Receipt, Submission, Verification,
};
use state::{
    AfterRecord, Awaited, Carrying, Falling, Fixed, Numbers, Progress, Revoked, Waiting,
    event_receipt, is_armed, order_receipt, sooner,
};

// The reply to an observation; absent where the driver failed.
#[derive(Clone, Copy)]
pub struct Observed {
    pub presence: Presence,
    pub observation: Observation,
}

// observed ---------------------------------------------------------------------------------------------------------------

// The Rust's `==` of two arrays of parameters.
fn same_parameters(a: [i32; 2], b: [i32; 2]) -> bool
    ensures { result ≡ same_parameters a b }
{
    a[0] == b[0] && a[1] == b[1]
}

// The observation equals the parameters, or its state has the value under the mask.
fn verified(verification: Verification, parameters: [i32; 2], seen: Observation) -> bool
    ensures { result ≡ verified_rule verification parameters seen }
{
    let observed = seen.parameters;
    match verification {
        Verification::Parameters => same_parameters(observed, parameters),
        Verification::State { mask, value } => seen.state & mask == value,
    }
}

// What an observation goes on with: it is refused (112, 113), the order is executed, complete or failed.
#[derive(Clone, Copy)]
pub enum OnObserved {
    NoReply,
    Other,
    Executes,
    Completes,
    Fails,
}

fn seen_before(reply: Observed) -> OnObserved
    ensures { (s : State) → Sound s → s.hand.waiting.awaited ≡ ObserveBefore → ObservesAs result s reply }
{
    let presence = reply.presence;
    match presence {
        Presence::Absent => OnObserved::Fails,
        Presence::Present => OnObserved::Executes,
    }
}

fn completes_if(verified: bool) -> OnObserved
    ensures { result ≡ cond verified Completes Fails }
{
    if verified {
        return OnObserved::Completes;
    }
    OnObserved::Fails
}

fn seen_after(verification: Verification, parameters: [i32; 2], reply: Observed) -> OnObserved
    ensures { (s : State) → s.hand.waiting.awaited ≡ ObserveAfter → s.hand.order.capability.verification ≡ verification → s.asked.submission.action.parameters ≡ parameters → ObservesAs result s reply }
{
    let presence = reply.presence;
    let seen = reply.observation;
    match presence {
        Presence::Absent => OnObserved::Fails,
        Presence::Present => completes_if(verified(verification, parameters, seen)),
    }
}

pub fn on_observed(
    waiting: Waiting,
    verification: Verification,
    parameters: [i32; 2],
    reply: Observed,
) -> OnObserved
    ensures { (s : State) → Sound s → s.hand.waiting ≡ waiting → s.hand.order.capability.verification ≡ verification → s.asked.submission.action.parameters ≡ parameters → ObservesAs result s reply }
{
    let awaited = waiting.awaited;
    match awaited {
        Awaited::Nothing => OnObserved::NoReply,
        Awaited::ObserveBefore => seen_before(reply),
        Awaited::Execute => OnObserved::Other,
        Awaited::ObserveAfter => seen_after(verification, parameters, reply),
        Awaited::Fallback => OnObserved::Other,
        Awaited::Record => OnObserved::Other,
    }
}

fn seen(pre_state: u32, now: u64, reply: Observed) -> Progress
    ensures { progress_of result ≡ seen_by pre_state now (observation_in reply) }
{
    let presence = reply.presence;
    let observation = reply.observation;
    let observed = observation.parameters;
    match presence {
        Presence::Absent => Progress {
            dispatched: true,
            pre_state: pre_state,
            executed_at: now,
            observed_valid: false,
            observed: [0; 2],
            post_state: 0,
        },
        Presence::Present => Progress {
            dispatched: true,
            pre_state: pre_state,
            executed_at: now,
            observed_valid: true,
            observed: observed,
            post_state: observation.state,
        },
    }
}

// How far an order came that fails by an observation.
pub fn came(waiting: Waiting, pre_state: u32, now: u64, reply: Observed) -> Progress
    ensures { progress_of result ≡ failed_by waiting.awaited pre_state now (observation_in reply) }
{
    let awaited = waiting.awaited;
    match awaited {
        Awaited::Nothing => Progress::NOT_SENT,
        Awaited::ObserveBefore => Progress::NOT_SENT,
        Awaited::Execute => Progress::NOT_SENT,
        Awaited::ObserveAfter => seen(pre_state, now, reply),
        Awaited::Fallback => Progress::NOT_SENT,
        Awaited::Record => Progress::NOT_SENT,
    }
}

pub fn fail_reason(reply: Observed) -> Reason
    ensures { result ≡ reason_by (observation_in reply) }
{
    let presence = reply.presence;
    match presence {
        Presence::Absent => Reason::Driver,
        Presence::Present => Reason::Verification,
    }
}

// The receipt of an order that failed; a trip follows it.
pub fn failed(
    fixed: Fixed,
    numbers: Numbers,
    capability: Capability,
    submission: Submission,
    reason: Reason,
    progress: Progress,
) -> Receipt
    ensures { (t : Tables) (q : Asked) (h : Hand) → Sound (state fixed numbers t q h) → q.submission ≡ submission → Moves (recorded_in result Failed (state fixed numbers t q h)) Item (proceed (fail capability reason (progress_of progress) submission (book_of fixed numbers t))) }
{
    order_receipt(
        fixed,
        numbers,
        submission,
        capability.resource,
        Decision::Failed,
        reason,
        0,
        progress,
    )
}

// What an executed order leaves on its axis: a Stream until its end, a Discrete order with no end of its own, Control nothing.
fn active_until(capability: Capability, end: u64) -> ActiveSlot
    ensures { active_in result ≡ active_until capability capability.class end }
{
    let class = capability.class;
    match class {
        ExecutionClass::Stream => ActiveSlot {
            presence: Presence::Present,
            active: Active {
                capability: capability,
                expires_at: end,
            },
        },
        ExecutionClass::Discrete => ActiveSlot {
            presence: Presence::Present,
            active: Active {
                capability: capability,
                expires_at: 0xffff_ffff_ffff_ffff,
            },
        },
        ExecutionClass::Control => ActiveSlot {
            presence: Presence::Absent,
            active: Active {
                capability: capability,
                expires_at: 0xffff_ffff_ffff_ffff,
            },
        },
    }
}

// What an executed order leaves to be stored, its receipt last.
#[derive(Clone, Copy)]
pub struct Completing {
    pub soonest: u64,
    pub active: ActiveSlot,
    pub receipt: Receipt,
}

// What stays active, no rejections, then the receipt.
pub fn completed(
    fixed: Fixed,
    numbers: Numbers,
    carrying: Carrying,
    capability: Capability,
    submission: Submission,
    seen: Observation,
) -> Completing
    ensures { (t : Tables) (q : Asked) (h : Hand) → Sound (state fixed numbers t q h) → q.submission ≡ submission → h.order.capability ≡ capability → carries h.waiting.awaited ≡ true → Moves (completed_in result capability.resource (state fixed numbers t q h)) Item (proceed (complete capability carrying.end (seen_by carrying.pre_state submission.now (Some seen)) submission (book_of fixed numbers t))) }
{
    let end = carrying.end;
    let observed = seen.parameters;
    let progress = Progress {
        dispatched: true,
        pre_state: carrying.pre_state,
        executed_at: submission.now,
        observed_valid: true,
        observed: observed,
        post_state: seen.state,
    };
    let receipt = order_receipt(
        fixed,
        numbers,
        submission,
        capability.resource,
        Decision::Executed,
        Reason::Ok,
        0,
        progress,
    );
    Completing {
        soonest: sooner(numbers.soonest, end),
        active: active_until(capability, end),
        receipt: receipt,
    }
}

// executed ---------------------------------------------------------------------------------------------------------------

// What the reply to an execution goes on with: it is refused (112, 113), the order is observed again, or failed.
#[derive(Clone, Copy)]
pub enum OnExecuted {
    NoReply,
    Other,
    Observes,
    Fails,
}

fn observes_if(ok: bool) -> OnExecuted
    ensures { (s : State) → Sound s → s.hand.waiting.awaited ≡ Execute → ExecutesAs result s ok }
{
    if ok {
        return OnExecuted::Observes;
    }
    OnExecuted::Fails
}

pub fn on_executed(waiting: Waiting, ok: bool) -> OnExecuted
    ensures { (s : State) → Sound s → s.hand.waiting ≡ waiting → ExecutesAs result s ok }
{
    let awaited = waiting.awaited;
    match awaited {
        Awaited::Nothing => OnExecuted::NoReply,
        Awaited::ObserveBefore => OnExecuted::Other,
        Awaited::Execute => observes_if(ok),
        Awaited::ObserveAfter => OnExecuted::Other,
        Awaited::Fallback => OnExecuted::Other,
        Awaited::Record => OnExecuted::Other,
    }
}

// How far an order came that the driver failed to execute.
pub fn unexecuted(pre_state: u32) -> Progress
    ensures { progress_of result ≡ unexecuted_by pre_state }
{
    Progress {
        dispatched: true,
        pre_state: pre_state,
        executed_at: 0,
        observed_valid: false,
        observed: [0; 2],
        post_state: 0,
    }
}

// fell_back --------------------------------------------------------------------------------------------------------------

// What the reply to a fallback goes on with: it is refused (112, 113), or told in a receipt.
#[derive(Clone, Copy)]
pub enum OnFellBack {
    NoReply,
    Other,
    Tells,
}

pub fn on_fell_back(waiting: Waiting) -> OnFellBack
    ensures { (s : State) (ok : Bool) → s.hand.waiting ≡ waiting → FallsBackAs result s ok }
{
    let awaited = waiting.awaited;
    match awaited {
        Awaited::Nothing => OnFellBack::NoReply,
        Awaited::ObserveBefore => OnFellBack::Other,
        Awaited::Execute => OnFellBack::Other,
        Awaited::ObserveAfter => OnFellBack::Other,
        Awaited::Fallback => OnFellBack::Tells,
        Awaited::Record => OnFellBack::Other,
    }
}

fn receipt_reason(ok: bool, reason: Reason) -> Reason
    ensures { result ≡ cond ok reason Driver }
{
    if ok {
        return reason;
    }
    Reason::Driver
}

// The receipt of the fallback in hand.
pub fn told(fixed: Fixed, numbers: Numbers, falling: Falling, revoked: Revoked, ok: bool) -> Receipt
    ensures { (t : Tables) (q : Asked) (h : Hand) → Sound (state fixed numbers t q h) → h.falling ≡ falling → h.revoked ≡ revoked → Moves (told_in result ok (state fixed numbers t q h)) Item (proceed (after_fell_back falling revoked q ok (book_of fixed numbers t))) }
{
    let given = falling.reason;
    let reason = receipt_reason(ok, given);
    event_receipt(
        fixed,
        numbers,
        falling.axis,
        revoked.lease_id,
        revoked.owner,
        Decision::Fallback,
        reason,
        falling.time,
    )
}

// recorded ---------------------------------------------------------------------------------------------------------------

// What the reply to a receipt goes on with: it is refused (112, 113), ends the call, trips, or resumes what the fallback was for.
#[derive(Clone, Copy)]
pub enum OnRecorded {
    NoReply,
    Other,
    Leased,
    Submitted,
    Fails,
    Storms,
    Resumes,
}

// Rejections at or above the limit while Armed trip, after the receipt.
fn storms_if(fixed: Fixed, numbers: Numbers) -> OnRecorded
    ensures { (s : State) → Sound s → s.fixed ≡ fixed → s.numbers ≡ numbers → s.hand.waiting.awaited ≡ Record → s.hand.waiting.after_record ≡ Rejected → RecordsAs result s }
{
    let mode = numbers.mode;
    let state = mode.state;
    let config = fixed.config;
    if numbers.invalid_count >= config.invalid_limit {
        if is_armed(state) {
            return OnRecorded::Storms;
        }
    }
    OnRecorded::Submitted
}

fn after_record(fixed: Fixed, numbers: Numbers, after: AfterRecord) -> OnRecorded
    ensures { (s : State) → Sound s → s.fixed ≡ fixed → s.numbers ≡ numbers → s.hand.waiting.awaited ≡ Record → s.hand.waiting.after_record ≡ after → RecordsAs result s }
{
    match after {
        AfterRecord::Fallback => OnRecorded::Resumes,
        AfterRecord::Lease => OnRecorded::Leased,
        AfterRecord::Executed => OnRecorded::Submitted,
        AfterRecord::Failed => OnRecorded::Fails,
        AfterRecord::Rejected => storms_if(fixed, numbers),
    }
}

pub fn on_recorded(fixed: Fixed, numbers: Numbers, waiting: Waiting) -> OnRecorded
    ensures { (s : State) → Sound s → s.fixed ≡ fixed → s.numbers ≡ numbers → s.hand.waiting ≡ waiting → RecordsAs result s }
{
    let awaited = waiting.awaited;
    let after = waiting.after_record;
    match awaited {
        Awaited::Nothing => OnRecorded::NoReply,
        Awaited::ObserveBefore => OnRecorded::Other,
        Awaited::Execute => OnRecorded::Other,
        Awaited::ObserveAfter => OnRecorded::Other,
        Awaited::Fallback => OnRecorded::Other,
        Awaited::Record => after_record(fixed, numbers, after),
    }
}
