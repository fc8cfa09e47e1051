// What calls do after their opening tick, over lent words (crate `runtime`, "tick" to "orders"): look, decide, store. Promises: whatever the words hold,
// as many and the same first one; where they are a sound runtime, they stand where the rules say. Rests on the decisions and on `host_store`.
#![tactic(auto)]

ghost use Rattle.std.specs.Prelude.{◌+◌, ◌<◌, true, ◌&&◌, ◌≡◌, leb, ltb};
ghost use Rattle.std.specs.Prelude.{None};
ghost use Rattle.rules.specs.Admission.{first_failing, acquire_checks, renew_checks, held_axis, order_capability, admission, validate};
ghost use Rattle.rules.specs.Interaction.{Done, Returned, Polled};
ghost use Rattle.rules.specs.Protocol.{proceed};
ghost use Rattle.rules.specs.Receipts.{top, axis_or255};
ghost use Rattle.rules.specs.Rules.{tick as tick_rule, sense as sense_rule, emergency_stop, recover, grant as grant_rule, renewed as renewed_rule, canceled as canceled_rule, original as original_rule, reject as reject_rule, admit as admit_rule};
ghost use Rattle.rules.specs.With.{with_estop_seen};
ghost use Rattle.state.specs.Axes.{first_held};
ghost use Rattle.state.specs.State.{after_tick};
ghost use Rattle.decide_flags.specs.Flags.{stamped as stamped_with};
ghost use Rattle.decide_lease.specs.Leases.{numbers_with};
ghost use Rattle.decide_order.specs.Orders.{counting_to};
ghost use Rattle.decide_tick.specs.Ticks.{ticked as ticked_with};
ghost use Rattle.runtime.specs.Promises.{Good, FoundIn};
ghost use Rattle.runtime.specs.Runtimes.{tables_in, asked_in, asked_at, book_on};
ghost use Rattle.layout.specs.Layout.{Long, runtime_in};
ghost use Rattle.layout.specs.Promises.{Goes};
ghost use Rattle.host_steps.specs.Altered.{lengthened_slot, sequenced_slot, sooner_at, pending_at, BeginsIn, TightensIn};
ghost use Rattle.host_steps.specs.Onward.{ComesTo, Concludes};

use decide_flags::{is_same, polled, recovered, sensed, stopped};
use decide_lease::{acquire_check, canceled, granted, renew_check, renewed};
use decide_order::{admitted, early_check, order_check, rejected, resource_of};
use decide_ready::{Verdict, is_passed};
use decide_tick::{Begun, opened, opening_tick};
use host_store::{
    announce, follow, look_allowed, look_due, look_forbidden, look_held, look_hit, look_place,
    look_soonest, place, refuse,
};
use layout::{
    capability_at, carrying_in, cursor_in, falling_in, fixed_in, lease_at, numbers_in, pending_in,
    put_axis, put_carrying, put_cursor, put_entry, put_lease, put_numbers, put_pending,
    put_receipt, put_waiting, renewal_in, request_in, submission_in,
};
use model::{Lease, LeaseSlot, Reason};
use runtime::{awaiting, axis_or_spare, entered, is_begun, is_going_on, next_place};
use state::{AfterRecord, AfterTrip, Answer, Awaited, CallKind, Carrying, Mode, Numbers, Pending};

// flags ----------------------------------------------------------------------------------------------------------------
// New flags.
fn sense(state: &mut [u64], flags: u32, time: u64) -> Answer
    requires { Long state.old }
    ensures { Goes state.old state.new result (Good (runtime_in state.old)) (proceed (sense_rule flags time (book_on (runtime_in state.old)))) }
{
    let fixed = fixed_in(state);
    let numbers = numbers_in(state);
    let falling = falling_in(state);
    let axis = look_forbidden(state, 0, flags);
    let course = sensed(fixed, numbers, falling, axis, flags, time);
    follow(state, course)
}

fn stamped(numbers: Numbers, time: u64) -> Numbers
    ensures { result ≡ stamped_with time numbers }
{
    let mut next = numbers;
    next.state_at = time;
    next
}

// Where the flags are as they were, the stamp alone is stored.
pub fn sense_on(state: &mut [u64], flags: u32, time: u64) -> Answer
    requires { Long state.old }
    ensures { Goes state.old state.new result (Good (runtime_in state.old)) (proceed (sense_rule flags time (book_on (runtime_in state.old)))) }
{
    let numbers = numbers_in(state);
    if is_same(numbers, flags, time) {
        put_numbers(state, stamped(numbers, time));
        put_waiting(state, awaiting(Awaited::Nothing));
        return Answer::Returned;
    }
    sense(state, flags, time)
}

pub fn stop(state: &mut [u64], time: u64) -> Answer
    requires { Long state.old }
    ensures { Goes state.old state.new result (Good (runtime_in state.old)) (proceed (emergency_stop time (book_on (runtime_in state.old)) (λ b. Done b Returned))) }
{
    let fixed = fixed_in(state);
    let numbers = numbers_in(state);
    let course = stopped(fixed, numbers, time, AfterTrip::Return);
    follow(state, course)
}

// A poll that saw a raise.
pub fn poll(state: &mut [u64], raised: u32, time: u64) -> Answer
    requires { Long state.old }
    ensures { Goes state.old state.new result (Good (runtime_in state.old)) (proceed (emergency_stop time (with_estop_seen raised (book_on (runtime_in state.old))) (λ b. Done b (Polled true)))) }
{
    let fixed = fixed_in(state);
    let numbers = numbers_in(state);
    let course = polled(fixed, numbers, raised, time);
    follow(state, course)
}

pub fn recover_on(state: &mut [u64], time: u64) -> Answer
    requires { Long state.old }
    ensures { Goes state.old state.new result (Good (runtime_in state.old)) (proceed (recover time (book_on (runtime_in state.old)))) }
{
    let fixed = fixed_in(state);
    let numbers = numbers_in(state);
    let falling = falling_in(state);
    let course = recovered(fixed, numbers, falling, time);
    follow(state, course)
}

// leases ---------------------------------------------------------------------------------------------------------------
// An axis and an end that fit: what the checks leave of a sound runtime.
fn fits(axis: u8, now: u64, duration_ms: u32) -> bool
    ensures { result ≡ (ltb axis 8 && leb (now + duration_ms) top) }
{
    let room = 0xffff_ffff_ffff_ffff - now;
    axis < 8 && duration_ms as u64 <= room
}

fn numbers_with(
    numbers: Numbers,
    next_lease: u64,
    epoch: u64,
    mode: Mode,
    held: u8,
    soonest: u64,
) -> Numbers
    ensures { result ≡ numbers_with next_lease epoch mode held soonest numbers }
{
    Numbers {
        next_receipt: numbers.next_receipt,
        next_lease: next_lease,
        epoch: epoch,
        state_at: numbers.state_at,
        last_tick: numbers.last_tick,
        flags: numbers.flags,
        estop_seen: numbers.estop_seen,
        invalid_count: numbers.invalid_count,
        mode: mode,
        held: held,
        soonest: soonest,
    }
}

// A lease and its receipt.
fn grant(state: &mut [u64], time: u64) -> Answer
    requires { Long state.old }
    ensures { Goes state.old state.new result (Good (runtime_in state.old) × (first_failing (acquire_checks (runtime_in state.old).request time (book_on (runtime_in state.old))) ≡ None)) (proceed (grant_rule None (runtime_in state.old).request time (book_on (runtime_in state.old)))) }
{
    let request = request_in(state);
    let fixed = fixed_in(state);
    let numbers = numbers_in(state);
    if !fits(request.resource, time, request.duration_ms) {
        return refuse(state, Reason::Invalid);
    }
    let change = granted(fixed, numbers, request, time);
    let mode = change.mode;
    let lease = change.lease;
    let receipt = change.receipt;
    put_numbers(
        state,
        numbers_with(
            numbers,
            change.next_lease,
            change.epoch,
            mode,
            change.held,
            change.soonest,
        ),
    );
    put_axis(state, request.resource);
    put_lease(state, request.resource as usize, lease);
    let slot = place(state, false);
    announce(state, slot, AfterRecord::Lease);
    put_receipt(state, slot, receipt);
    Answer::Item
}

pub fn acquire_on(state: &mut [u64], time: u64) -> Answer
    requires { Long state.old }
    ensures { Goes state.old state.new result (Good (runtime_in state.old)) (proceed (grant_rule (first_failing (acquire_checks (runtime_in state.old).request time (book_on (runtime_in state.old)))) (runtime_in state.old).request time (book_on (runtime_in state.old)))) }
{
    let request = request_in(state);
    let fixed = fixed_in(state);
    let numbers = numbers_in(state);
    let allowed = look_allowed(state, request.resource);
    let slot = lease_at(state, axis_or_spare(request.resource));
    let ruling = acquire_check(fixed, numbers, allowed, slot, request, time);
    let verdict = ruling.verdict;
    let reason = ruling.reason;
    match verdict {
        Verdict::Passed => grant(state, time),
        Verdict::Failed => refuse(state, reason),
    }
}

// A slot whose lease has the end and the number of its renewal.
fn lengthened(slot: LeaseSlot, expires_at: u64, renewal: u64) -> LeaseSlot
    ensures { result ≡ lengthened_slot expires_at renewal slot }
{
    let mut next = slot;
    let mut lease = slot.lease;
    lease.expires_at = expires_at;
    lease.last_renewal = renewal;
    next.lease = lease;
    next
}

// A lease's new end, and its receipt.
fn lengthen(state: &mut [u64], axis: u8) -> Answer
    requires { Long state.old × (axis < 9) }
    ensures { Goes state.old state.new result (Good (runtime_in state.old) × ((axis ≡ first_held (runtime_in state.old).renewal.owner (runtime_in state.old).renewal.lease_id (tables_in (runtime_in state.old)).leases) × (first_failing (renew_checks (runtime_in state.old).renewal (book_on (runtime_in state.old))) ≡ None))) (proceed (renewed_rule None (runtime_in state.old).renewal (book_on (runtime_in state.old)))) }
{
    let renewal = renewal_in(state);
    let fixed = fixed_in(state);
    let numbers = numbers_in(state);
    if !fits(axis, renewal.now, renewal.duration_ms) {
        return refuse(state, Reason::Invalid);
    }
    let held = lease_at(state, axis as usize);
    let change = renewed(fixed, numbers, axis, held, renewal);
    let receipt = change.receipt;
    let mode = numbers.mode;
    put_numbers(
        state,
        numbers_with(
            numbers,
            numbers.next_lease,
            numbers.epoch,
            mode,
            numbers.held,
            change.soonest,
        ),
    );
    put_axis(state, axis);
    put_lease(
        state,
        axis as usize,
        lengthened(held, change.expires_at, renewal.renewal),
    );
    let slot = place(state, false);
    announce(state, slot, AfterRecord::Lease);
    put_receipt(state, slot, receipt);
    Answer::Item
}

pub fn renew_on(state: &mut [u64]) -> Answer
    requires { Long state.old }
    ensures { Goes state.old state.new result (Good (runtime_in state.old)) (proceed (renewed_rule (first_failing (renew_checks (runtime_in state.old).renewal (book_on (runtime_in state.old)))) (runtime_in state.old).renewal (book_on (runtime_in state.old)))) }
{
    let renewal = renewal_in(state);
    let fixed = fixed_in(state);
    let numbers = numbers_in(state);
    let axis = look_held(state, renewal.owner, renewal.lease_id);
    let slot = lease_at(state, axis as usize);
    let ruling = renew_check(fixed, numbers, axis, slot, renewal);
    let verdict = ruling.verdict;
    let reason = ruling.reason;
    match verdict {
        Verdict::Passed => lengthen(state, axis),
        Verdict::Failed => refuse(state, reason),
    }
}

pub fn cancel_on(state: &mut [u64], owner: u64, lease_id: u64, time: u64) -> Answer
    requires { Long state.old }
    ensures { Goes state.old state.new result (Good (runtime_in state.old)) (proceed (canceled_rule (held_axis owner lease_id (book_on (runtime_in state.old))) time (book_on (runtime_in state.old)))) }
{
    let numbers = numbers_in(state);
    let falling = falling_in(state);
    let axis = look_held(state, owner, lease_id);
    let course = canceled(numbers, falling, axis, time);
    follow(state, course)
}

// orders ---------------------------------------------------------------------------------------------------------------
// An end that fits: what the checks leave of a sound runtime.
fn end_fits(received_at: u64, valid_for_ms: u32) -> bool
    ensures { result ≡ leb (received_at + valid_for_ms) top }
{
    let room = 0xffff_ffff_ffff_ffff - received_at;
    valid_for_ms as u64 <= room
}

// A slot whose lease has seen this sequence.
fn sequenced(slot: LeaseSlot, sequence: u64) -> LeaseSlot
    ensures { result ≡ sequenced_slot sequence slot }
{
    let mut next = slot;
    let mut lease = slot.lease;
    lease.last_sequence = sequence;
    next.lease = lease;
    next
}

// An order admitted: its sequence and its number are consumed.
fn admit(state: &mut [u64], at: usize) -> Answer
    requires { Long state.old × (at < 17) }
    ensures { Goes state.old state.new result (Good (runtime_in state.old) × (FoundIn (runtime_in state.old).submission.action.capability at (runtime_in state.old) × (first_failing (admission (runtime_in state.old).submission (book_on (runtime_in state.old))) ≡ None))) (proceed (admit_rule (validate (runtime_in state.old).submission (book_on (runtime_in state.old))) (runtime_in state.old).submission (book_on (runtime_in state.old)))) }
{
    let submission = submission_in(state);
    let action = submission.action;
    let numbers = numbers_in(state);
    let cursor = cursor_in(state);
    let carrying = carrying_in(state);
    let capability = capability_at(state, at);
    let axis = axis_or_spare(capability.resource);
    let slot = lease_at(state, axis);
    if !end_fits(submission.received_at, action.valid_for_ms) {
        return refuse(state, Reason::Invalid);
    }
    let change = admitted(numbers, slot, submission);
    let entry = change.entry;
    put_waiting(state, awaiting(Awaited::ObserveBefore));
    put_carrying(
        state,
        Carrying {
            end: change.end,
            at: at,
            pre_state: carrying.pre_state,
        },
    );
    put_cursor(state, next_place(cursor));
    put_lease(state, axis, sequenced(slot, action.sequence));
    put_entry(state, cursor, entered(entry));
    Answer::Item
}

fn counted(numbers: Numbers, invalid_count: u16) -> Numbers
    ensures { result ≡ counting_to invalid_count numbers }
{
    let mut next = numbers;
    next.invalid_count = invalid_count;
    next
}

// The receipt of an order rejected.
fn reject(state: &mut [u64], resource: u8, reason: Reason, original: u64) -> Answer
    requires { Long state.old }
    ensures { Goes state.old state.new result (Good (runtime_in state.old) × ((axis_or255 (order_capability (runtime_in state.old).submission (book_on (runtime_in state.old))) ≡ resource) × (original_rule reason (runtime_in state.old).submission (book_on (runtime_in state.old)) ≡ original))) (proceed (reject_rule reason (runtime_in state.old).submission (book_on (runtime_in state.old)))) }
{
    let submission = submission_in(state);
    let fixed = fixed_in(state);
    let numbers = numbers_in(state);
    let change = rejected(fixed, numbers, resource, reason, original, submission);
    let receipt = change.receipt;
    put_numbers(state, counted(numbers, change.invalid_count));
    let slot = place(state, true);
    announce(state, slot, AfterRecord::Rejected);
    put_receipt(state, slot, receipt);
    Answer::Item
}

pub fn submit_on(state: &mut [u64]) -> Answer
    requires { Long state.old }
    ensures { Goes state.old state.new result (Good (runtime_in state.old)) (proceed (admit_rule (validate (runtime_in state.old).submission (book_on (runtime_in state.old))) (runtime_in state.old).submission (book_on (runtime_in state.old)))) }
{
    let submission = submission_in(state);
    let action = submission.action;
    let fixed = fixed_in(state);
    let numbers = numbers_in(state);
    let at = look_place(state, action.capability);
    let capability = capability_at(state, at);
    let slot = lease_at(state, axis_or_spare(capability.resource));
    let known = at < 16;
    let early = early_check(fixed, numbers, known, slot, submission);
    let wanted = is_passed(early);
    let hit = look_hit(state, wanted, submission.principal, action.action_id);
    let ruling = order_check(early, numbers, capability, slot, hit.found, submission);
    let verdict = ruling.verdict;
    let reason = ruling.reason;
    let resource = resource_of(known, capability);
    match verdict {
        Verdict::Passed => admit(state, at),
        Verdict::Failed => reject(state, resource, reason, hit.receipt),
    }
}

// tick -----------------------------------------------------------------------------------------------------------------
fn ticked(numbers: Numbers, time: u64, mode: Mode) -> Numbers
    ensures { result ≡ ticked_with time mode numbers }
{
    let mut next = numbers;
    next.last_tick = time;
    next.mode = mode;
    next
}

// The opening tick of a call, stored where it is quiet.
pub fn begin(state: &mut [u64], time: u64) -> Begun
    requires { Long state.old }
    ensures { BeginsIn time state.old state.new result }
{
    let fixed = fixed_in(state);
    let numbers = numbers_in(state);
    let open = opened(fixed, numbers, time);
    let begun = open.begun;
    let mode = open.mode;
    if is_begun(begun) {
        put_numbers(state, ticked(numbers, time, mode));
    }
    begun
}

fn sooner_at(numbers: Numbers, soonest: u64) -> Numbers
    ensures { result ≡ sooner_at soonest numbers }
{
    let mut next = numbers;
    next.soonest = soonest;
    next
}

// `soonest` made exact, where a tick found nothing due.
fn tighten(state: &mut [u64])
    requires { Long state.old }
    ensures { TightensIn state.old state.new }
{
    let soonest = look_soonest(state);
    let numbers = numbers_in(state);
    put_numbers(state, sooner_at(numbers, soonest));
}

// What the call in hand does after its opening tick.
fn go_on(state: &mut [u64]) -> Answer
    requires { Long state.old }
    ensures { Goes state.old state.new result (Good (runtime_in state.old)) (proceed (after_tick (asked_in (runtime_in state.old)) (book_on (runtime_in state.old)))) }
{
    let pending = pending_in(state);
    let kind = pending.kind;
    match kind {
        CallKind::Tick => {
            put_waiting(state, awaiting(Awaited::Nothing));
            Answer::Returned
        }
        CallKind::UpdateState => sense_on(state, pending.flags, pending.now),
        CallKind::RecoverLocal => recover_on(state, pending.now),
        CallKind::Acquire => acquire_on(state, pending.now),
        CallKind::Renew => renew_on(state),
        CallKind::Cancel => cancel_on(state, pending.owner, pending.lease_id, pending.now),
        CallKind::Submit => submit_on(state),
    }
}

// What is to come: an answer, or what the call in hand does after its opening tick.
#[derive(Clone, Copy)]
pub enum Onward {
    Answers(Answer),
    GoesOn,
}

// The opening tick of the call in hand, where it is not quiet.
pub fn supervise(state: &mut [u64], time: u64) -> Onward
    requires { Long state.old }
    ensures { ComesTo state.old state.new result (Good (runtime_in state.old)) (proceed (tick_rule time (book_on (runtime_in state.old)) (after_tick (asked_in (runtime_in state.old))))) }
{
    let fixed = fixed_in(state);
    let numbers = numbers_in(state);
    let falling = falling_in(state);
    let axis = look_due(state, 0, time);
    let lease = lease_at(state, axis as usize);
    let course = opening_tick(fixed, numbers, falling, axis, lease, time);
    let way = course.way;
    let answer = follow(state, course);
    if is_going_on(way) {
        tighten(state);
        return Onward::GoesOn;
    }
    Onward::Answers(answer)
}

// What is to come, done: by those who had the tick or the fallback done, so that its stack is free again.
pub fn conclude(state: &mut [u64], onward: Onward) -> Answer
    requires { Long state.old }
    ensures { Concludes state.old state.new onward result }
{
    match onward {
        Onward::Answers(answer) => answer,
        Onward::GoesOn => go_on(state),
    }
}

fn at_time(pending: Pending, time: u64) -> Pending
    ensures { result ≡ pending_at time pending }
{
    let mut next = pending;
    next.now = time;
    next
}

// The call in hand with its opening tick.
pub fn run(state: &mut [u64], time: u64) -> Answer
    requires { Long state.old }
    ensures { Goes state.old state.new result (Good (runtime_in state.old)) (proceed (tick_rule time (book_on (runtime_in state.old)) (after_tick (asked_at time (runtime_in state.old))))) }
{
    let pending = pending_in(state);
    put_pending(state, at_time(pending, time));
    let begun = begin(state, time);
    match begun {
        Begun::Quiet => go_on(state),
        Begun::Busy => {
            let onward = supervise(state, time);
            conclude(state, onward)
        }
    }
}
