// The parts of the runtime's state, whatever it is stored in (runtime.rs: `Runtime`, `bump_epoch` to `trip`), and the steps that every call is
// made of. A decision takes parts and looked-up elements by value and says what is to be stored; specs/State says what the parts stand for,
// specs/Stores what storing does, and each function here promises that this is what the rules say, for any tables that hold what was shown.
// Rests on `model` for the records.
#![tactic(auto)]

ghost use Rattle.std.specs.Prelude.{◌≤◌, ◌<◌, min, true, cond, ◌≡◌, eqb};
ghost use Rattle.std.specs.Prelude.{Option};
ghost use Rattle.model.specs.Reasons.{number};
ghost use Rattle.model.specs.declared.Capability.{Capability};
ghost use Rattle.model.specs.declared.Reason.TheVariants.{Estop};
ghost use Rattle.model.specs.declared.RuntimeState.TheVariants.{SafeIdle, Armed};
ghost use Rattle.rules.specs.Admission.{is_armed, is_stale, is_some};
ghost use Rattle.rules.specs.Interaction.{Done, Returned, Polled, Succeeded, Refused, Submitted};
ghost use Rattle.rules.specs.Receipts.{axis_or255, bump, event, is_fallback, numbered, order_receipt};
ghost use Rattle.rules.specs.Rules.{exhausted, lease_id, lease_owner, refreshed as refreshed_state, tripped as tripped_state, fallback, trip};
ghost use Rattle.state.specs.Axes.{first_used};
ghost use Rattle.state.specs.State.{lease_in, Tables, book_of, progress_of, waits, after_tick, after_trip as what_follows, after_fallback, InBounds};
ghost use Rattle.state.specs.Stores.{course_of, without, soonest_with, Settles, Takes};

use model::{Config, Decision, LeaseSlot, Presence, Reason, Receipt, RuntimeState, Submission};

// The call in hand.
#[derive(Clone, Copy, Debug, PartialEq, Eq)]
pub enum CallKind {
    Tick,
    UpdateState,
    RecoverLocal,
    Acquire,
    Renew,
    Cancel,
    Submit,
}

// The call in hand with its numbers: what its opening tick goes on with. Only those of its kind are read.
#[derive(Clone, Copy)]
pub struct Pending {
    pub kind: CallKind,
    pub flags: u32,
    pub now: u64,
    pub owner: u64,
    pub lease_id: u64,
}

// What follows the fallback in hand: the next axis of a trip, of the expiries, of the flags' preconditions or of a recovery; or the end of
// a cancel.
#[derive(Clone, Copy, Debug, PartialEq, Eq)]
pub enum AfterFallback {
    Trip,
    Expiry,
    Precondition,
    Recovery,
    Cancel,
}

// What follows the trip in hand: what the opening tick goes on with (`Tick`, after its two returns), the rest of the tick after its
// watchdog, staleness or an expiry; the rest of the preconditions; or an answer.
#[derive(Clone, Copy, Debug, PartialEq, Eq)]
pub enum AfterTrip {
    Tick,
    Watchdog,
    Stale,
    Expiry,
    Precondition,
    Return,
    Poll,
    Cancel,
    Submit,
}

// The fallback in hand: its item, its time, and what follows it.
#[derive(Clone, Copy)]
pub struct Falling {
    pub time: u64,
    pub axis: u8,
    // The axis of the expiries or the preconditions that tripped.
    pub at: u8,
    pub reason: Reason,
    pub after: AfterFallback,
    // No fallback of the recovery has failed so far.
    pub good: bool,
    pub after_trip: AfterTrip,
}

// The lease that the fallback in hand took from its axis, and its owner; 0 where there was none. And whether the driver succeeded, which is
// known while the receipt's reply is awaited.
#[derive(Clone, Copy)]
pub struct Revoked {
    pub lease_id: u64,
    pub owner: u64,
    pub ok: bool,
}

// The order in hand: the end of a stream, where its capability stands, and the state observed before its execution.
#[derive(Clone, Copy)]
pub struct Carrying {
    pub end: u64,
    pub at: usize,
    pub pre_state: u32,
}

// What follows the receipt in hand.
#[derive(Clone, Copy, Debug, PartialEq, Eq)]
pub enum AfterRecord {
    Fallback,
    Lease,
    Executed,
    Failed,
    Rejected,
}

// Which reply is awaited.
#[derive(Clone, Copy, Debug, PartialEq, Eq)]
pub enum Awaited {
    Nothing,
    ObserveBefore,
    Execute,
    ObserveAfter,
    Fallback,
    Record,
}

#[derive(Clone, Copy)]
pub struct Waiting {
    pub awaited: Awaited,
    pub after_record: AfterRecord,
}

impl Waiting {
    pub const NOTHING: Self = Self {
        awaited: Awaited::Nothing,
        after_record: AfterRecord::Fallback,
    };
}

// An enum that is stored to stands alone in a struct.
#[derive(Clone, Copy)]
pub struct Mode {
    pub state: RuntimeState,
}

// What a start sets, and nothing alters.
#[derive(Clone, Copy)]
pub struct Fixed {
    pub config: Config,
    pub boot_id: u64,
    pub count: usize,
    // The axes that a capability names.
    pub used: [bool; 8],
}

// The numbers of the book.
#[derive(Clone, Copy)]
pub struct Numbers {
    pub next_receipt: u64,
    pub next_lease: u64,
    pub epoch: u64,
    pub state_at: u64,
    pub last_tick: u64,
    pub flags: u32,
    pub estop_seen: u32,
    pub invalid_count: u16,
    pub mode: Mode,
    // How many leases stand, and a time that no lease and no active order ends before: a tick before it has nothing to look for.
    pub held: u8,
    pub soonest: u64,
}

// The reason of a refusal, while it is the answer.
#[derive(Clone, Copy)]
pub struct Why {
    pub reason: Reason,
}

// What a start, a call or a reply gives: its answer, the next item (`Item`), or a refusal: 111, 113, 112, or that there is no runtime. A lease, a
// receipt and a refusal's reason stand in the state. Then that a start is over, and the five ways in which it is refused: 101 to 105.
#[derive(Clone, Copy, Debug, PartialEq, Eq)]
pub enum Answer {
    Returned,
    Unraised,
    Raised,
    Succeeded,
    Leased,
    Refused,
    Submitted,
    Item,
    ReplyAwaited,
    OtherAwaited,
    NoReplyAwaited,
    NoRuntime,
    Started,
    InvalidBootId,
    InvalidConfig,
    InvalidCapability,
    DuplicateCapability,
    StartupFailed,
}

// Where a call goes: to the fallback of an axis, to its answer, or on to what follows its opening tick.
#[derive(Clone, Copy, Debug, PartialEq, Eq)]
pub enum Way {
    Falls,
    Ends,
    GoesOn,
}

// A course to follow: the fallback, where one is to be made, and the numbers as they are to be. The counters of receipts and leases stay.
#[derive(Clone, Copy)]
pub struct Course {
    pub falling: Falling,
    pub last_tick: u64,
    pub state_at: u64,
    pub epoch: u64,
    pub flags: u32,
    pub estop_seen: u32,
    pub invalid_count: u16,
    pub mode: Mode,
    pub way: Way,
    pub answer: Answer,
    pub why: Why,
}

// One more, held at the top.
#[tactic(auto, unfolding(rules::specs::Receipts::bump, rules::specs::Receipts::bump_to))]
pub fn bump_counter(n: u64) -> u64
    ensures { result ≡ bump n }
{
    n.saturating_add(1)
}

#[tactic(auto, unfolding(rules::specs::Admission::is_armed))]
pub fn is_armed(state: RuntimeState) -> bool
    ensures { result ≡ is_armed state }
{
    state == RuntimeState::Armed
}

// The state's age, 0 where the stamp is later, is at or over the limit.
pub fn is_stale(fixed: Fixed, numbers: Numbers, now: u64) -> bool
    ensures { (t : Tables) → result ≡ is_stale now (book_of fixed numbers t) }
{
    let config = fixed.config;
    let ttl = config.state_ttl_ms as u64;
    if now < numbers.state_at {
        return ttl == 0;
    }
    now - numbers.state_at >= ttl
}

// A counter is at the top.
pub fn is_exhausted(numbers: Numbers) -> bool
    ensures { (f : Fixed) (t : Tables) → result ≡ exhausted (book_of f numbers t) }
{
    let top = 0xffff_ffff_ffff_ffff;
    numbers.epoch == top || (numbers.next_receipt == top || numbers.next_lease == top)
}

pub fn sooner(a: u64, b: u64) -> u64
    ensures { result ≡ min a b }
{
    a.min(b)
}

// A reply is awaited.
pub fn is_waiting(waiting: Waiting) -> bool
    ensures { result ≡ waits waiting.awaited }
{
    waiting.awaited != Awaited::Nothing
}

// What a fallback's receipt says of the lease that the axis had.
pub fn id_of(slot: LeaseSlot) -> u64
    ensures { result ≡ lease_id (lease_in slot) }
{
    let presence = slot.presence;
    let lease = slot.lease;
    match presence {
        Presence::Absent => 0,
        Presence::Present => lease.id,
    }
}

pub fn owner_of(slot: LeaseSlot) -> u64
    ensures { result ≡ lease_owner (lease_in slot) }
{
    let presence = slot.presence;
    let lease = slot.lease;
    match presence {
        Presence::Absent => 0,
        Presence::Present => lease.owner,
    }
}

pub fn is_leased(slot: LeaseSlot) -> bool
    ensures { result ≡ is_some (lease_in slot) }
{
    let presence = slot.presence;
    match presence {
        Presence::Absent => false,
        Presence::Present => true,
    }
}

// How many leases stand without the one of this slot.
#[tactic(auto, unfolding(crate::specs::Stores::without))]
pub fn held_without(slot: LeaseSlot, held: u8) -> u8
    ensures { result ≡ without (lease_in slot) held }
{
    let presence = slot.presence;
    match presence {
        Presence::Absent => held,
        Presence::Present => held.saturating_sub(1),
    }
}

// Where no lease stands nothing ends.
pub fn soonest_with(held: u8, soonest: u64) -> u64
    ensures { result ≡ soonest_with held soonest }
{
    if held == 0 {
        return 0xffff_ffff_ffff_ffff;
    }
    soonest
}

// record, event, refresh_state, trip -------------------------------------------------------------------------------------

#[tactic(auto, unfolding(rules::specs::Receipts::is_fallback))]
pub fn is_fallback(decision: Decision) -> bool
    ensures { result ≡ is_fallback decision }
{
    decision == Decision::Fallback
}

// The receipt of a fallback, a grant or a renewal, with its number.
pub fn event_receipt(
    fixed: Fixed,
    numbers: Numbers,
    resource: u8,
    lease_id: u64,
    principal: u64,
    decision: Decision,
    reason: Reason,
    now: u64,
) -> Receipt
    ensures { (t : Tables) → result ≡ numbered numbers.next_receipt (event resource lease_id principal decision reason now (book_of fixed numbers t)) }
{
    Receipt {
        boot_id: fixed.boot_id,
        principal: principal,
        safety_flags: numbers.flags,
        receipt_id: numbers.next_receipt,
        action_id: 0,
        sequence: 0,
        capability: 0,
        resource: resource,
        lease_id: lease_id,
        decision: decision,
        reason: reason,
        epoch: numbers.epoch,
        received_at: now,
        admitted_at: now,
        executed_at: now,
        requested: [0; 2],
        observed: [0; 2],
        pre_state: numbers.flags,
        post_state: numbers.flags,
        original_receipt: 0,
        dispatched: is_fallback(decision),
        observed_valid: false,
    }
}

// How far the driver came with an order.
#[derive(Clone, Copy)]
pub struct Progress {
    pub dispatched: bool,
    pub pre_state: u32,
    pub executed_at: u64,
    pub observed_valid: bool,
    pub observed: [i32; 2],
    pub post_state: u32,
}

impl Progress {
    pub const NOT_SENT: Self = Self {
        dispatched: false,
        pre_state: 0,
        executed_at: 0,
        observed_valid: false,
        observed: [0; 2],
        post_state: 0,
    };
}

// The receipt of an order, on the axis of its capability, or 255, with its number.
pub fn order_receipt(
    fixed: Fixed,
    numbers: Numbers,
    submission: Submission,
    resource: u8,
    decision: Decision,
    reason: Reason,
    original: u64,
    progress: Progress,
) -> Receipt
    ensures { (t : Tables) (c : Option Capability) → axis_or255 c ≡ resource → result ≡ numbered numbers.next_receipt (order_receipt submission c decision reason original (progress_of progress) (book_of fixed numbers t)) }
{
    let action = submission.action;
    let requested = action.parameters;
    let observed = progress.observed;
    Receipt {
        boot_id: fixed.boot_id,
        principal: submission.principal,
        safety_flags: numbers.flags,
        receipt_id: numbers.next_receipt,
        action_id: action.action_id,
        sequence: action.sequence,
        capability: action.capability,
        resource: resource,
        lease_id: action.lease_id,
        decision: decision,
        reason: reason,
        epoch: numbers.epoch,
        received_at: submission.received_at,
        admitted_at: submission.now,
        executed_at: progress.executed_at,
        requested: requested,
        observed: observed,
        pre_state: progress.pre_state,
        post_state: progress.post_state,
        original_receipt: original,
        dispatched: progress.dispatched,
        observed_valid: progress.observed_valid,
    }
}

fn armed_if(leased: bool) -> RuntimeState
    ensures { result ≡ cond leased Armed SafeIdle }
{
    if leased {
        return RuntimeState::Armed;
    }
    RuntimeState::SafeIdle
}

// The state with or without leases: Armed if any stands, else SafeIdle, unless Faulted or Estopped.
#[tactic(auto, unfolding(rules::specs::Rules::refreshed))]
pub fn refreshed(leased: bool, state: RuntimeState) -> RuntimeState
    ensures { result ≡ refreshed_state leased state }
{
    match state {
        RuntimeState::SafeIdle | RuntimeState::Armed => armed_if(leased),
        RuntimeState::Faulted | RuntimeState::Estopped => state,
    }
}

fn is_estop(reason: Reason) -> bool
    ensures { result ≡ eqb (number reason) (number Estop) }
{
    reason == Reason::Estop
}

// The state of a trip: Estopped if the reason is Estop or it already was, else Faulted.
#[tactic(auto, unfolding(rules::specs::Rules::tripped, rules::specs::Admission::is_estopped))]
fn tripped(reason: Reason, state: RuntimeState) -> RuntimeState
    ensures { result ≡ tripped_state reason state }
{
    if is_estop(reason) {
        return RuntimeState::Estopped;
    }
    match state {
        RuntimeState::Estopped => state,
        _ => RuntimeState::Faulted,
    }
}

// The first used axis from one on, or 8.
pub fn first_used(used: [bool; 8], from: u8) -> u8
    requires { from ≤ 8 }
    ensures { result ≡ first_used used from }
{
    for axis in from..8 {
        if used[axis as usize] {
            return axis;
        }
    }
    8
}

// courses ----------------------------------------------------------------------------------------------------------------

fn course_of(numbers: Numbers, falling: Falling, way: Way, answer: Answer, reason: Reason) -> Course
    ensures { result ≡ course_of numbers falling way answer reason }
{
    let mode = numbers.mode;
    let why = Why { reason: reason };
    Course {
        falling: falling,
        last_tick: numbers.last_tick,
        state_at: numbers.state_at,
        epoch: numbers.epoch,
        flags: numbers.flags,
        estop_seen: numbers.estop_seen,
        invalid_count: numbers.invalid_count,
        mode: mode,
        way: way,
        answer: answer,
        why: why,
    }
}

pub fn returned(numbers: Numbers, falling: Falling) -> Course
    ensures { Settles result × ((f : Fixed) → InBounds falling → Takes f numbers result (λ b q. Done b Returned)) }
{
    course_of(numbers, falling, Way::Ends, Answer::Returned, Reason::Ok)
}

// A poll that saw a raise.
pub fn raised(numbers: Numbers, falling: Falling) -> Course
    ensures { Settles result × ((f : Fixed) → InBounds falling → Takes f numbers result (λ b q. Done b (Polled true))) }
{
    course_of(numbers, falling, Way::Ends, Answer::Raised, Reason::Ok)
}

pub fn succeeded(numbers: Numbers, falling: Falling) -> Course
    ensures { Settles result × ((f : Fixed) → InBounds falling → Takes f numbers result (λ b q. Done b Succeeded)) }
{
    course_of(numbers, falling, Way::Ends, Answer::Succeeded, Reason::Ok)
}

pub fn refused(numbers: Numbers, falling: Falling, reason: Reason) -> Course
    ensures { Settles result × ((f : Fixed) → InBounds falling → Takes f numbers result (λ b q. Done b (Refused reason))) }
{
    course_of(numbers, falling, Way::Ends, Answer::Refused, reason)
}

// The receipt that was kept before the trip.
pub fn submitted(numbers: Numbers, falling: Falling) -> Course
    ensures { Settles result × ((f : Fixed) → InBounds falling → Takes f numbers result (λ b q. Done b (Submitted q.submitted))) }
{
    course_of(numbers, falling, Way::Ends, Answer::Submitted, Reason::Ok)
}

// What the call in hand does after its opening tick.
pub fn goes_on(numbers: Numbers, falling: Falling) -> Course
    ensures { (f : Fixed) → InBounds falling → Takes f numbers result (λ b q. after_tick q b) }
{
    course_of(numbers, falling, Way::GoesOn, Answer::Item, Reason::Ok)
}

// Clears the axis, bumps the epoch and hands the fallback out.
pub fn falls(numbers: Numbers, falling: Falling) -> Course
    ensures { Settles result × ((f : Fixed) → InBounds falling → Takes f numbers result (λ b q. fallback falling.axis falling.reason falling.time b (after_fallback falling b.capabilities q))) }
{
    let mut next = numbers;
    let e = numbers.epoch;
    next.epoch = bump_counter(e);
    course_of(next, falling, Way::Falls, Answer::Item, Reason::Ok)
}

// The state first, then the first used axis; a sound state has one.
pub fn trips(
    fixed: Fixed,
    numbers: Numbers,
    reason: Reason,
    time: u64,
    after_trip: AfterTrip,
    at: u8,
) -> Course
    ensures { Settles result × (at < 8 → Takes fixed numbers result (λ b q. trip reason time b (what_follows after_trip at time q))) }
{
    let used = fixed.used;
    let mode = numbers.mode;
    let state = mode.state;
    let mut next = numbers;
    let tripping = Mode {
        state: tripped(reason, state),
    };
    next.mode = tripping;
    let axis = first_used(used, 0);
    let falling = Falling {
        time: time,
        axis: axis,
        at: at,
        reason: reason,
        after: AfterFallback::Trip,
        good: true,
        after_trip: after_trip,
    };
    falls(next, falling)
}
