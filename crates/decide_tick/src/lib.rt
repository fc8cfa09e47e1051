// The opening tick of a call, by value (runtime.rs: `tick`): what it does, given the first axis whose lease or order is over; and whether it
// finds nothing to do. Each promises that the course that it gives leads where the rule does, in any tables that hold what was shown
// (state, specs/Stores). Rests on `state` for the parts and the courses.
#![tactic(auto)]

ghost use Rattle.std.specs.Prelude.{ℕ, min, true, cond, ◌≡◌, leb};
ghost use Rattle.model.specs.declared.Reason.TheVariants.{LeaseExpired, StreamExpired};
ghost use Rattle.rules.specs.Admission.{axes, holds_of, is_some};
ghost use Rattle.rules.specs.Rules.{due, staleness, expiries as expiries_rule, tick};
ghost use Rattle.rules.specs.With.{with_last_tick};
ghost use Rattle.state.specs.Axes.{axes_from};
ghost use Rattle.state.specs.State.{lease_in, active_in, after_tick, tick_end, InBounds};
ghost use Rattle.state.specs.Stores.{TakesWhere};
ghost use Rattle.decide_tick.specs.Ticks.{lease_end, order_end, ShowsDue, Quietly, Opens};

use model::{ActiveSlot, LeaseSlot, Presence, Reason};
use state::{
    AfterFallback, AfterTrip, Course, Falling, Fixed, Mode, Numbers, falls, goes_on, is_armed,
    is_exhausted, is_stale, refreshed, sooner, trips,
};

pub fn is_lease_over(slot: LeaseSlot, now: u64) -> bool
    ensures { result ≡ holds_of (lease_in slot) (λ l. leb l.expires_at now) }
{
    let presence = slot.presence;
    let lease = slot.lease;
    match presence {
        Presence::Absent => false,
        Presence::Present => lease.expires_at <= now,
    }
}

pub fn is_order_over(slot: ActiveSlot, now: u64) -> bool
    ensures { result ≡ holds_of (active_in slot) (λ a. leb a.expires_at now) }
{
    let presence = slot.presence;
    let active = slot.active;
    match presence {
        Presence::Absent => false,
        Presence::Present => active.expires_at <= now,
    }
}

// The lease or the order of an axis is over.
pub fn is_due(lease: LeaseSlot, order: ActiveSlot, now: u64) -> bool
    ensures { result ≡ is_some (due now (lease_in lease) (active_in order)) }
{
    if is_lease_over(lease, now) {
        return true;
    }
    is_order_over(order, now)
}

// soonest ----------------------------------------------------------------------------------------------------------------

fn lease_end(slot: LeaseSlot) -> u64
    ensures { result ≡ lease_end (lease_in slot) }
{
    let presence = slot.presence;
    let lease = slot.lease;
    match presence {
        Presence::Absent => 0xffff_ffff_ffff_ffff,
        Presence::Present => lease.expires_at,
    }
}

fn order_end(slot: ActiveSlot) -> u64
    ensures { result ≡ order_end (active_in slot) }
{
    let presence = slot.presence;
    let active = slot.active;
    match presence {
        Presence::Absent => 0xffff_ffff_ffff_ffff,
        Presence::Present => active.expires_at,
    }
}

// One more axis in the search for the soonest end.
pub fn soonest_step(soonest: u64, lease: LeaseSlot, order: ActiveSlot) -> u64
    ensures { result ≡ min soonest (min (lease_end (lease_in lease)) (order_end (active_in order))) }
{
    sooner(soonest, sooner(lease_end(lease), order_end(order)))
}

// tick -------------------------------------------------------------------------------------------------------------------

fn over_reason(lease_over: bool) -> Reason
    ensures { result ≡ cond lease_over LeaseExpired StreamExpired }
{
    if lease_over {
        return Reason::LeaseExpired;
    }
    Reason::StreamExpired
}

// The axes from one on: the first that is due falls back, with 14 where its lease has expired, else 15; where none is, the state is refreshed.
pub fn expiries(numbers: Numbers, falling: Falling, axis: u8, lease: LeaseSlot, time: u64) -> Course
    ensures { (f : Fixed) (from : ℕ) → InBounds falling → TakesWhere f numbers result (ShowsDue time from axis lease) (λ b q. expiries_rule (axes_from from) time b (tick_end q)) }
{
    if axis < 8 {
        let next = Falling {
            time: time,
            axis: axis,
            at: axis,
            reason: over_reason(is_lease_over(lease, time)),
            after: AfterFallback::Expiry,
            good: true,
            after_trip: AfterTrip::Expiry,
        };
        return falls(numbers, next);
    }
    let mode = numbers.mode;
    let state = mode.state;
    let fresh = Mode {
        state: refreshed(numbers.held != 0, state),
    };
    let mut next = numbers;
    next.mode = fresh;
    goes_on(next, falling)
}

// Last tick set; then staleness while Armed, then the expiries.
pub fn after_watchdog(
    fixed: Fixed,
    numbers: Numbers,
    falling: Falling,
    axis: u8,
    lease: LeaseSlot,
    time: u64,
) -> Course
    ensures { InBounds falling → TakesWhere fixed numbers result (ShowsDue time 0 axis lease) (λ b q. staleness time (with_last_tick time b) (λ b'. expiries_rule axes time b' (tick_end q))) }
{
    let mut next = numbers;
    next.last_tick = time;
    let mode = numbers.mode;
    let state = mode.state;
    if is_stale(fixed, next, time) {
        if is_armed(state) {
            return trips(fixed, next, Reason::StateStale, time, AfterTrip::Stale, 0);
        }
    }
    expiries(next, falling, axis, lease, time)
}

// The opening tick of the call in hand: the clock, the counters, the watchdog while Armed.
pub fn opening_tick(
    fixed: Fixed,
    numbers: Numbers,
    falling: Falling,
    axis: u8,
    lease: LeaseSlot,
    time: u64,
) -> Course
    ensures { InBounds falling → TakesWhere fixed numbers result (ShowsDue time 0 axis lease) (λ b q. tick time b (after_tick q)) }
{
    if time < numbers.last_tick {
        return trips(fixed, numbers, Reason::Clock, time, AfterTrip::Tick, 0);
    }
    if is_exhausted(numbers) {
        return trips(fixed, numbers, Reason::Faulted, time, AfterTrip::Tick, 0);
    }
    let mode = numbers.mode;
    let state = mode.state;
    let config = fixed.config;
    let limit = config.watchdog_ms as u64;
    if time - numbers.last_tick > limit {
        if is_armed(state) {
            return trips(
                fixed,
                numbers,
                Reason::Watchdog,
                time,
                AfterTrip::Watchdog,
                0,
            );
        }
    }
    after_watchdog(fixed, numbers, falling, axis, lease, time)
}

// How a call begins: its tick is quiet and leaves this state, or it is not.
#[derive(Clone, Copy)]
pub enum Begun {
    Quiet,
    Busy,
}

#[derive(Clone, Copy)]
pub struct Opening {
    pub begun: Begun,
    pub mode: Mode,
}

// The opening tick finds nothing to do: it trips nothing, and nothing ends up to now.
fn is_quiet(fixed: Fixed, numbers: Numbers, now: u64) -> bool
    ensures { result ≡ true → Quietly fixed numbers now }
{
    if now < numbers.last_tick {
        return false;
    }
    if now >= numbers.soonest {
        return false;
    }
    if is_exhausted(numbers) {
        return false;
    }
    let mode = numbers.mode;
    let state = mode.state;
    let config = fixed.config;
    let limit = config.watchdog_ms as u64;
    if is_armed(state) {
        if now - numbers.last_tick > limit {
            return false;
        }
        return !is_stale(fixed, numbers, now);
    }
    true
}

pub fn opened(fixed: Fixed, numbers: Numbers, now: u64) -> Opening
    ensures { Opens fixed numbers now result }
{
    let mode = numbers.mode;
    let state = mode.state;
    if is_quiet(fixed, numbers, now) {
        let fresh = Mode {
            state: refreshed(numbers.held != 0, state),
        };
        return Opening {
            begun: Begun::Quiet,
            mode: fresh,
        };
    }
    Opening {
        begun: Begun::Busy,
        mode: mode,
    }
}
