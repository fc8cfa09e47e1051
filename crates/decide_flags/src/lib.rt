// New flags, the two stops and the local recovery, by value (runtime.rs: `update_state` to `recover_local`), after their opening tick. Each
// promises that the course that it gives leads where the rule does, in any tables that hold what was shown (state, specs/Stores). Rests on
// `state` for the parts and the courses.
#![tactic(auto)]

ghost use Rattle.std.specs.Prelude.{ℕ, ◌≤◌, true, not, ◌≡◌, eqb};
ghost use Rattle.model.specs.Words.{permits};
ghost use Rattle.rules.specs.Admission.{holds_of};
ghost use Rattle.rules.specs.Interaction.{Done, Returned, Polled};
ghost use Rattle.rules.specs.Rules.{preconditions as preconditions_rule, sense, stop_time, emergency_stop, recoveries as recoveries_rule, recover};
ghost use Rattle.rules.specs.With.{with_estop_seen};
ghost use Rattle.state.specs.Axes.{axes_from, used_from};
ghost use Rattle.state.specs.State.{active_in, Tables, book_of, flags_end, after_trip as what_follows, InBounds};
ghost use Rattle.state.specs.Stores.{Settles, Takes, TakesWhere};
ghost use Rattle.decide_flags.specs.Flags.{ShowsForbidden, stamped};

use model::{ActiveSlot, Presence, Reason, RuntimeState};
use state::{
    AfterFallback, AfterTrip, Course, Falling, Fixed, Mode, Numbers, bump_counter, falls,
    first_used, is_exhausted, is_stale, refreshed, refused, returned, succeeded, trips,
};

// update_state -------------------------------------------------------------------------------------------------------------

// The flags forbid the order that the axis carries out.
pub fn is_forbidden(slot: ActiveSlot, flags: u32) -> bool
    ensures { result ≡ holds_of (active_in slot) (λ a. not (permits a.capability flags)) }
{
    let presence = slot.presence;
    let active = slot.active;
    let capability = active.capability;
    match presence {
        Presence::Absent => false,
        Presence::Present => !capability.permits(flags),
    }
}

// The axes from one on: the first whose order the flags forbid falls back with 5; where none is, the state is refreshed.
pub fn preconditions(numbers: Numbers, falling: Falling, axis: u8, time: u64) -> Course
    ensures { Settles result × ((f : Fixed) (from : ℕ) → InBounds falling → TakesWhere f numbers result (ShowsForbidden numbers.flags from axis) (λ b q. preconditions_rule (axes_from from) time b flags_end)) }
{
    if axis < 8 {
        let next = Falling {
            time: time,
            axis: axis,
            at: axis,
            reason: Reason::Precondition,
            after: AfterFallback::Precondition,
            good: true,
            after_trip: AfterTrip::Precondition,
        };
        return falls(numbers, next);
    }
    let mode = numbers.mode;
    let state = mode.state;
    let fresh = Mode {
        state: refreshed(numbers.held != 0, state),
    };
    let mut next = numbers;
    next.mode = fresh;
    returned(next, falling)
}

// Nothing before the last tick; the stamp; new flags bump the epoch, and a bit of the stop mask trips 11, else the preconditions.
pub fn sensed(
    fixed: Fixed,
    numbers: Numbers,
    falling: Falling,
    axis: u8,
    flags: u32,
    time: u64,
) -> Course
    ensures { Settles result × (InBounds falling → TakesWhere fixed numbers result (ShowsForbidden flags 0 axis) (λ b q. sense flags time b)) }
{
    if time < numbers.last_tick {
        return returned(numbers, falling);
    }
    let mut next = numbers;
    next.state_at = time;
    let old = numbers.flags;
    if flags == old {
        return returned(next, falling);
    }
    let e = numbers.epoch;
    let config = fixed.config;
    next.flags = flags;
    next.epoch = bump_counter(e);
    if flags & config.estop_mask != 0 {
        return trips(fixed, next, Reason::Estop, time, AfterTrip::Return, 0);
    }
    preconditions(next, falling, axis, time)
}

// The flags are as they were, and the time is not before the last tick: the stamp alone is new.
pub fn is_same(numbers: Numbers, flags: u32, time: u64) -> bool
    ensures { result ≡ true → (f : Fixed) (t : Tables) → sense flags time (book_of f numbers t) ≡ Done (book_of f (stamped time numbers) t) Returned }
{
    if time < numbers.last_tick {
        return false;
    }
    flags == numbers.flags
}

// emergency_stop, poll_estop -------------------------------------------------------------------------------------------------

// The larger time, the mask in the flags, then trip 11 at that time.
pub fn stopped(fixed: Fixed, numbers: Numbers, time: u64, after_trip: AfterTrip) -> Course
    ensures { Settles result × (Takes fixed numbers result (λ b q. emergency_stop time b (what_follows after_trip 0 (stop_time time b) q))) }
{
    let config = fixed.config;
    let mut next = numbers;
    let larger = if time > numbers.last_tick {
        time
    } else {
        numbers.last_tick
    };
    next.last_tick = larger;
    next.flags = numbers.flags | config.estop_mask;
    trips(fixed, next, Reason::Estop, larger, after_trip, 0)
}

// A new raise: its number is seen, then the stop.
pub fn polled(fixed: Fixed, numbers: Numbers, raised: u32, time: u64) -> Course
    ensures { Settles result × (Takes fixed numbers result (λ b q. emergency_stop time (with_estop_seen raised b) (λ b'. Done b' (Polled true)))) }
{
    let mut next = numbers;
    next.estop_seen = raised;
    stopped(fixed, next, time, AfterTrip::Poll)
}

// The raise number is the one last seen.
pub fn is_seen(seen: u32, raised: u32) -> bool
    ensures { result ≡ eqb raised seen }
{
    raised == seen
}

// recover_local --------------------------------------------------------------------------------------------------------------

// The used axes from one on fall back with 26, even after a failure; past the last, SafeIdle, or Faulted and 16 if any failed.
pub fn recoveries(
    fixed: Fixed,
    numbers: Numbers,
    falling: Falling,
    from: u8,
    good: bool,
    time: u64,
) -> Course
    requires { from ≤ 8 }
    ensures { Settles result × (InBounds falling → Takes fixed numbers result (λ b q. recoveries_rule (used_from b.capabilities from) good time b)) }
{
    let used = fixed.used;
    let axis = first_used(used, from);
    if axis < 8 {
        let next = Falling {
            time: time,
            axis: axis,
            at: 0,
            reason: Reason::Recovered,
            after: AfterFallback::Recovery,
            good: good,
            after_trip: AfterTrip::Return,
        };
        return falls(numbers, next);
    }
    let mut next = numbers;
    if good {
        let idle = Mode {
            state: RuntimeState::SafeIdle,
        };
        next.mode = idle;
        next.invalid_count = 0;
        return succeeded(next, falling);
    }
    let faulted = Mode {
        state: RuntimeState::Faulted,
    };
    next.mode = faulted;
    refused(next, falling, Reason::Driver)
}

// 11 while the mask meets the flags; 5 before the last tick, where the state is stale or a counter at the top; else the fallbacks.
pub fn recovered(fixed: Fixed, numbers: Numbers, falling: Falling, time: u64) -> Course
    ensures { Settles result × (InBounds falling → Takes fixed numbers result (λ b q. recover time b)) }
{
    let config = fixed.config;
    if numbers.flags & config.estop_mask != 0 {
        return refused(numbers, falling, Reason::Estop);
    }
    if time < numbers.last_tick {
        return refused(numbers, falling, Reason::Precondition);
    }
    if is_stale(fixed, numbers, time) {
        return refused(numbers, falling, Reason::Precondition);
    }
    if is_exhausted(numbers) {
        return refused(numbers, falling, Reason::Precondition);
    }
    recoveries(fixed, numbers, falling, 0, true, time)
}
