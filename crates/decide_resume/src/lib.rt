// What follows a fallback and its receipt, by value (runtime.rs: the rest of `trip`, `tick`, `update_state`, `recover_local` and `cancel` after
// each fallback). Each promises that the course that it gives leads where the stored place denotes (state, specs/State), in any tables that
// hold what was shown. Rests on `decide_tick` and `decide_flags` for the loops that are taken up again, and on `state` for the courses.
#![tactic(auto)]

ghost use Rattle.std.specs.Prelude.{◌≤◌, ◌≡◌, Bool};
ghost use Rattle.state.specs.State.{Tables, after_trip, after_fallback_of, after_fallback, InBounds};
ghost use Rattle.state.specs.Stores.{Takes, TakesWhere};
ghost use Rattle.state.specs.declared.AfterFallback.TheVariants.{Trip, Expiry, Precondition, Cancel};
ghost use Rattle.decide_resume.specs.declared.Sought.TheVariants.{Due, Forbidden};
ghost use Rattle.decide_resume.specs.Searches.{ShowsSought, TripSeeks, Seeks, ShowsNext};

use decide_flags::{preconditions, recoveries};
use decide_tick::{after_watchdog, expiries};
use model::{LeaseSlot, Reason};
use state::{
    AfterFallback, AfterTrip, Course, Falling, Fixed, Mode, Numbers, falls, first_used, goes_on,
    raised, refreshed, refused, returned, submitted, succeeded, trips,
};

// What is sought among the axes before a call goes on: one that is due, one whose order the flags forbid, or none.
#[derive(Clone, Copy)]
pub enum Sought {
    Due,
    Forbidden,
    Nothing,
}

// .. and from which axis on.
#[derive(Clone, Copy)]
pub struct Search {
    pub sought: Sought,
    pub from: u8,
}

fn due_from(axis: u8) -> Search
    ensures { (result.sought ≡ Due) × (result.from ≡ axis) }
{
    Search {
        sought: Sought::Due,
        from: axis,
    }
}

fn forbidden_from(axis: u8) -> Search
    ensures { (result.sought ≡ Forbidden) × (result.from ≡ axis) }
{
    Search {
        sought: Sought::Forbidden,
        from: axis,
    }
}

fn nothing() -> Search
    ensures { result.from ≡ 8 }
{
    Search {
        sought: Sought::Nothing,
        from: 8,
    }
}

fn search_after_trip(falling: Falling) -> Search
    requires { InBounds falling }
    ensures { TripSeeks falling.after_trip falling.at result × (result.from ≤ 8) }
{
    let after = falling.after_trip;
    match after {
        AfterTrip::Tick => nothing(),
        AfterTrip::Watchdog => due_from(0),
        AfterTrip::Stale => due_from(0),
        AfterTrip::Expiry => due_from(falling.at + 1),
        AfterTrip::Precondition => forbidden_from(falling.at + 1),
        AfterTrip::Return => nothing(),
        AfterTrip::Poll => nothing(),
        AfterTrip::Cancel => nothing(),
        AfterTrip::Submit => nothing(),
    }
}

// What the fallback in hand asks for.
pub fn search_after(falling: Falling) -> Search
    requires { InBounds falling }
    ensures { Seeks falling result × (result.from ≤ 8) }
{
    let after = falling.after;
    match after {
        AfterFallback::Trip => search_after_trip(falling),
        AfterFallback::Expiry => due_from(falling.axis + 1),
        AfterFallback::Precondition => forbidden_from(falling.axis + 1),
        AfterFallback::Recovery => nothing(),
        AfterFallback::Cancel => nothing(),
    }
}

// What follows the trip in hand.
fn after_trip(
    fixed: Fixed,
    numbers: Numbers,
    falling: Falling,
    axis: u8,
    lease: LeaseSlot,
) -> Course
    requires { InBounds falling }
    ensures { (s : Search) → TripSeeks falling.after_trip falling.at s → TakesWhere fixed numbers result (ShowsSought s.sought s.from falling.time numbers.flags axis lease) (λ b q. after_trip falling.after_trip falling.at falling.time q b) }
{
    let after = falling.after_trip;
    match after {
        AfterTrip::Tick => goes_on(numbers, falling),
        AfterTrip::Watchdog => after_watchdog(fixed, numbers, falling, axis, lease, falling.time),
        AfterTrip::Stale => expiries(numbers, falling, axis, lease, falling.time),
        AfterTrip::Expiry => expiries(numbers, falling, axis, lease, falling.time),
        AfterTrip::Precondition => preconditions(numbers, falling, axis, falling.time),
        AfterTrip::Return => returned(numbers, falling),
        AfterTrip::Poll => raised(numbers, falling),
        AfterTrip::Cancel => refused(numbers, falling, Reason::Driver),
        AfterTrip::Submit => submitted(numbers, falling),
    }
}

// The next used axis of the trip in hand; past the last, what follows the trip.
fn trip_next(fixed: Fixed, numbers: Numbers, falling: Falling, axis: u8, lease: LeaseSlot) -> Course
    requires { InBounds falling × (falling.after ≡ Trip) }
    ensures { (s : Search) (ok : Bool) → TripSeeks falling.after_trip falling.at s → TakesWhere fixed numbers result (ShowsSought s.sought s.from falling.time numbers.flags axis lease) (λ b q. after_fallback_of Trip falling b.capabilities q ok b) }
{
    let used = fixed.used;
    let next_axis = first_used(used, falling.axis + 1);
    if next_axis < 8 {
        let mut next = falling;
        next.axis = next_axis;
        return falls(numbers, next);
    }
    after_trip(fixed, numbers, falling, axis, lease)
}

// The next axis of the expiries, after a trip where the driver failed.
fn expiry_next(
    fixed: Fixed,
    numbers: Numbers,
    falling: Falling,
    axis: u8,
    lease: LeaseSlot,
    ok: bool,
) -> Course
    requires { InBounds falling }
    ensures { (s : Search) → Seeks falling s → falling.after ≡ Expiry → TakesWhere fixed numbers result (ShowsSought s.sought s.from falling.time numbers.flags axis lease) (λ b q. after_fallback_of Expiry falling b.capabilities q ok b) }
{
    if ok {
        return expiries(numbers, falling, axis, lease, falling.time);
    }
    trips(
        fixed,
        numbers,
        Reason::Driver,
        falling.time,
        AfterTrip::Expiry,
        falling.axis,
    )
}

// The next axis of the preconditions, after a trip where the driver failed.
fn precondition_next(
    fixed: Fixed,
    numbers: Numbers,
    falling: Falling,
    axis: u8,
    lease: LeaseSlot,
    ok: bool,
) -> Course
    requires { InBounds falling }
    ensures { (s : Search) → Seeks falling s → falling.after ≡ Precondition → TakesWhere fixed numbers result (ShowsSought s.sought s.from falling.time numbers.flags axis lease) (λ b q. after_fallback_of Precondition falling b.capabilities q ok b) }
{
    if ok {
        return preconditions(numbers, falling, axis, falling.time);
    }
    trips(
        fixed,
        numbers,
        Reason::Driver,
        falling.time,
        AfterTrip::Precondition,
        falling.axis,
    )
}

// The end of a cancel: the state refreshed, or a trip and 16.
fn cancel_end(fixed: Fixed, numbers: Numbers, falling: Falling, ok: bool) -> Course
    requires { InBounds falling }
    ensures { Takes fixed numbers result (λ b q. after_fallback_of Cancel falling b.capabilities q ok b) }
{
    if ok {
        let mode = numbers.mode;
        let state = mode.state;
        let fresh = Mode {
            state: refreshed(numbers.held != 0, state),
        };
        let mut next = numbers;
        next.mode = fresh;
        return succeeded(next, falling);
    }
    trips(
        fixed,
        numbers,
        Reason::Driver,
        falling.time,
        AfterTrip::Cancel,
        0,
    )
}

// What follows the fallback in hand, given whether the driver succeeded.
pub fn resumed(
    fixed: Fixed,
    numbers: Numbers,
    falling: Falling,
    axis: u8,
    lease: LeaseSlot,
    ok: bool,
) -> Course
    requires { InBounds falling }
    ensures { TakesWhere fixed numbers result (ShowsNext falling numbers.flags axis lease) (λ b q. after_fallback falling b.capabilities q ok b) }
{
    let after = falling.after;
    match after {
        AfterFallback::Trip => trip_next(fixed, numbers, falling, axis, lease),
        AfterFallback::Expiry => expiry_next(fixed, numbers, falling, axis, lease, ok),
        AfterFallback::Precondition => precondition_next(fixed, numbers, falling, axis, lease, ok),
        AfterFallback::Recovery => recoveries(
            fixed,
            numbers,
            falling,
            falling.axis + 1,
            falling.good & ok,
            falling.time,
        ),
        AfterFallback::Cancel => cancel_end(fixed, numbers, falling, ok),
    }
}
