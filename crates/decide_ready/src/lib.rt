// Readiness, and what a check answers (runtime.rs, `ready`). Promises: the reason of the first of the rules' checks that fails. Rests on
// `state` for the parts.
#![tactic(auto)]

ghost use Rattle.std.specs.Prelude.{◌≡◌};
ghost use Rattle.rules.specs.Admission.{first_failing, is_estopped, is_faulted, ready as readiness};
ghost use Rattle.state.specs.State.{Tables, book_of};
ghost use Rattle.decide_ready.specs.Checks.{check_of, failure_of, passes};

use model::{Reason, RuntimeState};
use state::{Fixed, Numbers, is_stale};

// All passed, or the reason of the first that failed.
#[derive(Clone, Copy)]
pub enum Check {
    Passed,
    Failed(Reason),
}

#[derive(Clone, Copy)]
pub enum Verdict {
    Passed,
    Failed,
}

// The same, with the reason beside: a call goes its way by the verdict alone.
#[derive(Clone, Copy)]
pub struct Ruling {
    pub verdict: Verdict,
    pub reason: Reason,
}

pub fn ruling_of(check: Check) -> Ruling
    ensures { check ≡ check_of (failure_of result) }
{
    match check {
        Check::Passed => Ruling {
            verdict: Verdict::Passed,
            reason: Reason::Ok,
        },
        Check::Failed(reason) => Ruling {
            verdict: Verdict::Failed,
            reason: reason,
        },
    }
}

pub fn is_passed(check: Check) -> bool
    ensures { result ≡ passes check }
{
    match check {
        Check::Passed => true,
        Check::Failed(reason) => false,
    }
}

fn is_estopped(state: RuntimeState) -> bool
    ensures { result ≡ is_estopped state }
{
    match state {
        RuntimeState::SafeIdle => false,
        RuntimeState::Armed => false,
        RuntimeState::Faulted => false,
        RuntimeState::Estopped => true,
    }
}

fn is_faulted(state: RuntimeState) -> bool
    ensures { result ≡ is_faulted state }
{
    match state {
        RuntimeState::SafeIdle => false,
        RuntimeState::Armed => false,
        RuntimeState::Faulted => true,
        RuntimeState::Estopped => false,
    }
}

// 11 Estopped; 12 Faulted; 18 before the last tick; 22 a stale state.
pub fn ready(fixed: Fixed, numbers: Numbers, now: u64) -> Check
    ensures { (t : Tables) → result ≡ check_of (first_failing (readiness now (book_of fixed numbers t))) }
{
    let mode = numbers.mode;
    let state = mode.state;
    if is_estopped(state) {
        return Check::Failed(Reason::Estop);
    }
    if is_faulted(state) {
        return Check::Failed(Reason::Faulted);
    }
    if now < numbers.last_tick {
        return Check::Failed(Reason::Clock);
    }
    if is_stale(fixed, numbers, now) {
        return Check::Failed(Reason::StateStale);
    }
    Check::Passed
}
