// Leases, by value (runtime.rs: `acquire`, `renew`, `cancel`), after their opening tick: the checks, and what a grant, a renewal and a cancel
// leave to be stored. Each promises that this is what the rule says, in any tables that hold what was shown (specs/Leases; state,
// specs/Stores). Rests on `state` for the parts and the courses, and on `decide_ready` for readiness.
#![tactic(auto)]

ghost use Rattle.std.specs.Prelude.{ℕ, ◌+◌, ◌≤◌, ◌<◌, ◌^◌, cond, ◌≡◌, eqb, leb, get_or, drop};
ghost use Rattle.std.specs.Prelude.{None};
ghost use Rattle.std.specs.Int.Bits.{bit_or};
ghost use Rattle.rules.specs.Admission.{first_failing, holds_of, is_held_by, bad_duration, valid_request, acquire_checks, renew_checks, held_axis};
ghost use Rattle.rules.specs.Protocol.{proceed};
ghost use Rattle.rules.specs.Receipts.{top};
ghost use Rattle.rules.specs.Rules.{new_lease, grant, renewed as renewed_rule, canceled as canceled_rule};
ghost use Rattle.state.specs.Axes.{first_held};
ghost use Rattle.state.specs.State.{lease_in, Tables, Asked, Hand, state, book_of, InBounds, Sound, Moves};
ghost use Rattle.state.specs.Stores.{Settles, TakesWhere};
ghost use Rattle.state.specs.declared.Answer.TheVariants.{Item};
ghost use Rattle.decide_ready.specs.Checks.{check_of, failure_of};
ghost use Rattle.decide_lease.specs.Leases.{ShowsAxis, ShowsHeld, granted as granted_in, lengthened as lengthened_in};

use decide_ready::{Check, Ruling, ready, ruling_of};
use model::{
    Capability, Decision, Lease, LeaseRequest, LeaseSlot, Presence, Reason, Receipt, Renewal,
};
use state::{
    AfterFallback, AfterTrip, Course, Falling, Fixed, Mode, Numbers, bump_counter, event_receipt,
    falls, is_leased, refreshed, refused, sooner,
};

// acquire ----------------------------------------------------------------------------------------------------------------

// 0 or over the limit.
fn bad_duration(duration_ms: u32, limit_ms: u32) -> bool
    ensures { result ≡ bad_duration duration_ms limit_ms }
{
    if duration_ms == 0 {
        return true;
    }
    duration_ms > limit_ms
}

// Whether the end of a duration is a time.
fn end_fits(start: u64, duration_ms: u32) -> bool
    ensures { result ≡ leb (start + duration_ms) top }
{
    start <= 0xffff_ffff_ffff_ffff - duration_ms as u64
}

// The request alone: an axis in use, an owner, capabilities, a duration within the limit, limits in order.
fn is_valid_request(fixed: Fixed, request: LeaseRequest) -> bool
    ensures { (n : Numbers) (t : Tables) (q : Asked) (h : Hand) → Sound (state fixed n t q h) → result ≡ valid_request request (book_of fixed n t) }
{
    let config = fixed.config;
    let limits = request.limits;
    if request.resource > 7 {
        return false;
    }
    if !fixed.used[request.resource as usize] {
        return false;
    }
    if request.owner == 0 {
        return false;
    }
    if request.capabilities == 0 {
        return false;
    }
    if bad_duration(request.duration_ms, config.max_lease_ms) {
        return false;
    }
    model::all_ordered(limits)
}

// One more record in the bits of an axis's capabilities: bit N for id N.
pub fn allowed_step(mask: u64, capability: Capability, axis: u8) -> u64
    ensures { capability.id < 64 → result ≡ cond (eqb capability.resource axis) (bit_or mask (2 ^ capability.id)) mask }
{
    if capability.resource == axis {
        return mask | (1u64 << (capability.id & 63));
    }
    mask
}

// What follows the request itself: its capabilities, the axis, and the end of the lease.
fn grant_check(allowed: u64, slot: LeaseSlot, request: LeaseRequest, now: u64) -> Check
    ensures { (f : Fixed) (n : Numbers) (t : Tables) → ShowsAxis request.resource allowed slot t → result ≡ check_of (first_failing (drop 5 (acquire_checks request now (book_of f n t)))) }
{
    if allowed & request.capabilities != request.capabilities {
        return Check::Failed(Reason::Authority);
    }
    if is_leased(slot) {
        return Check::Failed(Reason::Busy);
    }
    if !end_fits(now, request.duration_ms) {
        return Check::Failed(Reason::Invalid);
    }
    Check::Passed
}

// Readiness, then the request, then what follows it.
fn checks_of_acquire(
    fixed: Fixed,
    numbers: Numbers,
    allowed: u64,
    slot: LeaseSlot,
    request: LeaseRequest,
    now: u64,
) -> Check
    ensures { (t : Tables) (q : Asked) (h : Hand) → Sound (state fixed numbers t q h) → ShowsAxis request.resource allowed slot t → result ≡ check_of (first_failing (acquire_checks request now (book_of fixed numbers t))) }
{
    let readiness = ready(fixed, numbers, now);
    match readiness {
        Check::Failed(reason) => {
            return Check::Failed(reason);
        }
        Check::Passed => {}
    }
    if !is_valid_request(fixed, request) {
        return Check::Failed(Reason::Invalid);
    }
    grant_check(allowed, slot, request, now)
}

pub fn acquire_check(
    fixed: Fixed,
    numbers: Numbers,
    allowed: u64,
    slot: LeaseSlot,
    request: LeaseRequest,
    now: u64,
) -> Ruling
    ensures { (t : Tables) (q : Asked) (h : Hand) → Sound (state fixed numbers t q h) → ShowsAxis request.resource allowed slot t → failure_of result ≡ first_failing (acquire_checks request now (book_of fixed numbers t)) }
{
    let check = checks_of_acquire(fixed, numbers, allowed, slot, request, now);
    ruling_of(check)
}

// The lease that a request is granted.
fn new_lease(request: LeaseRequest, id: u64, now: u64) -> Lease
    requires { now + request.duration_ms ≤ top }
    ensures { result ≡ new_lease request id now }
{
    let limits = request.limits;
    Lease {
        id: id,
        owner: request.owner,
        resource: request.resource,
        capabilities: request.capabilities,
        expires_at: now + request.duration_ms as u64,
        limits: limits,
        last_sequence: 0,
        last_renewal: 0,
    }
}

// What a grant leaves to be stored, its receipt last.
#[derive(Clone, Copy)]
pub struct Granting {
    pub held: u8,
    pub soonest: u64,
    pub next_lease: u64,
    pub epoch: u64,
    pub mode: Mode,
    pub lease: LeaseSlot,
    pub receipt: Receipt,
}

// The lease stands, the epoch is bumped and the state refreshed; then its receipt.
pub fn granted(fixed: Fixed, numbers: Numbers, request: LeaseRequest, now: u64) -> Granting
    requires { (request.resource < 8) × (now + request.duration_ms ≤ top) }
    ensures { (t : Tables) (q : Asked) (h : Hand) → Sound (state fixed numbers t q h) → get_or t.leases request.resource None ≡ None → Moves (granted_in result request.resource (state fixed numbers t q h)) Item (proceed (grant None request now (book_of fixed numbers t))) }
{
    let id = numbers.next_lease;
    let mode = numbers.mode;
    let state = mode.state;
    let held = numbers.held;
    let lease = new_lease(request, id, now);
    let mut next = numbers;
    next.next_lease = bump_counter(id);
    next.epoch = bump_counter(numbers.epoch);
    let receipt = event_receipt(
        fixed,
        next,
        request.resource,
        id,
        request.owner,
        Decision::Control,
        Reason::LeaseGranted,
        now,
    );
    let armed = Mode {
        state: refreshed(true, state),
    };
    let slot = LeaseSlot {
        presence: Presence::Present,
        lease: lease,
    };
    Granting {
        held: if held < 255 { held + 1 } else { held },
        soonest: sooner(numbers.soonest, lease.expires_at),
        next_lease: next.next_lease,
        epoch: next.epoch,
        mode: armed,
        lease: slot,
        receipt: receipt,
    }
}

// renew ------------------------------------------------------------------------------------------------------------------

// Whether a slot holds the lease with this id and owner.
pub fn is_held(slot: LeaseSlot, owner: u64, lease_id: u64) -> bool
    ensures { result ≡ holds_of (lease_in slot) (is_held_by owner lease_id) }
{
    let presence = slot.presence;
    let lease = slot.lease;
    match presence {
        Presence::Absent => false,
        Presence::Present => lease.id == lease_id && lease.owner == owner,
    }
}

// Readiness, the duration, the lease, the number of the renewal, and the end of the lease.
fn checks_of_renew(
    fixed: Fixed,
    numbers: Numbers,
    axis: u8,
    slot: LeaseSlot,
    renewal: Renewal,
) -> Check
    ensures { (t : Tables) → ShowsHeld renewal.owner renewal.lease_id axis slot t → result ≡ check_of (first_failing (renew_checks renewal (book_of fixed numbers t))) }
{
    let config = fixed.config;
    let readiness = ready(fixed, numbers, renewal.now);
    match readiness {
        Check::Failed(reason) => {
            return Check::Failed(reason);
        }
        Check::Passed => {}
    }
    if bad_duration(renewal.duration_ms, config.max_lease_ms) {
        return Check::Failed(Reason::Invalid);
    }
    if axis > 7 {
        return Check::Failed(Reason::Authority);
    }
    let lease = slot.lease;
    if renewal.renewal <= lease.last_renewal {
        return Check::Failed(Reason::OldSequence);
    }
    if !end_fits(renewal.now, renewal.duration_ms) {
        return Check::Failed(Reason::Invalid);
    }
    Check::Passed
}

pub fn renew_check(
    fixed: Fixed,
    numbers: Numbers,
    axis: u8,
    slot: LeaseSlot,
    renewal: Renewal,
) -> Ruling
    ensures { (t : Tables) → ShowsHeld renewal.owner renewal.lease_id axis slot t → failure_of result ≡ first_failing (renew_checks renewal (book_of fixed numbers t)) }
{
    let check = checks_of_renew(fixed, numbers, axis, slot, renewal);
    ruling_of(check)
}

// What a renewal leaves to be stored, its receipt last.
#[derive(Clone, Copy)]
pub struct Renewing {
    pub soonest: u64,
    pub expires_at: u64,
    pub receipt: Receipt,
}

// The same lease until the time that the renewal asks for, which may be sooner; then its receipt.
pub fn renewed(
    fixed: Fixed,
    numbers: Numbers,
    axis: u8,
    slot: LeaseSlot,
    renewal: Renewal,
) -> Renewing
    requires { (axis < 8) × (renewal.now + renewal.duration_ms ≤ top) }
    ensures { (t : Tables) (q : Asked) (h : Hand) → Sound (state fixed numbers t q h) → ShowsHeld renewal.owner renewal.lease_id axis slot t → Moves (lengthened_in result axis renewal.renewal (state fixed numbers t q h)) Item (proceed (renewed_rule None renewal (book_of fixed numbers t))) }
{
    let lease = slot.lease;
    let end = renewal.now + renewal.duration_ms as u64;
    let receipt = event_receipt(
        fixed,
        numbers,
        axis,
        lease.id,
        lease.owner,
        Decision::Control,
        Reason::LeaseRenewed,
        renewal.now,
    );
    Renewing {
        soonest: sooner(numbers.soonest, end),
        expires_at: end,
        receipt: receipt,
    }
}

// cancel -----------------------------------------------------------------------------------------------------------------

// The end of the lease with this owner and id: a fallback; or 3.
pub fn canceled(numbers: Numbers, falling: Falling, axis: u8, time: u64) -> Course
    ensures { Settles result × ((f : Fixed) (owner id : ℕ) → InBounds falling → TakesWhere f numbers result (λ t. axis ≡ first_held owner id t.leases) (λ b q. canceled_rule (held_axis owner id b) time b)) }
{
    if axis < 8 {
        let next = Falling {
            time: time,
            axis: axis,
            at: 0,
            reason: Reason::Canceled,
            after: AfterFallback::Cancel,
            good: true,
            after_trip: AfterTrip::Cancel,
        };
        return falls(numbers, next);
    }
    refused(numbers, falling, Reason::Authority)
}
