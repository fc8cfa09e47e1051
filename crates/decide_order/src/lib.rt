// An order, by value (runtime.rs: `validate`, `submit`), after its opening tick: its checks, and what a rejection and an admission leave to
// be stored. Each promises that this is what the rule says, in any tables that hold what was shown (specs/Orders; state, specs/Stores).
// Rests on `state` for the parts and the receipts, and on `decide_ready` for readiness.
#![tactic(auto)]

ghost use Rattle.std.specs.Prelude.{◌≤◌, Bool, true, cond, ◌≡◌};
ghost use Rattle.std.specs.Prelude.{Some, None};
ghost use Rattle.model.specs.declared.Presence.TheVariants.{Present};
ghost use Rattle.rules.specs.Admission.{first_failing, holds_of, is_some, authorizes, well_formed, is_entry, replayed, valid_until, all_contain, admission, order_capability, validate};
ghost use Rattle.rules.specs.Book.{Book};
ghost use Rattle.rules.specs.Protocol.{proceed};
ghost use Rattle.rules.specs.Receipts.{top, bump_to, axis_or255};
ghost use Rattle.rules.specs.Rules.{original as original_rule, reject, stream_end, admit};
ghost use Rattle.state.specs.State.{lease_in, Tables, Asked, Hand, state, book_of, Sound, Moves};
ghost use Rattle.state.specs.declared.Answer.TheVariants.{Item};
ghost use Rattle.decide_ready.specs.Checks.{check_of, failure_of};
ghost use Rattle.decide_ready.specs.declared.Check.TheVariants.{Passed};
ghost use Rattle.decide_order.specs.Checks.{early_checks, late_checks, identity_checks, authority_checks, time_checks, state_checks};
ghost use Rattle.decide_order.specs.Orders.{entry_in, ShowsOrder, rejected as rejected_in, admitted as admitted_in};

use decide_ready::{Check, Ruling, Verdict, ready, ruling_of};
use model::{
    Bounds, Capability, Config, Decision, Lease, LeaseSlot, Presence, Reason, Receipt, Replay,
    ReplaySlot, Submission,
};
use state::{Fixed, Numbers, Progress, order_receipt};

// the checks -------------------------------------------------------------------------------------------------------------

// 23 boot; 3 principal 0 or not the requester.
fn identity_check(boot_id: u64, submission: Submission) -> Check
    ensures { result ≡ check_of (first_failing (identity_checks submission boot_id)) }
{
    let action = submission.action;
    if action.boot_id != boot_id {
        return Check::Failed(Reason::BootMismatch);
    }
    if submission.principal == 0 {
        return Check::Failed(Reason::Authority);
    }
    if submission.principal != action.requester {
        return Check::Failed(Reason::Authority);
    }
    Check::Passed
}

// The lease is the one that the order names, the principal's, and has the capability's bit; a checked record has an id below 64.
fn is_authorized(lease: Lease, submission: Submission) -> bool
    ensures { submission.action.capability ≤ 63 → result ≡ authorizes submission lease }
{
    let action = submission.action;
    if lease.id != action.lease_id {
        return false;
    }
    if lease.owner != submission.principal {
        return false;
    }
    lease.capabilities & (1u64 << (action.capability & 63)) != 0
}

// 8 no such capability; 3 no lease, other id, other owner, capability bit clear.
fn authority_check(known: bool, slot: LeaseSlot, submission: Submission) -> Check
    ensures { (known ≡ true → submission.action.capability ≤ 63) → result ≡ check_of (first_failing (authority_checks submission known (cond known (lease_in slot) None))) }
{
    let held = slot.presence;
    let lease = slot.lease;
    if !known {
        return Check::Failed(Reason::UnknownCapability);
    }
    match held {
        Presence::Absent => {
            return Check::Failed(Reason::Authority);
        }
        Presence::Present => {}
    }
    if !is_authorized(lease, submission) {
        return Check::Failed(Reason::Authority);
    }
    Check::Passed
}

// What check 10 asks of the order's own numbers.
fn is_well_formed(config: Config, submission: Submission) -> bool
    ensures { (book : Book) → book.config ≡ config → result ≡ well_formed submission book }
{
    let action = submission.action;
    if action.action_id == 0 {
        return false;
    }
    if action.sequence == 0 {
        return false;
    }
    if submission.received_at > submission.now {
        return false;
    }
    if action.valid_for_ms == 0 {
        return false;
    }
    if action.valid_for_ms > config.max_valid_for_ms {
        return false;
    }
    action.execute_after < action.deadline
}

// Readiness and the checks up to the search in the replay ring.
pub fn early_check(
    fixed: Fixed,
    numbers: Numbers,
    known: bool,
    slot: LeaseSlot,
    submission: Submission,
) -> Check
    ensures { (t : Tables) (q : Asked) (h : Hand) (c : Capability) → Sound (state fixed numbers t q h) → ShowsOrder submission.action.capability known c slot t → result ≡ check_of (first_failing (early_checks submission (book_of fixed numbers t))) }
{
    let config = fixed.config;
    let readiness = ready(fixed, numbers, submission.now);
    match readiness {
        Check::Failed(reason) => {
            return Check::Failed(reason);
        }
        Check::Passed => {}
    }
    let identity = identity_check(fixed.boot_id, submission);
    match identity {
        Check::Failed(reason) => {
            return Check::Failed(reason);
        }
        Check::Passed => {}
    }
    let authority = authority_check(known, slot, submission);
    match authority {
        Check::Failed(reason) => {
            return Check::Failed(reason);
        }
        Check::Passed => {}
    }
    if !is_well_formed(config, submission) {
        return Check::Failed(Reason::Invalid);
    }
    Check::Passed
}

// 10 received plus validity past u64; 2 now ≥ deadline or ≥ that sum; 9 now before execute_after.
fn time_check(submission: Submission) -> Check
    ensures { result ≡ check_of (first_failing (time_checks submission)) }
{
    let action = submission.action;
    let valid_for = action.valid_for_ms as u64;
    if valid_for > 0xffff_ffff_ffff_ffff - submission.received_at {
        return Check::Failed(Reason::Invalid);
    }
    let expires = submission.received_at + valid_for;
    if submission.now >= action.deadline {
        return Check::Failed(Reason::Stale);
    }
    if submission.now >= expires {
        return Check::Failed(Reason::Stale);
    }
    if submission.now < action.execute_after {
        return Check::Failed(Reason::TooEarly);
    }
    Check::Passed
}

// Both parameters lie in their bounds, whatever the record's count says.
fn all_contain(bounds: [Bounds; 2], parameters: [i32; 2]) -> bool
    ensures { result ≡ all_contain bounds parameters }
{
    let first = bounds[0];
    let second = bounds[1];
    let x = parameters[0];
    let y = parameters[1];
    first.contains(x) && second.contains(y)
}

// 7 epoch; 1 a parameter outside capability or lease bounds; 5 flags.
fn state_check(
    epoch: u64,
    flags: u32,
    capability: Capability,
    lease: Lease,
    submission: Submission,
) -> Check
    ensures { result ≡ check_of (first_failing (state_checks submission epoch flags capability lease)) }
{
    let action = submission.action;
    let parameters = action.parameters;
    let bounds = capability.bounds;
    let limits = lease.limits;
    if action.based_on_epoch != epoch {
        return Check::Failed(Reason::Epoch);
    }
    if !all_contain(bounds, parameters) {
        return Check::Failed(Reason::Bound);
    }
    if !all_contain(limits, parameters) {
        return Check::Failed(Reason::Bound);
    }
    if capability.permits(flags) {
        return Check::Passed;
    }
    Check::Failed(Reason::Precondition)
}

// The checks after the search: 6 sequence not above the lease's last, the times, and the state.
fn late_check(
    numbers: Numbers,
    capability: Capability,
    slot: LeaseSlot,
    submission: Submission,
) -> Check
    ensures { (f : Fixed) (t : Tables) → ShowsOrder submission.action.capability true capability slot t → slot.presence ≡ Present → result ≡ check_of (first_failing (late_checks submission (book_of f numbers t))) }
{
    let action = submission.action;
    let lease = slot.lease;
    if action.sequence <= lease.last_sequence {
        return Check::Failed(Reason::OldSequence);
    }
    let time = time_check(submission);
    match time {
        Check::Failed(reason) => Check::Failed(reason),
        Check::Passed => state_check(numbers.epoch, numbers.flags, capability, lease, submission),
    }
}

// All 17: those before the search, 4 where it found the order, those after it.
pub fn order_check(
    early: Check,
    numbers: Numbers,
    capability: Capability,
    slot: LeaseSlot,
    found: bool,
    submission: Submission,
) -> Ruling
    ensures { (f : Fixed) (t : Tables) (known : Bool) → ShowsOrder submission.action.capability known capability slot t → early ≡ check_of (first_failing (early_checks submission (book_of f numbers t))) → (early ≡ Passed → found ≡ is_some (replayed submission (book_of f numbers t))) → failure_of result ≡ first_failing (admission submission (book_of f numbers t)) }
{
    match early {
        Check::Failed(reason) => {
            return Ruling {
                verdict: Verdict::Failed,
                reason: reason,
            };
        }
        Check::Passed => {}
    }
    if found {
        return Ruling {
            verdict: Verdict::Failed,
            reason: Reason::Duplicate,
        };
    }
    let late = late_check(numbers, capability, slot, submission);
    ruling_of(late)
}

// Whether a slot of the replay ring holds the entry of this owner and action id.
pub fn is_hit(slot: ReplaySlot, owner: u64, action_id: u64) -> bool
    ensures { result ≡ holds_of (entry_in slot) (is_entry owner action_id) }
{
    let presence = slot.presence;
    let entry = slot.replay;
    if entry.action_id != action_id {
        return false;
    }
    match presence {
        Presence::Absent => false,
        Presence::Present => entry.owner == owner,
    }
}

// a rejection ------------------------------------------------------------------------------------------------------------

// The axis of the capability that an order names, or 255.
pub fn resource_of(known: bool, capability: Capability) -> u8
    ensures { result ≡ axis_or255 (cond known (Some capability) None) }
{
    if known {
        return capability.resource;
    }
    255
}

// One more rejection, held at the top of 16 bits.
fn bump_rejections(n: u16) -> u16
    ensures { result ≡ bump_to 65535 n }
{
    if n < 65535 { n + 1 } else { n }
}

// What a rejection leaves to be stored, its receipt last.
#[derive(Clone, Copy)]
pub struct Rejecting {
    pub invalid_count: u16,
    pub receipt: Receipt,
}

// Counted, then its receipt.
pub fn rejected(
    fixed: Fixed,
    numbers: Numbers,
    resource: u8,
    reason: Reason,
    original: u64,
    submission: Submission,
) -> Rejecting
    ensures { (t : Tables) (q : Asked) (h : Hand) → Sound (state fixed numbers t q h) → q.submission ≡ submission → axis_or255 (order_capability submission (book_of fixed numbers t)) ≡ resource → original_rule reason submission (book_of fixed numbers t) ≡ original → Moves (rejected_in result (state fixed numbers t q h)) Item (proceed (reject reason submission (book_of fixed numbers t))) }
{
    let count = numbers.invalid_count;
    let not_sent = Progress::NOT_SENT;
    let receipt = order_receipt(
        fixed,
        numbers,
        submission,
        resource,
        Decision::Rejected,
        reason,
        original,
        not_sent,
    );
    Rejecting {
        invalid_count: bump_rejections(count),
        receipt: receipt,
    }
}

// an admission -----------------------------------------------------------------------------------------------------------

// The smaller of the end of an order's validity and its lease's expiry.
fn stream_end(lease: Lease, submission: Submission) -> u64
    requires { valid_until submission ≤ top }
    ensures { result ≡ stream_end lease submission }
{
    let action = submission.action;
    let end = submission.received_at + action.valid_for_ms as u64;
    if end < lease.expires_at {
        end
    } else {
        lease.expires_at
    }
}

// What an admission leaves to be stored, but for the sequence.
#[derive(Clone, Copy)]
pub struct Admitting {
    pub end: u64,
    pub entry: Replay,
}

// Sequence and replay entry are stored before the driver is called: an order whose outcome is not known is never tried again.
pub fn admitted(numbers: Numbers, slot: LeaseSlot, submission: Submission) -> Admitting
    requires { valid_until submission ≤ top }
    ensures { (f : Fixed) (t : Tables) (q : Asked) (h : Hand) (c : Capability) → Sound (state f numbers t q h) → q.submission ≡ submission → ShowsOrder submission.action.capability true c slot t → first_failing (admission submission (book_of f numbers t)) ≡ None → Moves (admitted_in result c submission.action.sequence (state f numbers t q h)) Item (proceed (admit (validate submission (book_of f numbers t)) submission (book_of f numbers t))) }
{
    let lease = slot.lease;
    let action = submission.action;
    let entry = Replay {
        owner: submission.principal,
        action_id: action.action_id,
        receipt: numbers.next_receipt,
    };
    Admitting {
        end: stream_end(lease, submission),
        entry: entry,
    }
}
