// The words of a runtime (specs/Layout): each field read where it lies, and stored there. Promises: what is read is the field of the runtime that
// the words are, whatever they hold; a store alters that field and nothing else. Rests on `cells` for the regions and on `rows` for the rows.
#![tactic(auto)]

ghost use Rattle.std.specs.Prelude.{◌<◌, ◌≡◌, get_or, set};
ghost use Rattle.model.specs.Records.{no_lease, no_active, no_capability, no_replay, no_receipt};
ghost use Rattle.rows.specs.Codes.{below};
ghost use Rattle.rows.specs.Rows.{falling_of, falling_words, Headed};
ghost use Rattle.runtime.specs.Kept.{emptied, idled};
ghost use Rattle.state.specs.State.{InBounds};
ghost use Rattle.layout.specs.Fields.{with_starting, with_waiting, with_numbers, with_cursor, with_slot, with_axis, with_why, with_falling, with_revoked, with_carrying, with_pending, with_fixed, with_index, with_rejected, with_others, with_leases, with_active, with_capabilities, with_replay, with_submission, with_request, with_renewal, with_submitted, with_slots, receipts_to};
ghost use Rattle.layout.specs.Layout.{Long, runtime_in, listing_in, Becomes, Lists};

use cells::{read, write};
use decide_start::Starting;
use format::{as_u8, capability_of, reason_number, renewal_of, request_of, submission_of};
use model::{
    ActiveSlot, Capability, LeaseRequest, LeaseSlot, Reason, Receipt, Renewal, ReplaySlot,
    Submission,
};
use receipts::Index;
use rows::{
    active_slot_of, active_slot_words, capability_row, carrying_of, carrying_words, falling_of,
    falling_words, fixed_of, fixed_words, held_below, index_of, index_words, lease_slot_of,
    lease_slot_words, numbers_of, numbers_words, pending_of, pending_words, reason_of, receipt_of,
    receipt_row, renewal_row, replay_slot_of, replay_slot_words, request_row, revoked_of,
    revoked_words, starting_of, starting_words, submission_row, waiting_of, waiting_words,
};
use state::{Carrying, Falling, Fixed, Numbers, Pending, Revoked, Waiting};

// look -------------------------------------------------------------------------------------------------------------------

pub fn waiting_in(state: &[u64]) -> Waiting
    requires { Long state.now }
    ensures { result ≡ (runtime_in state.now).waiting }
{
    waiting_of(read(state, 1))
}

pub fn numbers_in(state: &[u64]) -> Numbers
    requires { Long state.now }
    ensures { result ≡ (runtime_in state.now).numbers }
{
    numbers_of(read(state, 3))
}

pub fn falling_in(state: &[u64]) -> Falling
    requires { Long state.now }
    ensures { result ≡ (runtime_in state.now).falling }
{
    falling_of(read(state, 18))
}

pub fn revoked_in(state: &[u64]) -> Revoked
    requires { Long state.now }
    ensures { result ≡ (runtime_in state.now).revoked }
{
    revoked_of(read(state, 25))
}

pub fn carrying_in(state: &[u64]) -> Carrying
    requires { Long state.now }
    ensures { result ≡ (runtime_in state.now).carrying }
{
    carrying_of(read(state, 28))
}

pub fn pending_in(state: &[u64]) -> Pending
    requires { Long state.now }
    ensures { result ≡ (runtime_in state.now).pending }
{
    pending_of(read(state, 31))
}

pub fn starting_in(state: &[u64]) -> Starting
    requires { Long state.now }
    ensures { result ≡ (runtime_in state.now).starting }
{
    starting_of(read(state, 36))
}

pub fn fixed_in(state: &[u64]) -> Fixed
    requires { Long state.now }
    ensures { result ≡ (runtime_in state.now).fixed }
{
    fixed_of(read(state, 38))
}

pub fn index_in(state: &[u64]) -> Index
    requires { Long state.now }
    ensures { result ≡ (runtime_in state.now).places.index }
{
    index_of(read(state, 54))
}

pub fn submission_in(state: &[u64]) -> Submission
    requires { Long state.now }
    ensures { result ≡ (runtime_in state.now).submission }
{
    submission_of(read(state, 802))
}

pub fn request_in(state: &[u64]) -> LeaseRequest
    requires { Long state.now }
    ensures { result ≡ (runtime_in state.now).request }
{
    request_of(read(state, 818))
}

pub fn renewal_in(state: &[u64]) -> Renewal
    requires { Long state.now }
    ensures { result ≡ (runtime_in state.now).renewal }
{
    renewal_of(read(state, 828))
}

pub fn submitted_in(state: &[u64]) -> Receipt
    requires { Long state.now }
    ensures { result ≡ (runtime_in state.now).submitted }
{
    receipt_of(read(state, 834))
}

pub fn cursor_in(state: &[u64]) -> usize
    requires { Long state.now }
    ensures { (result ≡ (runtime_in state.now).cursor) × (result < 32) }
{
    held_below(32, state[14]) as usize
}

pub fn slot_in(state: &[u64]) -> usize
    requires { Long state.now }
    ensures { (result ≡ (runtime_in state.now).slot) × (result < 65) }
{
    held_below(65, state[15]) as usize
}

pub fn axis_in(state: &[u64]) -> u8
    requires { Long state.now }
    ensures { result ≡ (runtime_in state.now).axis }
{
    as_u8(state[16])
}

pub fn reason_in(state: &[u64]) -> Reason
    requires { Long state.now }
    ensures { result ≡ (runtime_in state.now).why.reason }
{
    reason_of(state[17])
}

pub fn lease_at(state: &[u64], at: usize) -> LeaseSlot
    requires { Long state.now × (at < 9) }
    ensures { result ≡ get_or (runtime_in state.now).leases at no_lease }
{
    lease_slot_of(read(state, 189 + at * 12))
}

pub fn active_at(state: &[u64], at: usize) -> ActiveSlot
    requires { Long state.now × (at < 9) }
    ensures { result ≡ get_or (runtime_in state.now).active at no_active }
{
    active_slot_of(read(state, 297 + at * 15))
}

pub fn capability_at(state: &[u64], at: usize) -> Capability
    requires { Long state.now × (at < 17) }
    ensures { result ≡ get_or (runtime_in state.now).capabilities at no_capability }
{
    capability_of(read(state, 432 + at * 14))
}

pub fn entry_at(state: &[u64], at: usize) -> ReplaySlot
    requires { Long state.now × (at < 33) }
    ensures { result ≡ get_or (runtime_in state.now).replay at no_replay }
{
    replay_slot_of(read(state, 670 + at * 4))
}

pub fn receipt_at(state: &[u64], at: usize) -> Receipt
    requires { Long state.now × (at < 65) }
    ensures { result ≡ get_or (runtime_in state.now).slots at no_receipt }
{
    receipt_of(read(state, 855 + at * 21))
}

pub fn rejected_at(state: &[u64], at: usize) -> u8
    requires { Long state.now × (at < 65) }
    ensures { result ≡ get_or (runtime_in state.now).places.rejected at 0 }
{
    as_u8(state[59 + at])
}

pub fn others_at(state: &[u64], at: usize) -> u8
    requires { Long state.now × (at < 65) }
    ensures { result ≡ get_or (runtime_in state.now).places.others at 0 }
{
    as_u8(state[124 + at])
}

// store ------------------------------------------------------------------------------------------------------------------

pub fn put_waiting(state: &mut [u64], waiting: Waiting)
    requires { Long state.old }
    ensures { Becomes state.old state.new (with_waiting waiting (runtime_in state.old)) }
{
    let words = waiting_words(waiting);
    write(state, 1, &words);
}

pub fn put_numbers(state: &mut [u64], numbers: Numbers)
    requires { Long state.old }
    ensures { Becomes state.old state.new (with_numbers numbers (runtime_in state.old)) }
{
    let words = numbers_words(numbers);
    write(state, 3, &words);
}

pub fn put_revoked(state: &mut [u64], revoked: Revoked)
    requires { Long state.old }
    ensures { Becomes state.old state.new (with_revoked revoked (runtime_in state.old)) }
{
    let words = revoked_words(revoked);
    write(state, 25, &words);
}

pub fn put_pending(state: &mut [u64], pending: Pending)
    requires { Long state.old }
    ensures { Becomes state.old state.new (with_pending pending (runtime_in state.old)) }
{
    let words = pending_words(pending);
    write(state, 31, &words);
}

pub fn put_starting(state: &mut [u64], starting: Starting)
    requires { Long state.old }
    ensures { Becomes state.old state.new (with_starting starting (runtime_in state.old)) }
{
    let words = starting_words(starting);
    write(state, 36, &words);
}

pub fn put_index(state: &mut [u64], index: Index)
    requires { Long state.old × Headed index }
    ensures { Becomes state.old state.new (with_index index (runtime_in state.old)) }
{
    let words = index_words(index);
    write(state, 54, &words);
}

pub fn put_submission(state: &mut [u64], submission: Submission)
    requires { Long state.old }
    ensures { Becomes state.old state.new (with_submission submission (runtime_in state.old)) }
{
    let words = submission_row(submission);
    write(state, 802, &words);
}

pub fn put_request(state: &mut [u64], request: LeaseRequest)
    requires { Long state.old }
    ensures { Becomes state.old state.new (with_request request (runtime_in state.old)) }
{
    let words = request_row(request);
    write(state, 818, &words);
}

pub fn put_renewal(state: &mut [u64], renewal: Renewal)
    requires { Long state.old }
    ensures { Becomes state.old state.new (with_renewal renewal (runtime_in state.old)) }
{
    let words = renewal_row(renewal);
    write(state, 828, &words);
}

pub fn put_submitted(state: &mut [u64], receipt: Receipt)
    requires { Long state.old }
    ensures { Becomes state.old state.new (with_submitted receipt (runtime_in state.old)) }
{
    let words = receipt_row(receipt);
    write(state, 834, &words);
}

pub fn put_carrying(state: &mut [u64], carrying: Carrying)
    requires { Long state.old × (carrying.at < 17) }
    ensures { Becomes state.old state.new (with_carrying carrying (runtime_in state.old)) }
{
    let words = carrying_words(carrying);
    write(state, 28, &words);
}

pub fn put_fixed(state: &mut [u64], fixed: Fixed)
    requires { Long state.old × (fixed.count < 17) }
    ensures { Becomes state.old state.new (with_fixed fixed (runtime_in state.old)) }
{
    let words = fixed_words(fixed);
    write(state, 38, &words);
}

// An axis that is none is read back as 0.
pub fn put_falling(state: &mut [u64], falling: Falling)
    requires { Long state.old }
    ensures becomes { Becomes state.old state.new (with_falling (falling_of (falling_words falling)) (runtime_in state.old)) }
    ensures falling_value { InBounds falling → falling_of (falling_words falling) ≡ falling }
{
    let words = falling_words(falling);
    write(state, 18, &words);
}

pub fn put_next_receipt(state: &mut [u64], next_receipt: u64)
    requires { Long state.old }
    ensures { Becomes state.old state.new (with_numbers (receipts_to next_receipt (runtime_in state.old).numbers) (runtime_in state.old)) }
{
    state[3] = next_receipt;
}

pub fn put_cursor(state: &mut [u64], cursor: usize)
    requires { Long state.old }
    ensures { Becomes state.old state.new (with_cursor (below 32 cursor) (runtime_in state.old)) }
{
    state[14] = cursor as u64;
}

pub fn put_slot(state: &mut [u64], slot: usize)
    requires { Long state.old }
    ensures { Becomes state.old state.new (with_slot (below 65 slot) (runtime_in state.old)) }
{
    state[15] = slot as u64;
}

pub fn put_axis(state: &mut [u64], axis: u8)
    requires { Long state.old }
    ensures { Becomes state.old state.new (with_axis axis (runtime_in state.old)) }
{
    state[16] = axis as u64;
}

pub fn put_reason(state: &mut [u64], reason: Reason)
    requires { Long state.old }
    ensures { Becomes state.old state.new (with_why (record { reason = reason }) (runtime_in state.old)) }
{
    state[17] = reason_number(reason);
}

pub fn put_lease(state: &mut [u64], at: usize, slot: LeaseSlot)
    requires { Long state.old × (at < 9) }
    ensures { Becomes state.old state.new (with_leases (set (runtime_in state.old).leases at slot) (runtime_in state.old)) }
{
    let words = lease_slot_words(slot);
    write(state, 189 + at * 12, &words);
}

pub fn put_active(state: &mut [u64], at: usize, slot: ActiveSlot)
    requires { Long state.old × (at < 9) }
    ensures { Becomes state.old state.new (with_active (set (runtime_in state.old).active at slot) (runtime_in state.old)) }
{
    let words = active_slot_words(slot);
    write(state, 297 + at * 15, &words);
}

pub fn put_entry(state: &mut [u64], at: usize, slot: ReplaySlot)
    requires { Long state.old × (at < 33) }
    ensures { Becomes state.old state.new (with_replay (set (runtime_in state.old).replay at slot) (runtime_in state.old)) }
{
    let words = replay_slot_words(slot);
    write(state, 670 + at * 4, &words);
}

pub fn put_receipt(state: &mut [u64], at: usize, receipt: Receipt)
    requires { Long state.old × (at < 65) }
    ensures { Becomes state.old state.new (with_slots (set (runtime_in state.old).slots at receipt) (runtime_in state.old)) }
{
    let words = receipt_row(receipt);
    write(state, 855 + at * 21, &words);
}

pub fn put_capability(state: &mut [u64], at: usize, capability: Capability)
    requires { Long state.old × (at < 17) }
    ensures { Becomes state.old state.new (with_capabilities (set (runtime_in state.old).capabilities at capability) (runtime_in state.old)) }
{
    let words = capability_row(0, capability);
    write(state, 432 + at * 14, &words);
}

pub fn put_rejected(state: &mut [u64], at: usize, slot: u8)
    requires { Long state.old × (at < 65) }
    ensures { Becomes state.old state.new (with_rejected (set (runtime_in state.old).places.rejected at slot) (runtime_in state.old)) }
{
    state[59 + at] = slot as u64;
}

pub fn put_others(state: &mut [u64], at: usize, slot: u8)
    requires { Long state.old × (at < 65) }
    ensures { Becomes state.old state.new (with_others (set (runtime_in state.old).places.others at slot) (runtime_in state.old)) }
{
    state[124 + at] = slot as u64;
}

// A lease or an order taken from its axis: what stood there stays, unseen.
pub fn clear_lease(state: &mut [u64], at: usize)
    requires { Long state.old × (at < 9) }
    ensures { Becomes state.old state.new (with_leases (set (runtime_in state.old).leases at (emptied (get_or (runtime_in state.old).leases at no_lease))) (runtime_in state.old)) }
{
    state[189 + at * 12] = 0;
}

pub fn clear_active(state: &mut [u64], at: usize)
    requires { Long state.old × (at < 9) }
    ensures { Becomes state.old state.new (with_active (set (runtime_in state.old).active at (idled (get_or (runtime_in state.old).active at no_active))) (runtime_in state.old)) }
{
    state[297 + at * 15] = 0;
}

// The receipt in a slot, kept to be answered.
pub fn keep_receipt(state: &mut [u64], at: usize)
    requires { Long state.old × (at < 65) }
    ensures { Becomes state.old state.new (with_submitted (get_or (runtime_in state.old).slots at no_receipt) (runtime_in state.old)) }
{
    let words = read(state, 855 + at * 21);
    put_submitted(state, receipt_of(words));
}

// what is listed for the next start ---------------------------------------------------------------------------------------

// 17 stands for more than 16.
pub fn listed_count(state: &[u64]) -> usize
    requires { Long state.now }
    ensures { (result ≡ (listing_in state.now).count) × (result < 18) }
{
    held_below(18, state[2220]) as usize
}

pub fn listed_at(state: &[u64], at: usize) -> Capability
    requires { Long state.now × (at < 17) }
    ensures { result ≡ get_or (listing_in state.now).records at no_capability }
{
    capability_of(read(state, 2221 + at * 14))
}

pub fn put_listed(state: &mut [u64], at: usize, capability: Capability)
    requires { Long state.old × (at < 17) }
    ensures { Lists state.old state.new (record { records = set (listing_in state.old).records at capability; count = (listing_in state.old).count }) }
{
    let words = capability_row(0, capability);
    write(state, 2221 + at * 14, &words);
}

pub fn put_listed_count(state: &mut [u64], count: usize)
    requires { Long state.old × (count < 18) }
    ensures { Lists state.old state.new (record { records = (listing_in state.old).records; count = count }) }
{
    state[2220] = count as u64;
}
