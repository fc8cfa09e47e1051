// Looks and stores over lent words (crate `runtime`, "look" and "store"): the first axis that is due, the place of a capability, the entry of an order;
// a slot for the next receipt, a course followed, a refusal. Promises: whatever the words hold, an answer inside its table, as many words and the same
// first one; where they are a sound runtime, what crate `runtime` promises of its own. Rests on `layout`, and on the decisions for the tests.
#![tactic(auto)]

ghost use Rattle.std.specs.Prelude.{◌+◌, ◌-◌, ◌%◌, ◌≤◌, ◌<◌, cond, ◌≡◌, eqb, ltb, get_or};
ghost use Rattle.model.specs.Records.{no_lease, no_capability, no_replay};
ghost use Rattle.receipts.specs.Indexes.{Numbered};
ghost use Rattle.receipts.specs.Orders.{Counted};
ghost use Rattle.rows.specs.Rows.{Headed};
ghost use Rattle.replay.specs.Ring.{is_hit};
ghost use Rattle.rules.specs.Admission.{allowed};
ghost use Rattle.rules.specs.Interaction.{Done, Refused};
ghost use Rattle.rules.specs.Protocol.{proceed};
ghost use Rattle.rules.specs.Rules.{lease_id, lease_owner};
ghost use Rattle.state.specs.Axes.{first_due, first_forbidden, first_held};
ghost use Rattle.state.specs.State.{lease_in};
ghost use Rattle.state.specs.Stores.{numbers_after, soonest_with};
ghost use Rattle.decide_resume.specs.Searches.{ShowsSought};
ghost use Rattle.runtime.specs.Promises.{Good, SoonestIn, FoundIn, EntryIn, HitIn};
ghost use Rattle.runtime.specs.Runtimes.{tables_in, book_on};
ghost use Rattle.layout.specs.Layout.{Long, runtime_in, Becomes};
ghost use Rattle.layout.specs.Promises.{Goes};
ghost use Rattle.host_store.specs.Looks.{due_at, forbidden_at, held_at};
ghost use Rattle.host_store.specs.Pushes.{Tells, AnyPush, PlacesAny};
ghost use Rattle.host_store.specs.Stores.{announced_in, Places, Follows};

use decide_flags::is_forbidden;
use decide_lease::{allowed_step, is_held};
use decide_order::is_hit;
use decide_resume::Sought;
use decide_tick::{is_due, soonest_step};
use layout::{
    active_at, capability_at, clear_active, clear_lease, cursor_in, entry_at, fixed_in, index_in,
    lease_at, numbers_in, others_at, put_falling, put_index, put_next_receipt, put_numbers,
    put_others, put_reason, put_rejected, put_revoked, put_slot, put_waiting, rejected_at,
    revoked_in,
};
use model::{LeaseSlot, Reason};
use receipts::{Index, Pushed, push};
use runtime::{Hit, Placement, awaiting, cleared, hit_at, place_before, recording, way_waits};
use state::{
    AfterRecord, Answer, Awaited, Course, Numbers, Revoked, bump_counter, held_without, id_of,
    owner_of, soonest_with,
};

// look -----------------------------------------------------------------------------------------------------------------
fn is_due_at(state: &[u64], axis: u8, time: u64) -> bool
    requires { Long state.now × (axis < 8) }
    ensures { Good (runtime_in state.now) → result ≡ due_at (runtime_in state.now) time axis }
{
    is_due(
        lease_at(state, axis as usize),
        active_at(state, axis as usize),
        time,
    )
}

// The first axis from one on whose lease or order is over, or 8; none is before `soonest`.
pub fn look_due(state: &[u64], from: u8, time: u64) -> u8
    requires { Long state.now × (from ≤ 8) }
    ensures { (Good (runtime_in state.now) → result ≡ first_due time (tables_in (runtime_in state.now)).leases (tables_in (runtime_in state.now)).active from) × (result < 9) }
{
    let numbers = numbers_in(state);
    let mut i: u8 = if time < numbers.soonest { 8 } else { from };
    while i < 8 && !is_due_at(state, i, time) {
        i = i + 1;
    }
    i
}

fn is_forbidden_at(state: &[u64], axis: u8, flags: u32) -> bool
    requires { Long state.now × (axis < 8) }
    ensures { Good (runtime_in state.now) → result ≡ forbidden_at (runtime_in state.now) flags axis }
{
    is_forbidden(active_at(state, axis as usize), flags)
}

// The first axis from one on whose order the flags forbid, or 8.
pub fn look_forbidden(state: &[u64], from: u8, flags: u32) -> u8
    requires { Long state.now × (from ≤ 8) }
    ensures { (Good (runtime_in state.now) → result ≡ first_forbidden flags (tables_in (runtime_in state.now)).active from) × (result < 9) }
{
    let mut i: u8 = from;
    while i < 8 && !is_forbidden_at(state, i, flags) {
        i = i + 1;
    }
    i
}

// What is sought before a call goes on.
pub fn look_sought(state: &[u64], sought: Sought, from: u8, time: u64, flags: u32) -> u8
    requires { Long state.now × (from ≤ 8) }
    ensures { (Good (runtime_in state.now) → ShowsSought sought from time flags result (get_or (runtime_in state.now).leases result no_lease) (tables_in (runtime_in state.now))) × (result < 9) }
{
    match sought {
        Sought::Due => look_due(state, from, time),
        Sought::Forbidden => look_forbidden(state, from, flags),
        Sought::Nothing => 8,
    }
}

// The soonest end of a lease or an active order.
pub fn look_soonest(state: &[u64]) -> u64
    requires { Long state.now }
    ensures { Good (runtime_in state.now) → SoonestIn result (runtime_in state.now) }
{
    let mut soonest: u64 = 0xffff_ffff_ffff_ffff;
    let mut i: usize = 0;
    while i < 8 {
        soonest = soonest_step(soonest, lease_at(state, i), active_at(state, i));
        i = i + 1;
    }
    soonest
}

fn is_held_at(state: &[u64], axis: u8, owner: u64, lease_id: u64) -> bool
    requires { Long state.now × (axis < 8) }
    ensures { Good (runtime_in state.now) → result ≡ held_at (runtime_in state.now) owner lease_id axis }
{
    is_held(lease_at(state, axis as usize), owner, lease_id)
}

// The axis of the lease with this owner and id, or 8.
pub fn look_held(state: &[u64], owner: u64, lease_id: u64) -> u8
    requires { Long state.now }
    ensures { (Good (runtime_in state.now) → result ≡ first_held owner lease_id (tables_in (runtime_in state.now)).leases) × (result < 9) }
{
    let mut i: u8 = 0;
    while i < 8 && !is_held_at(state, i, owner, lease_id) {
        i = i + 1;
    }
    i
}

fn has_id_at(state: &[u64], at: usize, id: u16) -> bool
    requires { Long state.now × (at < 17) }
    ensures { result ≡ eqb (get_or (runtime_in state.now).capabilities at no_capability).id id }
{
    let capability = capability_at(state, at);
    capability.id == id
}

// The place of the first record with this id, or 16.
pub fn look_place(state: &[u64], id: u16) -> usize
    requires { Long state.now }
    ensures { (Good (runtime_in state.now) → FoundIn id result (runtime_in state.now)) × (result < 17) }
{
    let fixed = fixed_in(state);
    let count = fixed.count;
    let mut i: usize = 0;
    while i < count && !has_id_at(state, i, id) {
        i = i + 1;
    }
    if i < count { i } else { 16 }
}

// The bits of an axis's capabilities.
pub fn look_allowed(state: &[u64], axis: u8) -> u64
    requires { Long state.now }
    ensures { Good (runtime_in state.now) → result ≡ allowed (tables_in (runtime_in state.now)).capabilities axis }
{
    let fixed = fixed_in(state);
    let count = fixed.count;
    let mut mask: u64 = 0;
    let mut i: usize = 0;
    while i < count {
        mask = allowed_step(mask, capability_at(state, i), axis);
        i = i + 1;
    }
    mask
}

fn is_hit_at(state: &[u64], cursor: usize, i: usize, owner: u64, action_id: u64) -> bool
    requires { Long state.now × ((cursor < 32) × (i < 32)) }
    ensures { result ≡ is_hit owner action_id (get_or (runtime_in state.now).replay ((cursor + 31 - i) % 32) no_replay) }
{
    is_hit(entry_at(state, place_before(cursor, i)), owner, action_id)
}

// The place of the newest entry with this owner and action id, or 32.
fn look_replay(state: &[u64], owner: u64, action_id: u64) -> usize
    requires { Long state.now }
    ensures { (Good (runtime_in state.now) → EntryIn owner action_id result (runtime_in state.now)) × (result < 33) }
{
    let cursor = cursor_in(state);
    let mut i: usize = 0;
    while i < 32 && !is_hit_at(state, cursor, i, owner, action_id) {
        i = i + 1;
    }
    if i < 32 { place_before(cursor, i) } else { 32 }
}

// Whether there is such an entry, and its receipt, where it is wanted.
pub fn look_hit(state: &[u64], wanted: bool, owner: u64, action_id: u64) -> Hit
    requires { Long state.now }
    ensures { Good (runtime_in state.now) → HitIn wanted owner action_id result (runtime_in state.now) }
{
    let at = if wanted {
        look_replay(state, owner, action_id)
    } else {
        32
    };
    let slot = entry_at(state, at);
    let replay = slot.replay;
    hit_at(at, replay.receipt)
}

// store ----------------------------------------------------------------------------------------------------------------
// The kinds are as many as are kept, and tell as many rejections.
fn is_counted(kinds: u64, rejections: usize, others: usize) -> bool
    requires { rejections + others ≤ 64 }
    ensures { Tells result (Counted kinds rejections others) }
{
    let zeros = u64::leading_zeros(kinds) as usize;
    if zeros + (rejections + others) < 64 {
        return false;
    }
    u64::count_ones(kinds) as usize == rejections
}

// Five numbers are an index's; their heads are places.
pub fn is_numbered(index: Index) -> bool
    requires { Headed index }
    ensures { Tells result (Numbered index) }
{
    let rejected = index.rejected;
    let others = index.others;
    if rejected.count > 64 {
        return false;
    }
    if others.count > 64 - rejected.count {
        return false;
    }
    is_counted(index.kinds, rejected.count, others.count)
}

// A push of any five numbers: where they are no index's, everything goes to what is spare.
fn push_any(index: Index, rejected: bool, oldest_rejected: u8, oldest_other: u8) -> Pushed
    requires { Headed index }
    ensures { AnyPush index rejected oldest_rejected oldest_other result }
{
    if is_numbered(index) {
        let pushed = push(index, rejected, oldest_rejected, oldest_other);
        let next = pushed.index;
        return Pushed {
            index: next,
            slot: pushed.slot % 64,
            place: pushed.place,
        };
    }
    Pushed {
        index: index,
        slot: 64,
        place: 64,
    }
}

fn placed(index: Index, oldest_rejected: u8, oldest_other: u8, rejection: bool) -> Placement
    requires { Headed index }
    ensures { PlacesAny index rejection oldest_rejected oldest_other result }
{
    let pushed = push_any(index, rejection, oldest_rejected, oldest_other);
    let next = pushed.index;
    let place = pushed.place;
    if rejection {
        return Placement {
            index: next,
            slot: pushed.slot,
            rejected_at: place,
            others_at: 64,
        };
    }
    Placement {
        index: next,
        slot: pushed.slot,
        rejected_at: 64,
        others_at: place,
    }
}

// A slot for one more receipt, noted in its circle.
pub fn place(state: &mut [u64], rejection: bool) -> usize
    requires { Long state.old }
    ensures { Places rejection state.old state.new result }
{
    let index = index_in(state);
    let rejected = index.rejected;
    let others = index.others;
    let oldest_rejected = rejected_at(state, rejected.head);
    let oldest_other = others_at(state, others.head);
    let change = placed(index, oldest_rejected, oldest_other, rejection);
    let next = change.index;
    put_index(state, next);
    put_rejected(state, change.rejected_at, change.slot as u8);
    put_others(state, change.others_at, change.slot as u8);
    change.slot
}

// The receipt in this slot is in hand, has the next number, and is to be recorded.
pub fn announce(state: &mut [u64], slot: usize, after: AfterRecord)
    requires { Long state.old × (slot < 65) }
    ensures { Becomes state.old state.new (announced_in after slot (runtime_in state.old)) }
{
    let numbers = numbers_in(state);
    put_next_receipt(state, bump_counter(numbers.next_receipt));
    put_waiting(state, recording(after));
    put_slot(state, slot);
}

fn numbers_after(course: Course, held: u8, numbers: Numbers) -> Numbers
    ensures { result ≡ numbers_after course held (soonest_with held numbers.soonest) numbers }
{
    let mode = course.mode;
    Numbers {
        next_receipt: numbers.next_receipt,
        next_lease: numbers.next_lease,
        epoch: course.epoch,
        state_at: course.state_at,
        last_tick: course.last_tick,
        flags: course.flags,
        estop_seen: course.estop_seen,
        invalid_count: course.invalid_count,
        mode: mode,
        held: held,
        soonest: soonest_with(held, numbers.soonest),
    }
}

// The lease that a course takes from its axis.
fn revoked_by(slot: LeaseSlot, ok: bool) -> Revoked
    ensures { result ≡ record { lease_id = lease_id (lease_in slot); owner = lease_owner (lease_in slot); ok = ok } }
{
    Revoked {
        lease_id: id_of(slot),
        owner: owner_of(slot),
        ok: ok,
    }
}

// An axis of the table, or the spare one.
fn axis_or_last(axis: usize) -> usize
    ensures { (result ≡ cond (ltb axis 8) axis 8) × (result < 9) }
{
    if axis < 8 { axis } else { 8 }
}

// What a course says, stored.
pub fn follow(state: &mut [u64], course: Course) -> Answer
    requires { Long state.old }
    ensures { Follows course state.old state.new result }
{
    let falling = course.falling;
    let why = course.why;
    let reason = why.reason;
    let way = course.way;
    let answer = course.answer;
    let axis = axis_or_last(cleared(way, falling.axis));
    let slot = lease_at(state, axis);
    let revoked = revoked_in(state);
    let numbers = numbers_in(state);
    put_revoked(state, revoked_by(slot, revoked.ok));
    put_falling(state, falling);
    put_numbers(
        state,
        numbers_after(course, held_without(slot, numbers.held), numbers),
    );
    put_waiting(state, way_waits(way));
    put_reason(state, reason);
    clear_lease(state, axis);
    clear_active(state, axis);
    answer
}

// A refusal with its reason.
pub fn refuse(state: &mut [u64], reason: Reason) -> Answer
    requires { Long state.old }
    ensures { Goes state.old state.new result (Good (runtime_in state.old)) (proceed (Done (book_on (runtime_in state.old)) (Refused reason))) }
{
    put_waiting(state, awaiting(Awaited::Nothing));
    put_reason(state, reason);
    Answer::Refused
}
