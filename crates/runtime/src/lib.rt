// The runtime where it stands (runtime.rs, `Runtime`): tables, numbers and the place of the call in hand, as they are lent. Its fields are
// its own: no other crate can put a lease into the table or lower a counter. specs/Runtimes says which state (crate `state`) it is.
#![tactic(auto)]

ghost use Rattle.std.specs.Prelude.{◌+◌, ◌-◌, ◌%◌, ◌≤◌, ◌<◌, true, List, ◌≡◌, get_or};
ghost use Rattle.std.specs.Prelude.{Some, None};
ghost use Rattle.model.specs.declared.Capability.{Capability as CapabilityRecord};
ghost use Rattle.model.specs.Records.{no_lease};
ghost use Rattle.replay.specs.Ring.{held};
ghost use Rattle.rules.specs.Admission.{first_failing, allowed, acquire_checks, renew_checks, held_axis, order_capability, admission, validate};
ghost use Rattle.rules.specs.Interaction.{Done, Returned, Polled, Refused, Submitted, Leased};
ghost use Rattle.rules.specs.Protocol.{proceed, react, Calls, Tick, UpdateState, EmergencyStop, PollEstop, RecoverLocal, Acquire, Renew, Cancel, Submit, begin as begin_rule, Answers, awaited_in, start as start_rule, start_from, ReadEpoch, ReadBootId, ReadFlags, ReadReceiptCount, Replies, Observed as ObservedReply, Executed as ExecutedReply, FellBack as FellBackReply, Recorded as RecordedReply};
ghost use Rattle.rules.specs.Receipts.{axis_or255};
ghost use Rattle.rules.specs.Rules.{trip as trip_rule, tick as tick_rule, sense as sense_rule, emergency_stop, recover, grant as grant_rule, renewed as renewed_rule, canceled as canceled_rule, original as original_rule, reject as reject_rule, admit as admit_rule, fail as fail_rule, complete as complete_rule};
ghost use Rattle.rules.specs.With.{with_estop_seen};
ghost use Rattle.state.specs.Axes.{first_due, first_forbidden, first_held, used_from};
ghost use Rattle.state.specs.State.{lease_in, progress_of, after_tick, after_fallback, after_fell_back, phase_of, output_of, InBounds};
ghost use Rattle.state.specs.declared.Answer.TheVariants as Answered;
ghost use Rattle.state.specs.Stores.{goes_on, awaiting as awaiting_for};
ghost use Rattle.state.specs.declared.Awaited.TheVariants.{Nothing, ObserveAfter, Record};
ghost use Rattle.decide_reply.specs.Replies.{observation_in, seen_by};
ghost use Rattle.decide_resume.specs.Searches.{ShowsSought};
ghost use Rattle.decide_read.specs.Shown.{shown_item};
ghost use Rattle.decide_start.specs.Starts.{Listing, start_on};
ghost use Rattle.runtime.specs.Kept.{Indexed, PlacesAs, waits_by, clears, followed_in};
ghost use Rattle.runtime.specs.Promises.{Kept, Good, MovesIn, TurnsIn, Leaves, PlacesIn, is_quiet, Begins, Tightens, spare_or, SoonestIn, FoundIn, EntryIn, hit_of, HitIn};
ghost use Rattle.runtime.specs.Runtimes.{state_in, tables_in, asked_in, asked_at, order_in, hand_in, book_on};
ghost use Rattle.runtime.specs.Stages.{start_in, trying_in, phase_in, starting_on, Empties, Opened, Tries, RuntimeSound, Moves, Turns, StateReads, NumberReads, LeaseReads, CapabilityReads, ConfigReads, SnapshotReads, ReceiptReads};

use decide_flags::is_forbidden;
use decide_flags::is_same;
use decide_flags::is_seen;
use decide_flags::polled;
use decide_flags::recovered;
use decide_flags::sensed;
use decide_flags::stopped;
use decide_lease::acquire_check;
use decide_lease::allowed_step;
use decide_lease::canceled;
use decide_lease::granted;
use decide_lease::is_held;
use decide_lease::renew_check;
use decide_lease::renewed;
use decide_order::admitted;
use decide_order::early_check;
use decide_order::is_hit;
use decide_order::order_check;
use decide_order::rejected;
use decide_order::resource_of;
use decide_read::CapabilityShown;
use decide_read::ConfigShown;
use decide_read::ItemShown;
use decide_read::LeaseShown;
use decide_read::NumberShown;
use decide_read::ReceiptShown;
use decide_read::SnapshotShown;
use decide_read::StateShown;
use decide_read::capability_shown;
use decide_read::config_shown;
use decide_read::item_of;
use decide_read::lease_in;
use decide_read::lease_shown;
use decide_read::noted_at;
use decide_read::number_shown;
use decide_read::place_or_spare;
use decide_read::receipt_shown;
use decide_read::retained;
use decide_read::slot_of;
use decide_read::snapshot_shown;
use decide_read::state_shown;
use decide_read::submitted_of;
use decide_ready::Verdict;
use decide_ready::is_passed;
use decide_reply::Observed;
use decide_reply::OnExecuted;
use decide_reply::OnFellBack;
use decide_reply::OnObserved;
use decide_reply::OnRecorded;
use decide_reply::came;
use decide_reply::completed;
use decide_reply::fail_reason;
use decide_reply::failed;
use decide_reply::on_executed;
use decide_reply::on_fell_back;
use decide_reply::on_observed;
use decide_reply::on_recorded;
use decide_reply::told;
use decide_reply::unexecuted;
use decide_resume::Sought;
use decide_resume::resumed;
use decide_resume::search_after;
use decide_start::Listed;
use decide_start::Stage;
use decide_start::Starting;
use decide_start::first_trial;
use decide_start::fixed_of;
use decide_start::is_started;
use decide_start::may_begin;
use decide_start::numbers_of;
use decide_start::refused_start;
use decide_start::still_good;
use decide_start::tried;
use decide_start::turned_away;
use decide_start::unheard;
use decide_tick::Begun;
use decide_tick::is_due;
use decide_tick::opened;
use decide_tick::opening_tick;
use decide_tick::soonest_step;
use model::Action;
use model::ActiveSlot;
use model::Bounds;
use model::Capability;
use model::Config;
use model::Lease;
use model::LeaseRequest;
use model::LeaseSlot;
use model::Observation;
use model::Presence;
use model::Reason;
use model::Receipt;
use model::Renewal;
use model::Replay;
use model::ReplaySlot;
use model::Submission;
use receipts::Index;
use receipts::push;
use state::AfterFallback;
use state::AfterRecord;
use state::AfterTrip;
use state::Answer;
use state::Awaited;
use state::CallKind;
use state::Carrying;
use state::Course;
use state::Falling;
use state::Fixed;
use state::Numbers;
use state::Pending;
use state::Progress;
use state::Revoked;
use state::Waiting;
use state::Way;
use state::Why;
use state::bump_counter;
use state::first_used;
use state::held_without;
use state::id_of;
use state::owner_of;
use state::soonest_with;
use state::trips;

// The places of the receipts: the index and the slot numbers of its two circles.
#[derive(Clone, Copy)]
pub struct Places {
    pub index: Index,
    pub rejected: [u8; 65],
    pub others: [u8; 65],
}

// Each table has one element more than it shows, at its end: what is stored there is not kept, so that a store needs no branch.
#[derive(Clone, Copy)]
pub struct Runtime {
    waiting: Waiting,
    numbers: Numbers,
    cursor: usize,
    // The slot of the receipt in hand, and the axis of the lease that was granted or renewed last.
    slot: usize,
    axis: u8,
    why: Why,
    falling: Falling,
    revoked: Revoked,
    carrying: Carrying,
    pending: Pending,
    // Apart from what a call alters just before the next one reads this.
    starting: Starting,
    fixed: Fixed,
    places: Places,
    leases: [LeaseSlot; 9],
    active: [ActiveSlot; 9],
    capabilities: [Capability; 17],
    replay: [ReplaySlot; 33],
    submission: Submission,
    request: LeaseRequest,
    renewal: Renewal,
    submitted: Receipt,
    slots: [Receipt; 65],
}

// look -------------------------------------------------------------------------------------------------------------------

// The first axis from one on whose lease or order is over, or 8; none is before `soonest`.
fn look_due(rt: &Runtime, from: u8, time: u64) -> u8
    requires { Good rt.now × (from ≤ 8) }
    ensures { (result ≡ first_due time (tables_in rt.now).leases (tables_in rt.now).active from) × (result < 9) }
{
    let mut i: u8 = if time < rt.numbers.soonest { 8 } else { from };
    while i < 8 && !is_due(rt.leases[i as usize], rt.active[i as usize], time) {
        i = i + 1;
    }
    i
}

// The first axis from one on whose order the flags forbid, or 8.
fn look_forbidden(rt: &Runtime, from: u8, flags: u32) -> u8
    requires { Good rt.now × (from ≤ 8) }
    ensures { (result ≡ first_forbidden flags (tables_in rt.now).active from) × (result < 9) }
{
    let mut i: u8 = from;
    while i < 8 && !is_forbidden(rt.active[i as usize], flags) {
        i = i + 1;
    }
    i
}

// What is sought before a call goes on.
fn look_sought(rt: &Runtime, sought: Sought, from: u8, time: u64, flags: u32) -> u8
    requires { Good rt.now × (from ≤ 8) }
    ensures { (ShowsSought sought from time flags result (get_or rt.now.leases result no_lease) (tables_in rt.now)) × (result < 9) }
{
    match sought {
        Sought::Due => look_due(rt, from, time),
        Sought::Forbidden => look_forbidden(rt, from, flags),
        Sought::Nothing => 8,
    }
}

// The soonest end of a lease or an active order.
fn look_soonest(rt: &Runtime) -> u64
    requires { Good rt.now }
    ensures { SoonestIn result rt.now }
{
    let mut soonest: u64 = 0xffff_ffff_ffff_ffff;
    let mut i: usize = 0;
    while i < 8 {
        soonest = soonest_step(soonest, rt.leases[i], rt.active[i]);
        i = i + 1;
    }
    soonest
}

// The axis of the lease with this owner and id, or 8.
fn look_held(rt: &Runtime, owner: u64, lease_id: u64) -> u8
    requires { Good rt.now }
    ensures { (result ≡ first_held owner lease_id (tables_in rt.now).leases) × (result < 9) }
{
    let mut i: u8 = 0;
    while i < 8 && !is_held(rt.leases[i as usize], owner, lease_id) {
        i = i + 1;
    }
    i
}

// The place of the first record with this id, or 16.
fn look_place(rt: &Runtime, id: u16) -> usize
    requires { Good rt.now }
    ensures { FoundIn id result rt.now }
{
    let count = rt.fixed.count;
    let mut i: usize = 0;
    while i < count && rt.capabilities[i].id != id {
        i = i + 1;
    }
    if i < count { i } else { 16 }
}

// The bits of an axis's capabilities.
fn look_allowed(rt: &Runtime, axis: u8) -> u64
    requires { Good rt.now }
    ensures { result ≡ allowed (tables_in rt.now).capabilities axis }
{
    let count = rt.fixed.count;
    let mut mask: u64 = 0;
    let mut i: usize = 0;
    while i < count {
        mask = allowed_step(mask, rt.capabilities[i], axis);
        i = i + 1;
    }
    mask
}

// The place that stands so many before the newest of the replay ring.
pub fn place_before(cursor: usize, i: usize) -> usize
    requires { (cursor < 32) × (i < 32) }
    ensures { (result ≡ (cursor + 31 - i) % 32) × (result < 32) }
{
    (cursor + 31 - i) % 32
}

// The place of the newest entry with this owner and action id, or 32.
fn look_replay(rt: &Runtime, owner: u64, action_id: u64) -> usize
    requires { Good rt.now }
    ensures { EntryIn owner action_id result rt.now }
{
    let cursor = rt.cursor;
    let mut i: usize = 0;
    while i < 32 && !is_hit(rt.replay[place_before(cursor, i)], owner, action_id) {
        i = i + 1;
    }
    if i < 32 { place_before(cursor, i) } else { 32 }
}

// Whether there is such an entry, and its receipt.
#[derive(Clone, Copy)]
pub struct Hit {
    pub found: bool,
    pub receipt: u64,
}

pub fn hit_at(at: usize, receipt: u64) -> Hit
    ensures { result ≡ hit_of at receipt }
{
    if at < 32 {
        return Hit {
            found: true,
            receipt: receipt,
        };
    }
    Hit {
        found: false,
        receipt: 0,
    }
}

// .. where it is wanted.
fn look_hit(rt: &Runtime, wanted: bool, owner: u64, action_id: u64) -> Hit
    requires { Good rt.now }
    ensures { HitIn wanted owner action_id result rt.now }
{
    let at = if wanted {
        look_replay(rt, owner, action_id)
    } else {
        32
    };
    let receipt = rt.replay[at].replay.receipt;
    hit_at(at, receipt)
}

// store ------------------------------------------------------------------------------------------------------------------

// Where one more receipt goes: its slot, and the place of its circle; the spare place of the other one.
#[derive(Clone, Copy)]
pub struct Placement {
    pub index: Index,
    pub slot: usize,
    pub rejected_at: usize,
    pub others_at: usize,
}

fn placed(index: Index, oldest_rejected: u8, oldest_other: u8, rejection: bool) -> Placement
    requires { Indexed index }
    ensures { PlacesAs index rejection oldest_rejected oldest_other result }
{
    let pushed = push(index, rejection, oldest_rejected, oldest_other);
    let next = pushed.index;
    let place = pushed.place;
    if rejection {
        return Placement {
            index: next,
            slot: pushed.slot,
            rejected_at: place,
            others_at: 64,
        };
    }
    Placement {
        index: next,
        slot: pushed.slot,
        rejected_at: 64,
        others_at: place,
    }
}

pub fn recording(after: AfterRecord) -> Waiting
    ensures { result ≡ record { awaited = Record; after_record = after } }
{
    Waiting {
        awaited: Awaited::Record,
        after_record: after,
    }
}

// A slot for the next receipt, which is to be recorded.
fn place(rt: &mut Runtime, rejection: bool, after: AfterRecord) -> usize
    requires { Kept rt.old }
    ensures { PlacesIn rejection after rt.old rt.new result }
{
    let index = rt.places.index;
    let oldest_rejected = rt.places.rejected[index.rejected.head];
    let oldest_other = rt.places.others[index.others.head];
    let n = rt.numbers.next_receipt;
    let change = placed(index, oldest_rejected, oldest_other, rejection);
    rt.numbers.next_receipt = bump_counter(n);
    rt.waiting = recording(after);
    rt.places.index = change.index;
    rt.places.rejected[change.rejected_at] = change.slot as u8;
    rt.places.others[change.others_at] = change.slot as u8;
    rt.slot = change.slot;
    change.slot
}

pub fn way_waits(way: Way) -> Waiting
    ensures { result ≡ waits_by way }
{
    match way {
        Way::Falls => Waiting {
            awaited: Awaited::Fallback,
            after_record: AfterRecord::Fallback,
        },
        Way::Ends => Waiting::NOTHING,
        Way::GoesOn => Waiting::NOTHING,
    }
}

// The axis that a course clears; the spare one where it clears none.
pub fn cleared(way: Way, axis: u8) -> usize
    ensures { result ≡ clears way axis }
{
    match way {
        Way::Falls => axis as usize,
        Way::Ends => 8,
        Way::GoesOn => 8,
    }
}

// What a course says, stored.
fn follow(rt: &mut Runtime, course: Course) -> Answer
    requires { InBounds course.falling }
    ensures { Leaves (followed_in course rt.old) course.answer rt.new result }
{
    let axis = cleared(course.way, course.falling.axis);
    let slot = rt.leases[axis];
    rt.revoked.lease_id = id_of(slot);
    rt.revoked.owner = owner_of(slot);
    rt.falling.time = course.falling.time;
    rt.falling.axis = course.falling.axis;
    rt.falling.at = course.falling.at;
    rt.falling.reason = course.falling.reason;
    rt.falling.after = course.falling.after;
    rt.falling.good = course.falling.good;
    rt.falling.after_trip = course.falling.after_trip;
    rt.numbers.last_tick = course.last_tick;
    rt.numbers.state_at = course.state_at;
    rt.numbers.epoch = course.epoch;
    rt.numbers.flags = course.flags;
    rt.numbers.estop_seen = course.estop_seen;
    rt.numbers.invalid_count = course.invalid_count;
    rt.numbers.mode = course.mode;
    let left = held_without(slot, rt.numbers.held);
    rt.numbers.soonest = soonest_with(left, rt.numbers.soonest);
    rt.numbers.held = left;
    rt.waiting = way_waits(course.way);
    rt.why = course.why;
    rt.leases[axis].presence = Presence::Absent;
    rt.active[axis].presence = Presence::Absent;
    course.answer
}

pub fn awaiting(awaited: Awaited) -> Waiting
    ensures { result ≡ awaiting_for awaited }
{
    Waiting {
        awaited: awaited,
        after_record: AfterRecord::Fallback,
    }
}

// A refusal with its reason.
fn refuse(rt: &mut Runtime, reason: Reason) -> Answer
    requires { Good rt.old }
    ensures { MovesIn rt.new result (proceed (Done (book_on rt.old) (Refused reason))) }
{
    rt.waiting = awaiting(Awaited::Nothing);
    rt.why.reason = reason;
    Answer::Refused
}

// tick -------------------------------------------------------------------------------------------------------------------

pub fn is_begun(begun: Begun) -> bool
    ensures { result ≡ is_quiet begun }
{
    match begun {
        Begun::Quiet => true,
        Begun::Busy => false,
    }
}

// The opening tick of a call, stored where it is quiet.
fn begin(rt: &mut Runtime, time: u64) -> Begun
    requires { Good rt.old }
    ensures { Begins time rt.old rt.new result }
{
    let fixed = rt.fixed;
    let numbers = rt.numbers;
    let open = opened(fixed, numbers, time);
    if is_begun(open.begun) {
        rt.numbers.last_tick = time;
        rt.numbers.mode = open.mode;
    }
    open.begun
}

// `soonest` made exact, where a tick found nothing due.
fn tighten(rt: &mut Runtime)
    requires { Good rt.old }
    ensures { Tightens rt.old rt.new }
{
    let soonest = look_soonest(rt);
    rt.numbers.soonest = soonest;
}

pub fn is_going_on(way: Way) -> bool
    ensures { result ≡ goes_on way }
{
    match way {
        Way::Falls => false,
        Way::Ends => false,
        Way::GoesOn => true,
    }
}

// The opening tick of the call in hand, where it is not quiet.
fn supervise(rt: &mut Runtime, time: u64) -> Answer
    requires { Good rt.old }
    ensures { MovesIn rt.new result (proceed (tick_rule time (book_on rt.old) (after_tick (asked_in rt.old)))) }
{
    let fixed = rt.fixed;
    let numbers = rt.numbers;
    let falling = rt.falling;
    let axis = look_due(rt, 0, time);
    let lease = rt.leases[axis as usize];
    let course = opening_tick(fixed, numbers, falling, axis, lease, time);
    let way = course.way;
    let answer = follow(rt, course);
    if is_going_on(way) {
        tighten(rt);
        go_on(rt)
    } else {
        answer
    }
}

// What the call in hand does after its opening tick.
fn go_on(rt: &mut Runtime) -> Answer
    requires { Good rt.old }
    ensures { MovesIn rt.new result (proceed (after_tick (asked_in rt.old) (book_on rt.old))) }
{
    let kind = rt.pending.kind;
    let flags = rt.pending.flags;
    let time = rt.pending.now;
    let owner = rt.pending.owner;
    let lease_id = rt.pending.lease_id;
    match kind {
        CallKind::Tick => {
            rt.waiting = awaiting(Awaited::Nothing);
            Answer::Returned
        }
        CallKind::UpdateState => sense_on(rt, flags, time),
        CallKind::RecoverLocal => recover_on(rt, time),
        CallKind::Acquire => acquire_on(rt, time),
        CallKind::Renew => renew_on(rt),
        CallKind::Cancel => cancel_on(rt, owner, lease_id, time),
        CallKind::Submit => submit_on(rt),
    }
}

// The call in hand with its opening tick. Kept out of its callers: put into `submit`, it keeps that one from being put into a host's loop,
// and a rejected order takes 1.4 times as long, since its words are stored and copied at once (docs/DESIGN-PASS.md).
#[inline(never)]
fn run(rt: &mut Runtime, time: u64) -> Answer
    requires { Good rt.old }
    ensures { MovesIn rt.new result (proceed (tick_rule time (book_on rt.old) (after_tick (asked_at time rt.old)))) }
{
    rt.pending.now = time;
    let begun = begin(rt, time);
    match begun {
        Begun::Quiet => go_on(rt),
        Begun::Busy => supervise(rt, time),
    }
}

// flags ------------------------------------------------------------------------------------------------------------------

// New flags.
fn sense(rt: &mut Runtime, flags: u32, time: u64) -> Answer
    requires { Good rt.old }
    ensures { MovesIn rt.new result (proceed (sense_rule flags time (book_on rt.old))) }
{
    let fixed = rt.fixed;
    let numbers = rt.numbers;
    let falling = rt.falling;
    let axis = look_forbidden(rt, 0, flags);
    let course = sensed(fixed, numbers, falling, axis, flags, time);
    follow(rt, course)
}

// Where the flags are as they were, the stamp alone is stored.
fn sense_on(rt: &mut Runtime, flags: u32, time: u64) -> Answer
    requires { Good rt.old }
    ensures { MovesIn rt.new result (proceed (sense_rule flags time (book_on rt.old))) }
{
    let numbers = rt.numbers;
    if is_same(numbers, flags, time) {
        rt.numbers.state_at = time;
        rt.waiting = awaiting(Awaited::Nothing);
        Answer::Returned
    } else {
        sense(rt, flags, time)
    }
}

fn stop(rt: &mut Runtime, time: u64) -> Answer
    requires { Good rt.old }
    ensures { MovesIn rt.new result (proceed (emergency_stop time (book_on rt.old) (λ b. Done b Returned))) }
{
    let fixed = rt.fixed;
    let numbers = rt.numbers;
    let course = stopped(fixed, numbers, time, AfterTrip::Return);
    follow(rt, course)
}

// A poll that saw a raise.
fn poll(rt: &mut Runtime, raised: u32, time: u64) -> Answer
    requires { Good rt.old }
    ensures { MovesIn rt.new result (proceed (emergency_stop time (with_estop_seen raised (book_on rt.old)) (λ b. Done b (Polled true)))) }
{
    let fixed = rt.fixed;
    let numbers = rt.numbers;
    let course = polled(fixed, numbers, raised, time);
    follow(rt, course)
}

fn recover_on(rt: &mut Runtime, time: u64) -> Answer
    requires { Good rt.old }
    ensures { MovesIn rt.new result (proceed (recover time (book_on rt.old))) }
{
    let fixed = rt.fixed;
    let numbers = rt.numbers;
    let falling = rt.falling;
    let course = recovered(fixed, numbers, falling, time);
    follow(rt, course)
}

// leases -----------------------------------------------------------------------------------------------------------------

// The axis, or the spare one.
pub fn axis_or_spare(axis: u8) -> usize
    ensures { (result ≡ spare_or axis) × (result < 9) }
{
    if axis < 8 { axis as usize } else { 8 }
}

// A lease and its receipt.
fn grant(rt: &mut Runtime, time: u64) -> Answer
    requires { Good rt.old × (first_failing (acquire_checks rt.old.request time (book_on rt.old)) ≡ None) }
    ensures { MovesIn rt.new result (proceed (grant_rule None rt.old.request time (book_on rt.old))) }
{
    let request = rt.request;
    let fixed = rt.fixed;
    let numbers = rt.numbers;
    let change = granted(fixed, numbers, request, time);
    rt.numbers.next_lease = change.next_lease;
    rt.numbers.held = change.held;
    rt.numbers.soonest = change.soonest;
    rt.numbers.epoch = change.epoch;
    rt.numbers.mode = change.mode;
    rt.axis = request.resource;
    rt.leases[request.resource as usize] = change.lease;
    let slot = place(rt, false, AfterRecord::Lease);
    rt.slots[slot] = change.receipt;
    Answer::Item
}

fn acquire_on(rt: &mut Runtime, time: u64) -> Answer
    requires { Good rt.old }
    ensures { MovesIn rt.new result (proceed (grant_rule (first_failing (acquire_checks rt.old.request time (book_on rt.old))) rt.old.request time (book_on rt.old))) }
{
    let request = rt.request;
    let fixed = rt.fixed;
    let numbers = rt.numbers;
    let allowed = look_allowed(rt, request.resource);
    let axis = axis_or_spare(request.resource);
    let slot = rt.leases[axis];
    let ruling = acquire_check(fixed, numbers, allowed, slot, request, time);
    let verdict = ruling.verdict;
    match verdict {
        Verdict::Passed => grant(rt, time),
        Verdict::Failed => refuse(rt, ruling.reason),
    }
}

// A lease's new end, and its receipt.
fn lengthen(rt: &mut Runtime, axis: u8) -> Answer
    requires { Good rt.old × ((axis ≡ first_held rt.old.renewal.owner rt.old.renewal.lease_id (tables_in rt.old).leases) × (first_failing (renew_checks rt.old.renewal (book_on rt.old)) ≡ None)) }
    ensures { MovesIn rt.new result (proceed (renewed_rule None rt.old.renewal (book_on rt.old))) }
{
    let renewal = rt.renewal;
    let fixed = rt.fixed;
    let numbers = rt.numbers;
    let held = rt.leases[axis as usize];
    let change = renewed(fixed, numbers, axis, held, renewal);
    rt.numbers.soonest = change.soonest;
    rt.axis = axis;
    rt.leases[axis as usize].lease.expires_at = change.expires_at;
    rt.leases[axis as usize].lease.last_renewal = renewal.renewal;
    let slot = place(rt, false, AfterRecord::Lease);
    rt.slots[slot] = change.receipt;
    Answer::Item
}

fn renew_on(rt: &mut Runtime) -> Answer
    requires { Good rt.old }
    ensures { MovesIn rt.new result (proceed (renewed_rule (first_failing (renew_checks rt.old.renewal (book_on rt.old))) rt.old.renewal (book_on rt.old))) }
{
    let renewal = rt.renewal;
    let fixed = rt.fixed;
    let numbers = rt.numbers;
    let axis = look_held(rt, renewal.owner, renewal.lease_id);
    let slot = rt.leases[axis as usize];
    let ruling = renew_check(fixed, numbers, axis, slot, renewal);
    let verdict = ruling.verdict;
    match verdict {
        Verdict::Passed => lengthen(rt, axis),
        Verdict::Failed => refuse(rt, ruling.reason),
    }
}

fn cancel_on(rt: &mut Runtime, owner: u64, lease_id: u64, time: u64) -> Answer
    requires { Good rt.old }
    ensures { MovesIn rt.new result (proceed (canceled_rule (held_axis owner lease_id (book_on rt.old)) time (book_on rt.old))) }
{
    let numbers = rt.numbers;
    let falling = rt.falling;
    let axis = look_held(rt, owner, lease_id);
    let course = canceled(numbers, falling, axis, time);
    follow(rt, course)
}

// orders -----------------------------------------------------------------------------------------------------------------

pub fn entered(entry: Replay) -> ReplaySlot
    ensures { result ≡ held entry }
{
    ReplaySlot {
        presence: Presence::Present,
        replay: entry,
    }
}

pub fn next_place(cursor: usize) -> usize
    requires { cursor < 32 }
    ensures { result ≡ (cursor + 1) % 32 }
{
    (cursor + 1) % 32
}

// An order admitted: its sequence and its number are consumed.
fn admit(rt: &mut Runtime, at: usize) -> Answer
    requires { Good rt.old × (FoundIn rt.old.submission.action.capability at rt.old × (first_failing (admission rt.old.submission (book_on rt.old)) ≡ None)) }
    ensures { MovesIn rt.new result (proceed (admit_rule (validate rt.old.submission (book_on rt.old)) rt.old.submission (book_on rt.old))) }
{
    let submission = rt.submission;
    let numbers = rt.numbers;
    let cursor = rt.cursor;
    let axis = axis_or_spare(rt.capabilities[at].resource);
    let slot = rt.leases[axis];
    let change = admitted(numbers, slot, submission);
    rt.waiting = awaiting(Awaited::ObserveBefore);
    rt.carrying.at = at;
    rt.carrying.end = change.end;
    rt.cursor = next_place(cursor);
    rt.leases[axis].lease.last_sequence = submission.action.sequence;
    rt.replay[cursor] = entered(change.entry);
    Answer::Item
}

// The receipt of an order rejected.
fn reject(rt: &mut Runtime, resource: u8, reason: Reason, original: u64) -> Answer
    requires { Good rt.old × ((axis_or255 (order_capability rt.old.submission (book_on rt.old)) ≡ resource) × (original_rule reason rt.old.submission (book_on rt.old) ≡ original)) }
    ensures { MovesIn rt.new result (proceed (reject_rule reason rt.old.submission (book_on rt.old))) }
{
    let submission = rt.submission;
    let fixed = rt.fixed;
    let numbers = rt.numbers;
    let change = rejected(fixed, numbers, resource, reason, original, submission);
    rt.numbers.invalid_count = change.invalid_count;
    let slot = place(rt, true, AfterRecord::Rejected);
    rt.slots[slot] = change.receipt;
    Answer::Item
}

fn submit_on(rt: &mut Runtime) -> Answer
    requires { Good rt.old }
    ensures { MovesIn rt.new result (proceed (admit_rule (validate rt.old.submission (book_on rt.old)) rt.old.submission (book_on rt.old))) }
{
    let submission = rt.submission;
    let fixed = rt.fixed;
    let numbers = rt.numbers;
    let at = look_place(rt, submission.action.capability);
    let capability = rt.capabilities[at];
    let axis = axis_or_spare(capability.resource);
    let slot = rt.leases[axis];
    let known = at < 16;
    let early = early_check(fixed, numbers, known, slot, submission);
    let wanted = is_passed(early);
    let hit = look_hit(
        rt,
        wanted,
        submission.principal,
        submission.action.action_id,
    );
    let ruling = order_check(early, numbers, capability, slot, hit.found, submission);
    let verdict = ruling.verdict;
    let resource = resource_of(known, capability);
    match verdict {
        Verdict::Passed => admit(rt, at),
        Verdict::Failed => reject(rt, resource, ruling.reason, hit.receipt),
    }
}

// replies ----------------------------------------------------------------------------------------------------------------

// The receipt of an order that failed.
fn fail(rt: &mut Runtime, reason: Reason, progress: Progress) -> Answer
    requires { Good rt.old }
    ensures { MovesIn rt.new result (proceed (fail_rule (order_in rt.old).capability reason (progress_of progress) rt.old.submission (book_on rt.old))) }
{
    let fixed = rt.fixed;
    let numbers = rt.numbers;
    let at = rt.carrying.at;
    let capability = rt.capabilities[at];
    let submission = rt.submission;
    let receipt = failed(fixed, numbers, capability, submission, reason, progress);
    let slot = place(rt, false, AfterRecord::Failed);
    rt.slots[slot] = receipt;
    Answer::Item
}

// What an executed order leaves, and its receipt.
fn complete(rt: &mut Runtime, seen: Observation) -> Answer
    requires { Good rt.old × (rt.old.waiting.awaited ≡ ObserveAfter) }
    ensures { MovesIn rt.new result (proceed (complete_rule (order_in rt.old).capability rt.old.carrying.end (seen_by rt.old.carrying.pre_state rt.old.submission.now (Some seen)) rt.old.submission (book_on rt.old))) }
{
    let fixed = rt.fixed;
    let numbers = rt.numbers;
    let carrying = rt.carrying;
    let capability = rt.capabilities[carrying.at];
    let submission = rt.submission;
    let change = completed(fixed, numbers, carrying, capability, submission, seen);
    rt.numbers.invalid_count = 0;
    rt.numbers.soonest = change.soonest;
    rt.active[capability.resource as usize] = change.active;
    let slot = place(rt, false, AfterRecord::Executed);
    rt.slots[slot] = change.receipt;
    Answer::Item
}

// The receipt of a fallback.
fn tell(rt: &mut Runtime, ok: bool) -> Answer
    requires { Good rt.old }
    ensures { MovesIn rt.new result (proceed (after_fell_back rt.old.falling rt.old.revoked (asked_in rt.old) ok (book_on rt.old))) }
{
    let fixed = rt.fixed;
    let numbers = rt.numbers;
    let falling = rt.falling;
    let revoked = rt.revoked;
    let receipt = told(fixed, numbers, falling, revoked, ok);
    rt.revoked.ok = ok;
    let slot = place(rt, false, AfterRecord::Fallback);
    rt.slots[slot] = receipt;
    Answer::Item
}

// The trip after an order's receipt, which is kept to be answered.
fn trip_order(rt: &mut Runtime, reason: Reason) -> Answer
    requires { Good rt.old }
    ensures { MovesIn rt.new result (proceed (trip_rule reason rt.old.submission.now (book_on rt.old) (λ b. Done b (Submitted (hand_in rt.old).receipt)))) }
{
    let fixed = rt.fixed;
    let numbers = rt.numbers;
    let time = rt.submission.now;
    let slot = rt.slot;
    rt.submitted = rt.slots[slot];
    let course = trips(fixed, numbers, reason, time, AfterTrip::Submit, 0);
    follow(rt, course)
}

// What follows the receipt of a fallback.
fn resume(rt: &mut Runtime) -> Answer
    requires { Good rt.old }
    ensures { MovesIn rt.new result (proceed (after_fallback rt.old.falling (tables_in rt.old).capabilities (asked_in rt.old) rt.old.revoked.ok (book_on rt.old))) }
{
    let fixed = rt.fixed;
    let numbers = rt.numbers;
    let falling = rt.falling;
    let ok = rt.revoked.ok;
    let search = search_after(falling);
    let axis = look_sought(rt, search.sought, search.from, falling.time, numbers.flags);
    let lease = rt.leases[axis as usize];
    let course = resumed(fixed, numbers, falling, axis, lease, ok);
    let way = course.way;
    let answer = follow(rt, course);
    if is_going_on(way) { go_on(rt) } else { answer }
}

// The reply to an observation.
fn observed_on(rt: &mut Runtime, reply: Observed) -> Answer
    requires { Good rt.old }
    ensures { TurnsIn rt.old rt.new result (react (phase_of (state_in rt.old)) (Replies (ObservedReply (observation_in reply)))) }
{
    let waiting = rt.waiting;
    let at = rt.carrying.at;
    let verification = rt.capabilities[at].verification;
    let parameters = rt.submission.action.parameters;
    let pre_state = rt.carrying.pre_state;
    let time = rt.submission.now;
    let step = on_observed(waiting, verification, parameters, reply);
    match step {
        OnObserved::NoReply => Answer::NoReplyAwaited,
        OnObserved::Other => Answer::OtherAwaited,
        OnObserved::Executes => {
            rt.waiting = awaiting(Awaited::Execute);
            rt.carrying.pre_state = reply.observation.state;
            Answer::Item
        }
        OnObserved::Completes => complete(rt, reply.observation),
        OnObserved::Fails => fail(
            rt,
            fail_reason(reply),
            came(waiting, pre_state, time, reply),
        ),
    }
}

// The reply to an execution.
fn executed_on(rt: &mut Runtime, ok: bool) -> Answer
    requires { Good rt.old }
    ensures { TurnsIn rt.old rt.new result (react (phase_of (state_in rt.old)) (Replies (ExecutedReply ok))) }
{
    let waiting = rt.waiting;
    let pre_state = rt.carrying.pre_state;
    let step = on_executed(waiting, ok);
    match step {
        OnExecuted::NoReply => Answer::NoReplyAwaited,
        OnExecuted::Other => Answer::OtherAwaited,
        OnExecuted::Observes => {
            rt.waiting = awaiting(Awaited::ObserveAfter);
            Answer::Item
        }
        OnExecuted::Fails => fail(rt, Reason::Driver, unexecuted(pre_state)),
    }
}

// The reply to a fallback.
fn fell_back_on(rt: &mut Runtime, ok: bool) -> Answer
    requires { Good rt.old }
    ensures { TurnsIn rt.old rt.new result (react (phase_of (state_in rt.old)) (Replies (FellBackReply ok))) }
{
    let waiting = rt.waiting;
    let step = on_fell_back(waiting);
    match step {
        OnFellBack::NoReply => Answer::NoReplyAwaited,
        OnFellBack::Other => Answer::OtherAwaited,
        OnFellBack::Tells => tell(rt, ok),
    }
}

// The reply to a receipt.
fn recorded_on(rt: &mut Runtime) -> Answer
    requires { Good rt.old }
    ensures { TurnsIn rt.old rt.new result (react (phase_of (state_in rt.old)) (Replies RecordedReply)) }
{
    let fixed = rt.fixed;
    let numbers = rt.numbers;
    let waiting = rt.waiting;
    let slot = rt.slot;
    let reason = rt.slots[slot].reason;
    let step = on_recorded(fixed, numbers, waiting);
    match step {
        OnRecorded::NoReply => Answer::NoReplyAwaited,
        OnRecorded::Other => Answer::OtherAwaited,
        OnRecorded::Leased => {
            rt.waiting = awaiting(Awaited::Nothing);
            Answer::Leased
        }
        OnRecorded::Submitted => {
            rt.waiting.awaited = Awaited::Nothing;
            Answer::Submitted
        }
        OnRecorded::Fails => trip_order(rt, reason),
        OnRecorded::Storms => trip_order(rt, Reason::InvalidStorm),
        OnRecorded::Resumes => resume(rt),
    }
}

// start ------------------------------------------------------------------------------------------------------------------

// What a start makes, and what comes out.
#[derive(Clone, Copy)]
pub struct Created {
    pub runtime: Runtime,
    pub answer: Answer,
}

// What stands at the places of a call while there is none.
const NO_BOUNDS: [Bounds; 2] = [Bounds::ZERO; 2];

const NO_REQUEST: LeaseRequest = LeaseRequest {
    owner: 0,
    resource: 0,
    capabilities: 0,
    duration_ms: 0,
    limits: NO_BOUNDS,
};

const NO_RENEWAL: Renewal = Renewal {
    owner: 0,
    lease_id: 0,
    renewal: 0,
    duration_ms: 0,
    now: 0,
};

const NO_SUBMISSION: Submission = Submission {
    action: Action {
        boot_id: 0,
        requester: 0,
        lease_id: 0,
        action_id: 0,
        sequence: 0,
        capability: 0,
        based_on_epoch: 0,
        execute_after: 0,
        deadline: 0,
        valid_for_ms: 0,
        parameters: [0; 2],
    },
    principal: 0,
    received_at: 0,
    now: 0,
};

const NO_PENDING: Pending = Pending {
    kind: CallKind::Tick,
    flags: 0,
    now: 0,
    owner: 0,
    lease_id: 0,
};

const NO_REVOKED: Revoked = Revoked {
    lease_id: 0,
    owner: 0,
    ok: false,
};

const NO_CARRYING: Carrying = Carrying {
    end: 0,
    at: 0,
    pre_state: 0,
};

// The startup fallback on an axis.
pub fn starting_on(axis: u8) -> Falling
    ensures { result ≡ starting_on axis }
{
    Falling {
        time: 0,
        axis: axis,
        at: 0,
        reason: Reason::Startup,
        after: AfterFallback::Trip,
        good: false,
        after_trip: AfterTrip::Return,
    }
}

// No receipt is kept.
fn no_places() -> Places
    ensures { Empties result }
{
    Places {
        index: Index::empty(),
        rejected: [0; 65],
        others: [0; 65],
    }
}

// A runtime without leases, orders and receipts: where every check has passed, its first used axis is tried.
fn made(config: Config, listed: Listed, boot_id: u64, time: u64, flags: u32) -> Created
    ensures { (l : List CapabilityRecord) → Listing listed l → Moves result.runtime result.answer (start_rule (start_on config l boot_id time flags)) }
{
    let checked = refused_start(config, listed, boot_id);
    let fixed = fixed_of(config, listed, boot_id);
    let used = fixed.used;
    let trial = first_trial(checked, used);
    let starting = trial.starting;
    let waiting = trial.waiting;
    let answer = trial.answer;
    let records = listed.records;
    let lease = LeaseSlot::blank();
    let active = ActiveSlot::blank();
    let entry = ReplaySlot::blank();
    let receipt = Receipt::blank();
    let runtime = Runtime {
        waiting: waiting,
        numbers: numbers_of(config, time, flags),
        cursor: 0,
        slot: 64,
        axis: 0,
        why: Why { reason: Reason::Ok },
        falling: starting_on(trial.axis),
        revoked: NO_REVOKED,
        carrying: NO_CARRYING,
        pending: NO_PENDING,
        starting: starting,
        fixed: fixed,
        places: no_places(),
        leases: [lease; 9],
        active: [active; 9],
        capabilities: records,
        replay: [entry; 33],
        submission: NO_SUBMISSION,
        request: NO_REQUEST,
        renewal: NO_RENEWAL,
        submitted: receipt,
        slots: [receipt; 65],
    };
    Created {
        runtime: runtime,
        answer: answer,
    }
}

// The records are copied one by one; the first 17 tell as much as all of them.
pub fn new(config: Config, list: &[Capability], boot_id: u64, time: u64, flags: u32) -> Created
    ensures { Moves result.runtime result.answer (start_rule (start_on config list.now boot_id time flags)) }
{
    let count = Listed::enough(list.len());
    let mut listed = Listed::empty();
    let mut i: usize = 0;
    while i < count {
        listed = listed.with(list[i]);
        i = i + 1;
    }
    made(config, listed, boot_id, time, flags)
}

// The startup fallback on the first used axis from one on; past the last of them the start is over.
fn try_from(rt: &mut Runtime, from: u8, good: bool) -> Answer
    requires { Opened rt.old × (from ≤ 8) }
    ensures { Moves rt.new result (start_from (start_in rt.old) (used_from (tables_in rt.old).capabilities from) good) }
{
    let fixed = rt.fixed;
    let axis = first_used(fixed.used, from);
    let trial = tried(axis, good);
    rt.starting = trial.starting;
    rt.waiting = trial.waiting;
    rt.falling.axis = trial.axis;
    trial.answer
}

// The reply to a startup fallback: the next used axis, even after a failure.
fn try_next(rt: &mut Runtime, ok: bool) -> Answer
    requires { Tries rt.old }
    ensures { Moves rt.new result (react (trying_in rt.old) (Replies (FellBackReply ok))) }
{
    let axis = rt.falling.axis;
    let starting = rt.starting;
    let good = still_good(starting.good, ok);
    try_from(rt, axis + 1, good)
}

// calls ------------------------------------------------------------------------------------------------------------------

pub fn asking(kind: CallKind, flags: u32, time: u64, owner: u64, lease_id: u64) -> Pending
    ensures { result ≡ record { kind = kind; flags = flags; now = time; owner = owner; lease_id = lease_id } }
{
    Pending {
        kind: kind,
        flags: flags,
        now: time,
        owner: owner,
        lease_id: lease_id,
    }
}

// A tick in its own right: where it is quiet, two numbers are stored and no more.
fn tick_on(rt: &mut Runtime, time: u64) -> Answer
    requires { Good rt.old × (rt.old.waiting.awaited ≡ Nothing) }
    ensures { MovesIn rt.new result (proceed (begin_rule (Tick time) (book_on rt.old))) }
{
    let begun = begin(rt, time);
    match begun {
        Begun::Quiet => Answer::Returned,
        Begun::Busy => {
            rt.pending = asking(CallKind::Tick, 0, time, 0, 0);
            supervise(rt, time)
        }
    }
}

pub fn tick(rt: &mut Runtime, time: u64) -> Answer
    requires { RuntimeSound rt.old }
    ensures { Turns rt.old rt.new result (react (phase_in rt.old) (Calls (Tick time))) }
{
    let starting = rt.starting;
    let waiting = rt.waiting;
    if may_begin(starting, waiting) {
        tick_on(rt, time)
    } else {
        turned_away(starting)
    }
}

pub fn update_state(rt: &mut Runtime, flags: u32, time: u64) -> Answer
    requires { RuntimeSound rt.old }
    ensures { Turns rt.old rt.new result (react (phase_in rt.old) (Calls (UpdateState flags time))) }
{
    let starting = rt.starting;
    let waiting = rt.waiting;
    if may_begin(starting, waiting) {
        rt.pending = asking(CallKind::UpdateState, flags, time, 0, 0);
        run(rt, time)
    } else {
        turned_away(starting)
    }
}

pub fn emergency_stop(rt: &mut Runtime, time: u64) -> Answer
    requires { RuntimeSound rt.old }
    ensures { Turns rt.old rt.new result (react (phase_in rt.old) (Calls (EmergencyStop time))) }
{
    let starting = rt.starting;
    let waiting = rt.waiting;
    if may_begin(starting, waiting) {
        stop(rt, time)
    } else {
        turned_away(starting)
    }
}

// A poll of an idle runtime: the raise number last seen alters nothing.
fn poll_on(rt: &mut Runtime, raised: u32, time: u64) -> Answer
    requires { Good rt.old × (rt.old.waiting.awaited ≡ Nothing) }
    ensures { MovesIn rt.new result (proceed (begin_rule (PollEstop raised time) (book_on rt.old))) }
{
    let seen = rt.numbers.estop_seen;
    if is_seen(seen, raised) {
        Answer::Unraised
    } else {
        poll(rt, raised, time)
    }
}

pub fn poll_estop(rt: &mut Runtime, raised: u32, time: u64) -> Answer
    requires { RuntimeSound rt.old }
    ensures { Turns rt.old rt.new result (react (phase_in rt.old) (Calls (PollEstop raised time))) }
{
    let starting = rt.starting;
    let waiting = rt.waiting;
    if may_begin(starting, waiting) {
        poll_on(rt, raised, time)
    } else {
        turned_away(starting)
    }
}

pub fn recover_local(rt: &mut Runtime, time: u64) -> Answer
    requires { RuntimeSound rt.old }
    ensures { Turns rt.old rt.new result (react (phase_in rt.old) (Calls (RecoverLocal time))) }
{
    let starting = rt.starting;
    let waiting = rt.waiting;
    if may_begin(starting, waiting) {
        rt.pending = asking(CallKind::RecoverLocal, 0, time, 0, 0);
        run(rt, time)
    } else {
        turned_away(starting)
    }
}

pub fn acquire(rt: &mut Runtime, request: LeaseRequest, time: u64) -> Answer
    requires { RuntimeSound rt.old }
    ensures { Turns rt.old rt.new result (react (phase_in rt.old) (Calls (Acquire request time))) }
{
    let starting = rt.starting;
    let waiting = rt.waiting;
    if may_begin(starting, waiting) {
        rt.request = request;
        rt.pending = asking(CallKind::Acquire, 0, time, 0, 0);
        run(rt, time)
    } else {
        turned_away(starting)
    }
}

pub fn renew(rt: &mut Runtime, renewal: Renewal) -> Answer
    requires { RuntimeSound rt.old }
    ensures { Turns rt.old rt.new result (react (phase_in rt.old) (Calls (Renew renewal))) }
{
    let starting = rt.starting;
    let waiting = rt.waiting;
    let time = renewal.now;
    if may_begin(starting, waiting) {
        rt.renewal = renewal;
        rt.pending = asking(CallKind::Renew, 0, time, 0, 0);
        run(rt, time)
    } else {
        turned_away(starting)
    }
}

// A cancel in its own right: by trial faster than through `run`.
fn begin_cancel(rt: &mut Runtime, owner: u64, lease: u64, time: u64) -> Answer
    requires { Good rt.old }
    ensures { MovesIn rt.new result (proceed (begin_rule (Cancel owner lease time) (book_on rt.old))) }
{
    let begun = begin(rt, time);
    match begun {
        Begun::Quiet => cancel_on(rt, owner, lease, time),
        Begun::Busy => {
            rt.pending = asking(CallKind::Cancel, 0, time, owner, lease);
            supervise(rt, time)
        }
    }
}

pub fn cancel(rt: &mut Runtime, owner: u64, lease: u64, time: u64) -> Answer
    requires { RuntimeSound rt.old }
    ensures { Turns rt.old rt.new result (react (phase_in rt.old) (Calls (Cancel owner lease time))) }
{
    let starting = rt.starting;
    let waiting = rt.waiting;
    if may_begin(starting, waiting) {
        begin_cancel(rt, owner, lease, time)
    } else {
        turned_away(starting)
    }
}

pub fn submit(rt: &mut Runtime, submission: Submission) -> Answer
    requires { RuntimeSound rt.old }
    ensures { Turns rt.old rt.new result (react (phase_in rt.old) (Calls (Submit submission))) }
{
    let starting = rt.starting;
    let waiting = rt.waiting;
    let time = submission.now;
    if may_begin(starting, waiting) {
        rt.submission = submission;
        rt.pending = asking(CallKind::Submit, 0, time, 0, 0);
        run(rt, time)
    } else {
        turned_away(starting)
    }
}

// replies of the driver --------------------------------------------------------------------------------------------------

pub fn observed(rt: &mut Runtime, reply: Observed) -> Answer
    requires { RuntimeSound rt.old }
    ensures { Turns rt.old rt.new result (react (phase_in rt.old) (Replies (ObservedReply (observation_in reply)))) }
{
    let starting = rt.starting;
    if is_started(starting) {
        observed_on(rt, reply)
    } else {
        unheard(starting)
    }
}

pub fn executed(rt: &mut Runtime, ok: bool) -> Answer
    requires { RuntimeSound rt.old }
    ensures { Turns rt.old rt.new result (react (phase_in rt.old) (Replies (ExecutedReply ok))) }
{
    let starting = rt.starting;
    if is_started(starting) {
        executed_on(rt, ok)
    } else {
        unheard(starting)
    }
}

// Of a startup fallback too: the last one's ends the start.
pub fn fell_back(rt: &mut Runtime, ok: bool) -> Answer
    requires { RuntimeSound rt.old }
    ensures { Turns rt.old rt.new result (react (phase_in rt.old) (Replies (FellBackReply ok))) }
{
    let starting = rt.starting;
    let stage = starting.stage;
    match stage {
        Stage::Trying => try_next(rt, ok),
        Stage::Gone => Answer::NoReplyAwaited,
        Stage::Started => fell_back_on(rt, ok),
    }
}

pub fn recorded(rt: &mut Runtime) -> Answer
    requires { RuntimeSound rt.old }
    ensures { Turns rt.old rt.new result (react (phase_in rt.old) (Replies RecordedReply)) }
{
    let starting = rt.starting;
    if is_started(starting) {
        recorded_on(rt)
    } else {
        unheard(starting)
    }
}

// what a host sees -------------------------------------------------------------------------------------------------------

// The item whose reply is awaited, or none.
pub fn item(rt: &Runtime) -> ItemShown
    requires { RuntimeSound rt.now }
    ensures { result ≡ shown_item (awaited_in (phase_in rt.now)) }
{
    let waiting = rt.waiting;
    let falling = rt.falling;
    let at = rt.carrying.at;
    let slot = rt.slot;
    let capability = rt.capabilities[at];
    let parameters = rt.submission.action.parameters;
    let receipt = rt.slots[slot];
    item_of(waiting, falling, capability, parameters, receipt)
}

// What `Leased`, `Submitted` and `Refused` speak of, right after that answer.
pub fn answered_lease(rt: &Runtime) -> Lease
    requires { RuntimeSound rt.now }
    ensures { output_of Answered.Leased (state_in rt.now) ≡ Answers (Leased result) }
{
    let axis = rt.axis;
    let at = axis_or_spare(axis);
    let slot = rt.leases[at];
    lease_in(slot)
}

pub fn answered_receipt(rt: &Runtime) -> Receipt
    requires { RuntimeSound rt.now }
    ensures { output_of Answered.Submitted (state_in rt.now) ≡ Answers (Submitted result) }
{
    let waiting = rt.waiting;
    let slot = rt.slot;
    let receipt = rt.slots[slot];
    let kept = rt.submitted;
    submitted_of(waiting, receipt, kept)
}

pub fn refusal(rt: &Runtime) -> Reason
    ensures { output_of Answered.Refused (state_in rt.now) ≡ Answers (Refused result) }
{
    let why = rt.why;
    why.reason
}

// readings ---------------------------------------------------------------------------------------------------------------

pub fn state(rt: &Runtime) -> StateShown
    ensures { StateReads rt.now result }
{
    let starting = rt.starting;
    let mode = rt.numbers.mode;
    state_shown(starting, mode)
}

pub fn epoch(rt: &Runtime) -> NumberShown
    ensures { NumberReads ReadEpoch rt.now result }
{
    let starting = rt.starting;
    let epoch = rt.numbers.epoch;
    number_shown(starting, epoch)
}

pub fn boot_id(rt: &Runtime) -> NumberShown
    ensures { NumberReads ReadBootId rt.now result }
{
    let starting = rt.starting;
    let boot_id = rt.fixed.boot_id;
    number_shown(starting, boot_id)
}

pub fn flags(rt: &Runtime) -> NumberShown
    ensures { NumberReads ReadFlags rt.now result }
{
    let starting = rt.starting;
    let flags = rt.numbers.flags;
    number_shown(starting, flags as u64)
}

pub fn lease(rt: &Runtime, axis: u8) -> LeaseShown
    requires { RuntimeSound rt.now }
    ensures { LeaseReads axis rt.now result }
{
    let starting = rt.starting;
    let at = axis_or_spare(axis);
    let slot = rt.leases[at];
    lease_shown(starting, slot)
}

pub fn capability(rt: &Runtime, index: usize) -> CapabilityShown
    requires { RuntimeSound rt.now }
    ensures { CapabilityReads index rt.now result }
{
    let starting = rt.starting;
    let count = rt.fixed.count;
    let at = place_or_spare(index, count);
    let capability = rt.capabilities[at];
    capability_shown(starting, at, capability)
}

pub fn receipt_count(rt: &Runtime) -> NumberShown
    requires { RuntimeSound rt.now }
    ensures { NumberReads ReadReceiptCount rt.now result }
{
    let starting = rt.starting;
    let index = rt.places.index;
    let count = retained(index);
    number_shown(starting, count as u64)
}

pub fn config(rt: &Runtime) -> ConfigShown
    ensures { ConfigReads rt.now result }
{
    let starting = rt.starting;
    let config = rt.fixed.config;
    config_shown(starting, config)
}

pub fn snapshot(rt: &Runtime) -> SnapshotShown
    requires { RuntimeSound rt.now }
    ensures { SnapshotReads rt.now result }
{
    let starting = rt.starting;
    let fixed = rt.fixed;
    let numbers = rt.numbers;
    let index = rt.places.index;
    let count = retained(index);
    snapshot_shown(starting, fixed, numbers, count)
}

pub fn receipt(rt: &Runtime, index: usize) -> ReceiptShown
    requires { RuntimeSound rt.now }
    ensures { ReceiptReads index rt.now result }
{
    let starting = rt.starting;
    let order = rt.places.index;
    let noted = noted_at(order, index);
    let rejected = rt.places.rejected[noted.rejected];
    let other = rt.places.others[noted.others];
    let slot = slot_of(noted, rejected, other);
    let receipt = rt.slots[slot];
    receipt_shown(starting, slot, receipt)
}
