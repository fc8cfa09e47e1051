// The rows of words that the parts of the state are stored as (specs/Codes, specs/Rows). Promises: a row is read as its definition says, whatever
// its words; the words of a part are those from which it is read again. Rests on `format` for the words of the records.
#![tactic(auto)]

ghost use Rattle.std.specs.Prelude.{◌<◌, ◌≡◌, pos, get_or};
ghost use Rattle.format.specs.Decode.{capability_of, request_of, renewal_of, submission_of};
ghost use Rattle.state.specs.State.{InBounds};
ghost use Rattle.rows.specs.Codes.{below, paired, low_of, high_of, signs_of, signs_word, presence_of, presence_word, decision_of, reason_of, mode_of, awaited_of, awaited_word, after_record_of, after_record_word, after_fallback_of, after_fallback_word, after_trip_of, after_trip_word, call_kind_of, call_kind_word, stage_of, stage_word};
ghost use Rattle.rows.specs.Rows.{waiting_of, waiting_words, falling_of, falling_words, revoked_of, revoked_words, carrying_of, carrying_words, pending_of, pending_words, starting_of, starting_words, numbers_of, numbers_words, fixed_of, fixed_words, lease_slot_of, lease_slot_words, capability_row, active_slot_of, active_slot_words, replay_slot_of, replay_slot_words, receipt_of, receipt_row, request_row, renewal_row, submission_row, index_of, index_words, Headed, Rowed};

use decide_start::{Stage, Starting};
use format::{
    as_bool, as_u8, as_u16, as_u32, bit, bounds_of, capability_of, class_number, decision_number,
    reason_number, state_number, verification_words,
};
use model::{
    Active, ActiveSlot, Capability, Config, Decision, Lease, LeaseRequest, LeaseSlot, Presence,
    Reason, Receipt, Renewal, Replay, ReplaySlot, RuntimeState, Submission,
};
use receipts::{Circle, Index};
use state::{
    AfterFallback, AfterRecord, AfterTrip, Awaited, CallKind, Carrying, Falling, Fixed, Mode,
    Numbers, Pending, Revoked, Waiting,
};
use words::{signed, unsigned};

// cases ------------------------------------------------------------------------------------------------------------------

pub fn presence_of(word: u64) -> Presence
    ensures { result ≡ presence_of word }
{
    match word {
        1 => Presence::Present,
        _ => Presence::Absent,
    }
}

fn presence_word(presence: Presence) -> u64
    ensures { result ≡ presence_word presence }
{
    match presence {
        Presence::Absent => 0,
        Presence::Present => 1,
    }
}

pub fn awaited_of(word: u64) -> Awaited
    ensures { result ≡ awaited_of word }
{
    match word {
        1 => Awaited::ObserveBefore,
        2 => Awaited::Execute,
        3 => Awaited::ObserveAfter,
        4 => Awaited::Fallback,
        5 => Awaited::Record,
        _ => Awaited::Nothing,
    }
}

fn awaited_word(awaited: Awaited) -> u64
    ensures { result ≡ awaited_word awaited }
{
    match awaited {
        Awaited::Nothing => 0,
        Awaited::ObserveBefore => 1,
        Awaited::Execute => 2,
        Awaited::ObserveAfter => 3,
        Awaited::Fallback => 4,
        Awaited::Record => 5,
    }
}

pub fn after_record_of(word: u64) -> AfterRecord
    ensures { result ≡ after_record_of word }
{
    match word {
        1 => AfterRecord::Lease,
        2 => AfterRecord::Executed,
        3 => AfterRecord::Failed,
        4 => AfterRecord::Rejected,
        _ => AfterRecord::Fallback,
    }
}

fn after_record_word(after_record: AfterRecord) -> u64
    ensures { result ≡ after_record_word after_record }
{
    match after_record {
        AfterRecord::Fallback => 0,
        AfterRecord::Lease => 1,
        AfterRecord::Executed => 2,
        AfterRecord::Failed => 3,
        AfterRecord::Rejected => 4,
    }
}

pub fn after_fallback_of(word: u64) -> AfterFallback
    ensures { result ≡ after_fallback_of word }
{
    match word {
        1 => AfterFallback::Expiry,
        2 => AfterFallback::Precondition,
        3 => AfterFallback::Recovery,
        4 => AfterFallback::Cancel,
        _ => AfterFallback::Trip,
    }
}

fn after_fallback_word(after_fallback: AfterFallback) -> u64
    ensures { result ≡ after_fallback_word after_fallback }
{
    match after_fallback {
        AfterFallback::Trip => 0,
        AfterFallback::Expiry => 1,
        AfterFallback::Precondition => 2,
        AfterFallback::Recovery => 3,
        AfterFallback::Cancel => 4,
    }
}

pub fn after_trip_of(word: u64) -> AfterTrip
    ensures { result ≡ after_trip_of word }
{
    match word {
        1 => AfterTrip::Watchdog,
        2 => AfterTrip::Stale,
        3 => AfterTrip::Expiry,
        4 => AfterTrip::Precondition,
        5 => AfterTrip::Return,
        6 => AfterTrip::Poll,
        7 => AfterTrip::Cancel,
        8 => AfterTrip::Submit,
        _ => AfterTrip::Tick,
    }
}

fn after_trip_word(after_trip: AfterTrip) -> u64
    ensures { result ≡ after_trip_word after_trip }
{
    match after_trip {
        AfterTrip::Tick => 0,
        AfterTrip::Watchdog => 1,
        AfterTrip::Stale => 2,
        AfterTrip::Expiry => 3,
        AfterTrip::Precondition => 4,
        AfterTrip::Return => 5,
        AfterTrip::Poll => 6,
        AfterTrip::Cancel => 7,
        AfterTrip::Submit => 8,
    }
}

pub fn call_kind_of(word: u64) -> CallKind
    ensures { result ≡ call_kind_of word }
{
    match word {
        1 => CallKind::UpdateState,
        2 => CallKind::RecoverLocal,
        3 => CallKind::Acquire,
        4 => CallKind::Renew,
        5 => CallKind::Cancel,
        6 => CallKind::Submit,
        _ => CallKind::Tick,
    }
}

fn call_kind_word(call_kind: CallKind) -> u64
    ensures { result ≡ call_kind_word call_kind }
{
    match call_kind {
        CallKind::Tick => 0,
        CallKind::UpdateState => 1,
        CallKind::RecoverLocal => 2,
        CallKind::Acquire => 3,
        CallKind::Renew => 4,
        CallKind::Cancel => 5,
        CallKind::Submit => 6,
    }
}

pub fn stage_of(word: u64) -> Stage
    ensures { result ≡ stage_of word }
{
    match word {
        1 => Stage::Trying,
        2 => Stage::Started,
        _ => Stage::Gone,
    }
}

fn stage_word(stage: Stage) -> u64
    ensures { result ≡ stage_word stage }
{
    match stage {
        Stage::Gone => 0,
        Stage::Trying => 1,
        Stage::Started => 2,
    }
}

pub fn decision_of(word: u64) -> Decision
    ensures { result ≡ decision_of word }
{
    match word {
        1 => Decision::Rejected,
        2 => Decision::Fallback,
        3 => Decision::Control,
        4 => Decision::Failed,
        _ => Decision::Executed,
    }
}

pub fn mode_of(word: u64) -> RuntimeState
    ensures { result ≡ mode_of word }
{
    match word {
        1 => RuntimeState::Armed,
        2 => RuntimeState::Faulted,
        3 => RuntimeState::Estopped,
        _ => RuntimeState::SafeIdle,
    }
}

pub fn reason_of(word: u64) -> Reason
    ensures { result ≡ reason_of word }
{
    match word {
        1 => Reason::Bound,
        2 => Reason::Stale,
        3 => Reason::Authority,
        4 => Reason::Duplicate,
        5 => Reason::Precondition,
        6 => Reason::OldSequence,
        7 => Reason::Epoch,
        8 => Reason::UnknownCapability,
        9 => Reason::TooEarly,
        10 => Reason::Invalid,
        11 => Reason::Estop,
        12 => Reason::Faulted,
        13 => Reason::Watchdog,
        14 => Reason::LeaseExpired,
        15 => Reason::StreamExpired,
        16 => Reason::Driver,
        17 => Reason::Verification,
        18 => Reason::Clock,
        19 => Reason::Busy,
        20 => Reason::Canceled,
        21 => Reason::InvalidStorm,
        22 => Reason::StateStale,
        23 => Reason::BootMismatch,
        24 => Reason::LeaseGranted,
        25 => Reason::LeaseRenewed,
        26 => Reason::Recovered,
        27 => Reason::Startup,
        _ => Reason::Ok,
    }
}

// A place below n.
pub fn held_below(n: u64, word: u64) -> u64
    ensures { result ≡ below n word }
{
    if word < n { word } else { 0 }
}

// Two numbers of 32 bits in one word.
fn pair(low: u32, high: u32) -> u64
    ensures { result ≡ paired low high }
{
    (low as u64) + 4294967296 * (high as u64)
}

fn low(word: u64) -> u32
    ensures { result ≡ low_of word }
{
    as_u32(word)
}

fn high(word: u64) -> u32
    ensures { result ≡ high_of word }
{
    as_u32(word / 4294967296)
}

fn signs_of(word: u64) -> [i32; 2]
    ensures { result ≡ signs_of word }
{
    [signed(low(word)), signed(high(word))]
}

fn signs_word(signs: [i32; 2]) -> u64
    ensures value { result ≡ signs_word (get_or signs 0 (pos 0)) (get_or signs 1 (pos 0)) }
    ensures result_value { signs_of result ≡ signs }
{
    let a = unsigned(signs[0]);
    let b = unsigned(signs[1]);
    pair(as_u32(a), as_u32(b))
}

// where the call in hand stands ------------------------------------------------------------------------------------------

pub fn waiting_of(words: [u64; 16]) -> Waiting
    ensures { result ≡ waiting_of words }
{
    Waiting {
        awaited: awaited_of(words[0]),
        after_record: after_record_of(words[1]),
    }
}

pub fn waiting_words(waiting: Waiting) -> [u64; 2]
    ensures { Rowed waiting_of (waiting_words waiting) waiting result }
{
    let awaited = waiting.awaited;
    let after_record = waiting.after_record;
    [awaited_word(awaited), after_record_word(after_record)]
}

pub fn falling_of(words: [u64; 16]) -> Falling
    ensures { result ≡ falling_of words }
{
    Falling {
        time: words[0],
        axis: held_below(8, words[1]) as u8,
        at: held_below(8, words[2]) as u8,
        reason: reason_of(words[3]),
        after: after_fallback_of(words[4]),
        good: as_bool(words[5]),
        after_trip: after_trip_of(words[6]),
    }
}

pub fn falling_words(falling: Falling) -> [u64; 7]
    ensures { (result ≡ falling_words falling) × (InBounds falling → falling_of (falling_words falling) ≡ falling) }
{
    let reason = falling.reason;
    let after = falling.after;
    let after_trip = falling.after_trip;
    [
        falling.time,
        falling.axis as u64,
        falling.at as u64,
        reason_number(reason),
        after_fallback_word(after),
        bit(falling.good),
        after_trip_word(after_trip),
    ]
}

pub fn revoked_of(words: [u64; 16]) -> Revoked
    ensures { result ≡ revoked_of words }
{
    Revoked {
        lease_id: words[0],
        owner: words[1],
        ok: as_bool(words[2]),
    }
}

pub fn revoked_words(revoked: Revoked) -> [u64; 3]
    ensures { Rowed revoked_of (revoked_words revoked) revoked result }
{
    [revoked.lease_id, revoked.owner, bit(revoked.ok)]
}

pub fn carrying_of(words: [u64; 16]) -> Carrying
    ensures { result ≡ carrying_of words }
{
    Carrying {
        end: words[0],
        at: held_below(17, words[1]) as usize,
        pre_state: as_u32(words[2]),
    }
}

pub fn carrying_words(carrying: Carrying) -> [u64; 3]
    requires { carrying.at < 17 }
    ensures { Rowed carrying_of (carrying_words carrying) carrying result }
{
    [carrying.end, carrying.at as u64, carrying.pre_state as u64]
}

pub fn pending_of(words: [u64; 16]) -> Pending
    ensures { result ≡ pending_of words }
{
    Pending {
        kind: call_kind_of(words[0]),
        flags: as_u32(words[1]),
        now: words[2],
        owner: words[3],
        lease_id: words[4],
    }
}

pub fn pending_words(pending: Pending) -> [u64; 5]
    ensures { Rowed pending_of (pending_words pending) pending result }
{
    let kind = pending.kind;
    [
        call_kind_word(kind),
        pending.flags as u64,
        pending.now,
        pending.owner,
        pending.lease_id,
    ]
}

pub fn starting_of(words: [u64; 16]) -> Starting
    ensures { result ≡ starting_of words }
{
    Starting {
        stage: stage_of(words[0]),
        good: as_bool(words[1]),
    }
}

pub fn starting_words(starting: Starting) -> [u64; 2]
    ensures { Rowed starting_of (starting_words starting) starting result }
{
    let stage = starting.stage;
    [stage_word(stage), bit(starting.good)]
}

// the numbers ------------------------------------------------------------------------------------------------------------

pub fn numbers_of(words: [u64; 16]) -> Numbers
    ensures { result ≡ numbers_of words }
{
    let mode = Mode {
        state: mode_of(words[8]),
    };
    Numbers {
        next_receipt: words[0],
        next_lease: words[1],
        epoch: words[2],
        state_at: words[3],
        last_tick: words[4],
        flags: as_u32(words[5]),
        estop_seen: as_u32(words[6]),
        invalid_count: as_u16(words[7]),
        mode: mode,
        held: as_u8(words[9]),
        soonest: words[10],
    }
}

pub fn numbers_words(numbers: Numbers) -> [u64; 11]
    ensures { Rowed numbers_of (numbers_words numbers) numbers result }
{
    let mode = numbers.mode;
    let state = mode.state;
    [
        numbers.next_receipt,
        numbers.next_lease,
        numbers.epoch,
        numbers.state_at,
        numbers.last_tick,
        numbers.flags as u64,
        numbers.estop_seen as u64,
        numbers.invalid_count as u64,
        state_number(state),
        numbers.held as u64,
        numbers.soonest,
    ]
}

pub fn fixed_of(words: [u64; 16]) -> Fixed
    ensures { result ≡ fixed_of words }
{
    let config = Config {
        watchdog_ms: as_u32(words[0]),
        state_ttl_ms: as_u32(words[1]),
        max_lease_ms: as_u32(words[2]),
        max_valid_for_ms: as_u32(words[3]),
        invalid_limit: as_u16(words[4]),
        estop_mask: as_u32(words[5]),
    };
    let used = [
        as_bool(words[8]),
        as_bool(words[9]),
        as_bool(words[10]),
        as_bool(words[11]),
        as_bool(words[12]),
        as_bool(words[13]),
        as_bool(words[14]),
        as_bool(words[15]),
    ];
    Fixed {
        config: config,
        boot_id: words[6],
        count: held_below(17, words[7]) as usize,
        used: used,
    }
}

pub fn fixed_words(fixed: Fixed) -> [u64; 16]
    requires { fixed.count < 17 }
    ensures { Rowed fixed_of (fixed_words fixed) fixed result }
{
    let config = fixed.config;
    let used = fixed.used;
    [
        config.watchdog_ms as u64,
        config.state_ttl_ms as u64,
        config.max_lease_ms as u64,
        config.max_valid_for_ms as u64,
        config.invalid_limit as u64,
        config.estop_mask as u64,
        fixed.boot_id,
        fixed.count as u64,
        bit(used[0]),
        bit(used[1]),
        bit(used[2]),
        bit(used[3]),
        bit(used[4]),
        bit(used[5]),
        bit(used[6]),
        bit(used[7]),
    ]
}

// the tables -------------------------------------------------------------------------------------------------------------

pub fn lease_slot_of(words: [u64; 16]) -> LeaseSlot
    ensures { result ≡ lease_slot_of words }
{
    let first = bounds_of(words[6], words[7]);
    let second = bounds_of(words[8], words[9]);
    LeaseSlot {
        presence: presence_of(words[0]),
        lease: Lease {
            id: words[1],
            owner: words[2],
            resource: as_u8(words[3]),
            capabilities: words[4],
            expires_at: words[5],
            limits: [first, second],
            last_sequence: words[10],
            last_renewal: words[11],
        },
    }
}

pub fn lease_slot_words(slot: LeaseSlot) -> [u64; 12]
    ensures { Rowed lease_slot_of (lease_slot_words slot) slot result }
{
    let presence = slot.presence;
    let lease = slot.lease;
    let limits = lease.limits;
    let first = limits[0];
    let second = limits[1];
    [
        presence_word(presence),
        lease.id,
        lease.owner,
        lease.resource as u64,
        lease.capabilities,
        lease.expires_at,
        unsigned(first.min),
        unsigned(first.max),
        unsigned(second.min),
        unsigned(second.max),
        lease.last_sequence,
        lease.last_renewal,
    ]
}

// A capability's record, after a word that its place leaves free.
pub fn capability_row(first: u64, capability: Capability) -> [u64; 14]
    ensures { Rowed capability_of (capability_row first capability) capability result }
{
    let class = capability.class;
    let bounds = capability.bounds;
    let low = bounds[0];
    let high = bounds[1];
    let [which, mask, value] = verification_words(capability.verification);
    [
        first,
        capability.id as u64,
        capability.resource as u64,
        class_number(class),
        capability.parameter_count as u64,
        unsigned(low.min),
        unsigned(low.max),
        unsigned(high.min),
        unsigned(high.max),
        capability.require_set as u64,
        capability.require_clear as u64,
        which,
        mask,
        value,
    ]
}

pub fn active_slot_of(words: [u64; 16]) -> ActiveSlot
    ensures { result ≡ active_slot_of words }
{
    ActiveSlot {
        presence: presence_of(words[0]),
        active: Active {
            capability: capability_of(words),
            expires_at: words[14],
        },
    }
}

pub fn active_slot_words(slot: ActiveSlot) -> [u64; 15]
    ensures { Rowed active_slot_of (active_slot_words slot) slot result }
{
    let presence = slot.presence;
    let active = slot.active;
    let capability = active.capability;
    let row = capability_row(presence_word(presence), capability);
    [
        row[0],
        row[1],
        row[2],
        row[3],
        row[4],
        row[5],
        row[6],
        row[7],
        row[8],
        row[9],
        row[10],
        row[11],
        row[12],
        row[13],
        active.expires_at,
    ]
}

pub fn replay_slot_of(words: [u64; 16]) -> ReplaySlot
    ensures { result ≡ replay_slot_of words }
{
    ReplaySlot {
        presence: presence_of(words[0]),
        replay: Replay {
            owner: words[1],
            action_id: words[2],
            receipt: words[3],
        },
    }
}

pub fn replay_slot_words(slot: ReplaySlot) -> [u64; 4]
    ensures { Rowed replay_slot_of (replay_slot_words slot) slot result }
{
    let presence = slot.presence;
    let replay = slot.replay;
    [
        presence_word(presence),
        replay.owner,
        replay.action_id,
        replay.receipt,
    ]
}

pub fn receipt_of(words: [u64; 24]) -> Receipt
    ensures { result ≡ receipt_of words }
{
    Receipt {
        boot_id: words[0],
        principal: words[1],
        safety_flags: as_u32(words[2]),
        receipt_id: words[3],
        action_id: words[4],
        sequence: words[5],
        capability: as_u16(words[6]),
        resource: as_u8(words[7]),
        lease_id: words[8],
        decision: decision_of(words[9]),
        reason: reason_of(words[10]),
        epoch: words[11],
        received_at: words[12],
        admitted_at: words[13],
        executed_at: words[14],
        requested: signs_of(words[15]),
        observed: signs_of(words[16]),
        pre_state: low(words[17]),
        post_state: high(words[17]),
        original_receipt: words[18],
        dispatched: as_bool(words[19]),
        observed_valid: as_bool(words[20]),
    }
}

pub fn receipt_row(receipt: Receipt) -> [u64; 21]
    ensures { Rowed receipt_of (receipt_row receipt) receipt result }
{
    let decision = receipt.decision;
    let reason = receipt.reason;
    let requested = receipt.requested;
    let observed = receipt.observed;
    [
        receipt.boot_id,
        receipt.principal,
        receipt.safety_flags as u64,
        receipt.receipt_id,
        receipt.action_id,
        receipt.sequence,
        receipt.capability as u64,
        receipt.resource as u64,
        receipt.lease_id,
        decision_number(decision),
        reason_number(reason),
        receipt.epoch,
        receipt.received_at,
        receipt.admitted_at,
        receipt.executed_at,
        signs_word(requested),
        signs_word(observed),
        pair(receipt.pre_state, receipt.post_state),
        receipt.original_receipt,
        bit(receipt.dispatched),
        bit(receipt.observed_valid),
    ]
}

// the calls in hand ------------------------------------------------------------------------------------------------------

pub fn request_row(request: LeaseRequest) -> [u64; 10]
    ensures { Rowed request_of (request_row request) request result }
{
    let limits = request.limits;
    let first = limits[0];
    let second = limits[1];
    [
        0,
        0,
        request.owner,
        request.resource as u64,
        request.capabilities,
        request.duration_ms as u64,
        unsigned(first.min),
        unsigned(first.max),
        unsigned(second.min),
        unsigned(second.max),
    ]
}

pub fn renewal_row(renewal: Renewal) -> [u64; 6]
    ensures { Rowed renewal_of (renewal_row renewal) renewal result }
{
    [
        0,
        renewal.now,
        renewal.owner,
        renewal.lease_id,
        renewal.renewal,
        renewal.duration_ms as u64,
    ]
}

pub fn submission_row(submission: Submission) -> [u64; 16]
    ensures { Rowed submission_of (submission_row submission) submission result }
{
    let action = submission.action;
    let parameters = action.parameters;
    [
        0,
        submission.now,
        submission.principal,
        submission.received_at,
        action.boot_id,
        action.requester,
        action.lease_id,
        action.action_id,
        action.sequence,
        action.capability as u64,
        action.based_on_epoch,
        action.execute_after,
        action.deadline,
        action.valid_for_ms as u64,
        unsigned(parameters[0]),
        unsigned(parameters[1]),
    ]
}

// the index of the receipts ----------------------------------------------------------------------------------------------

pub fn index_of(words: [u64; 16]) -> Index
    ensures { result ≡ index_of words }
{
    Index {
        rejected: Circle {
            head: (words[0] % 64) as usize,
            count: words[1] as usize,
        },
        others: Circle {
            head: (words[2] % 64) as usize,
            count: words[3] as usize,
        },
        kinds: words[4],
    }
}

pub fn index_words(index: Index) -> [u64; 5]
    requires { Headed index }
    ensures { Rowed index_of (index_words index) index result }
{
    let rejected = index.rejected;
    let others = index.others;
    [
        rejected.head as u64,
        rejected.count as u64,
        others.head as u64,
        others.count as u64,
        index.kinds,
    ]
}
