// What the words of a record stand for (docs/WIRE.md): the kind of an input record and its fields, and the words of an output record.
// Promises: each function gives what the definitions in specs/ say, for every words; a record with a word above what its field can hold is of
// no known kind. Rests on `model` for the records, and on `rules` for what goes in and comes out.
#![tactic(auto)]

ghost use Rattle.std.specs.Prelude.{[], ◌∷◌, ◌≡◌, ◌%◌, eqb};
ghost use Rattle.model.specs.Decisions.{decision_number};
ghost use Rattle.model.specs.Reasons.{number as reason_number};
ghost use Rattle.words.specs.Signs.{signed as signed_of, unsigned as unsigned_of};
ghost use Rattle.format.specs.Kinds.{kind_at, turn_limits, reading_limits, limits_of, within as is_within};
ghost use Rattle.format.specs.Decode.{class_of, verification_of, capability_of, config_of, request_of, renewal_of, submission_of, observation_of, action_of, checked_kind, bounds_of};
ghost use Rattle.format.specs.Encode.{bit as bit_of, class_number, state_number, verification_word, mask_word, value_word, receipt_words, lease_words, capability_words, config_words, snapshot_words, padded, item_words};
ghost use Rattle.rules.specs.Protocol.{ItemObserve, ItemExecute, ItemFallback};

use model::{
    Action, Bounds, Capability, Config, Decision, ExecutionClass, Lease, LeaseRequest, Observation,
    Reason, Receipt, Renewal, RuntimeState, Snapshot, Submission, Verification,
};
use words::{signed, unsigned};

// A call or a reply.
#[derive(Clone, Copy)]
pub enum TurnKind {
    Tick,
    UpdateState,
    EmergencyStop,
    PollEstop,
    RecoverLocal,
    Acquire,
    Renew,
    Cancel,
    Submit,
    Observed,
    Executed,
    FellBack,
    Recorded,
}

#[derive(Clone, Copy)]
pub enum ReadingKind {
    State,
    Epoch,
    BootId,
    Flags,
    ReceiptCount,
    Config,
    Snapshot,
    Lease,
    CapabilityAt,
    ReceiptAt,
}

// The kinds of input records.
#[derive(Clone, Copy)]
pub enum RecordKind {
    Capability,
    Start,
    Turn(TurnKind),
    Reading(ReadingKind),
}

#[tactic(auto, unfolding(crate::specs::Kinds::kind_at, crate::specs::Kinds::lookup, crate::specs::Kinds::kinds))]
fn kind_at(word: u64) -> Option<RecordKind>
    ensures { result ≡ kind_at word }
{
    match word {
        1 => Some(RecordKind::Capability),
        2 => Some(RecordKind::Start),
        16 => Some(RecordKind::Turn(TurnKind::Tick)),
        17 => Some(RecordKind::Turn(TurnKind::UpdateState)),
        18 => Some(RecordKind::Turn(TurnKind::EmergencyStop)),
        19 => Some(RecordKind::Turn(TurnKind::PollEstop)),
        20 => Some(RecordKind::Turn(TurnKind::RecoverLocal)),
        21 => Some(RecordKind::Turn(TurnKind::Acquire)),
        22 => Some(RecordKind::Turn(TurnKind::Renew)),
        23 => Some(RecordKind::Turn(TurnKind::Cancel)),
        24 => Some(RecordKind::Turn(TurnKind::Submit)),
        32 => Some(RecordKind::Turn(TurnKind::Observed)),
        33 => Some(RecordKind::Turn(TurnKind::Executed)),
        34 => Some(RecordKind::Turn(TurnKind::FellBack)),
        35 => Some(RecordKind::Turn(TurnKind::Recorded)),
        48 => Some(RecordKind::Reading(ReadingKind::State)),
        49 => Some(RecordKind::Reading(ReadingKind::Epoch)),
        50 => Some(RecordKind::Reading(ReadingKind::BootId)),
        51 => Some(RecordKind::Reading(ReadingKind::Flags)),
        52 => Some(RecordKind::Reading(ReadingKind::ReceiptCount)),
        53 => Some(RecordKind::Reading(ReadingKind::Config)),
        54 => Some(RecordKind::Reading(ReadingKind::Snapshot)),
        55 => Some(RecordKind::Reading(ReadingKind::Lease)),
        56 => Some(RecordKind::Reading(ReadingKind::CapabilityAt)),
        57 => Some(RecordKind::Reading(ReadingKind::ReceiptAt)),
        _ => None,
    }
}

// The most that each word of a record may be, by its kind.
const U64: u64 = 0xffff_ffff_ffff_ffff;

const U32: u64 = 0xffff_ffff;

const U16: u64 = 0xffff;

const U8: u64 = 0xff;

const BOOL: u64 = 1;

#[tactic(auto, unfolding(crate::specs::Kinds::turn_limits))]
fn turn_limits(kind: TurnKind) -> [u64; 16]
    ensures { result ≡ turn_limits kind }
{
    match kind {
        TurnKind::Tick => [U64, U64, 0, 0, 0, 0, 0, 0, 0, 0, 0, 0, 0, 0, 0, 0],
        TurnKind::UpdateState => [U64, U64, U32, 0, 0, 0, 0, 0, 0, 0, 0, 0, 0, 0, 0, 0],
        TurnKind::EmergencyStop => [U64, U64, 0, 0, 0, 0, 0, 0, 0, 0, 0, 0, 0, 0, 0, 0],
        TurnKind::PollEstop => [U64, U64, U32, 0, 0, 0, 0, 0, 0, 0, 0, 0, 0, 0, 0, 0],
        TurnKind::RecoverLocal => [U64, U64, 0, 0, 0, 0, 0, 0, 0, 0, 0, 0, 0, 0, 0, 0],
        TurnKind::Acquire => [
            U64, U64, U64, U8, U64, U32, U32, U32, U32, U32, 0, 0, 0, 0, 0, 0,
        ],
        TurnKind::Renew => [U64, U64, U64, U64, U64, U32, 0, 0, 0, 0, 0, 0, 0, 0, 0, 0],
        TurnKind::Cancel => [U64, U64, U64, U64, 0, 0, 0, 0, 0, 0, 0, 0, 0, 0, 0, 0],
        TurnKind::Submit => [
            U64, U64, U64, U64, U64, U64, U64, U64, U64, U16, U64, U64, U64, U32, U32, U32,
        ],
        TurnKind::Observed => [U64, BOOL, U32, U32, U32, 0, 0, 0, 0, 0, 0, 0, 0, 0, 0, 0],
        TurnKind::Executed => [U64, BOOL, 0, 0, 0, 0, 0, 0, 0, 0, 0, 0, 0, 0, 0, 0],
        TurnKind::FellBack => [U64, BOOL, 0, 0, 0, 0, 0, 0, 0, 0, 0, 0, 0, 0, 0, 0],
        TurnKind::Recorded => [U64, 0, 0, 0, 0, 0, 0, 0, 0, 0, 0, 0, 0, 0, 0, 0],
    }
}

#[tactic(auto, unfolding(crate::specs::Kinds::reading_limits))]
fn reading_limits(kind: ReadingKind) -> [u64; 16]
    ensures { result ≡ reading_limits kind }
{
    match kind {
        ReadingKind::State => [U64, 0, 0, 0, 0, 0, 0, 0, 0, 0, 0, 0, 0, 0, 0, 0],
        ReadingKind::Epoch => [U64, 0, 0, 0, 0, 0, 0, 0, 0, 0, 0, 0, 0, 0, 0, 0],
        ReadingKind::BootId => [U64, 0, 0, 0, 0, 0, 0, 0, 0, 0, 0, 0, 0, 0, 0, 0],
        ReadingKind::Flags => [U64, 0, 0, 0, 0, 0, 0, 0, 0, 0, 0, 0, 0, 0, 0, 0],
        ReadingKind::ReceiptCount => [U64, 0, 0, 0, 0, 0, 0, 0, 0, 0, 0, 0, 0, 0, 0, 0],
        ReadingKind::Config => [U64, 0, 0, 0, 0, 0, 0, 0, 0, 0, 0, 0, 0, 0, 0, 0],
        ReadingKind::Snapshot => [U64, 0, 0, 0, 0, 0, 0, 0, 0, 0, 0, 0, 0, 0, 0, 0],
        ReadingKind::Lease => [U64, U8, 0, 0, 0, 0, 0, 0, 0, 0, 0, 0, 0, 0, 0, 0],
        ReadingKind::CapabilityAt => [U64, U64, 0, 0, 0, 0, 0, 0, 0, 0, 0, 0, 0, 0, 0, 0],
        ReadingKind::ReceiptAt => [U64, U64, 0, 0, 0, 0, 0, 0, 0, 0, 0, 0, 0, 0, 0, 0],
    }
}

#[tactic(auto, unfolding(crate::specs::Kinds::limits_of))]
fn limits(kind: RecordKind) -> [u64; 16]
    ensures { result ≡ limits_of kind }
{
    match kind {
        RecordKind::Capability => [
            U64, U16, U8, 2, U8, U32, U32, U32, U32, U32, U32, BOOL, U32, U32, 0, 0,
        ],
        RecordKind::Start => [
            U64, U64, U64, U32, U32, U32, U32, U32, U16, U32, 0, 0, 0, 0, 0, 0,
        ],
        RecordKind::Turn(turn) => turn_limits(turn),
        RecordKind::Reading(reading) => reading_limits(reading),
    }
}

fn within(words: [u64; 16], limits: [u64; 16]) -> bool
    ensures { result ≡ is_within words limits }
{
    words
        .iter()
        .zip(limits.iter())
        .all(|(word, limit)| word <= limit)
}

// The kind of a record, unless a word is above what its field can hold.
#[tactic(auto, unfolding(crate::specs::Decode::checked_kind, crate::specs::Decode::checked))]
pub fn kind_of(words: [u64; 16]) -> Option<RecordKind>
    ensures { result ≡ checked_kind words }
{
    let kind = kind_at(words[0])?;
    within(words, limits(kind)).then_some(kind)
}

// Fields ---------------------------------------------------------------------------------------------------------------

// The low bits of a word: a cast may lose none, so they are taken first.
pub fn as_u32(word: u64) -> u32
    ensures { result ≡ word % 4294967296 }
{
    (word % 4294967296) as u32
}

pub fn as_u16(word: u64) -> u16
    ensures { result ≡ word % 65536 }
{
    (word % 65536) as u16
}

pub fn as_u8(word: u64) -> u8
    ensures { result ≡ word % 256 }
{
    (word % 256) as u8
}

pub fn as_bool(word: u64) -> bool
    ensures { result ≡ eqb word 1 }
{
    word == 1
}

fn as_i32(word: u64) -> i32
    ensures { result ≡ signed_of (word % 4294967296) }
{
    signed(as_u32(word))
}

#[tactic(auto, unfolding(crate::specs::Encode::bit))]
pub fn bit(value: bool) -> u64
    ensures { result ≡ bit_of value }
{
    u64::from(value)
}

#[tactic(auto, unfolding(crate::specs::Decode::class_of))]
fn class_of(word: u64) -> ExecutionClass
    ensures { result ≡ class_of word }
{
    match word {
        0 => ExecutionClass::Stream,
        1 => ExecutionClass::Discrete,
        _ => ExecutionClass::Control,
    }
}

#[tactic(auto, unfolding(crate::specs::Decode::verification_of))]
fn verification_of(state: bool, mask: u32, value: u32) -> Verification
    ensures { result ≡ verification_of state mask value }
{
    if state {
        Verification::State { mask, value }
    } else {
        Verification::Parameters
    }
}

#[tactic(auto, unfolding(crate::specs::Decode::bounds_of))]
pub fn bounds_of(min: u64, max: u64) -> Bounds
    ensures { result ≡ bounds_of min max }
{
    Bounds {
        min: as_i32(min),
        max: as_i32(max),
    }
}

// Input records --------------------------------------------------------------------------------------------------------

#[tactic(auto, unfolding(crate::specs::Decode::capability_of))]
pub fn capability_of(words: [u64; 16]) -> Capability
    ensures { result ≡ capability_of words }
{
    let first = bounds_of(words[5], words[6]);
    let second = bounds_of(words[7], words[8]);
    Capability {
        id: as_u16(words[1]),
        resource: as_u8(words[2]),
        class: class_of(words[3]),
        parameter_count: as_u8(words[4]),
        bounds: [first, second],
        require_set: as_u32(words[9]),
        require_clear: as_u32(words[10]),
        verification: verification_of(as_bool(words[11]), as_u32(words[12]), as_u32(words[13])),
    }
}

#[tactic(auto, unfolding(crate::specs::Decode::config_of))]
pub fn config_of(words: [u64; 16]) -> Config
    ensures { result ≡ config_of words }
{
    Config {
        watchdog_ms: as_u32(words[4]),
        state_ttl_ms: as_u32(words[5]),
        max_lease_ms: as_u32(words[6]),
        max_valid_for_ms: as_u32(words[7]),
        invalid_limit: as_u16(words[8]),
        estop_mask: as_u32(words[9]),
    }
}

#[tactic(auto, unfolding(crate::specs::Decode::request_of))]
pub fn request_of(words: [u64; 16]) -> LeaseRequest
    ensures { result ≡ request_of words }
{
    let first = bounds_of(words[6], words[7]);
    let second = bounds_of(words[8], words[9]);
    LeaseRequest {
        owner: words[2],
        resource: as_u8(words[3]),
        capabilities: words[4],
        duration_ms: as_u32(words[5]),
        limits: [first, second],
    }
}

#[tactic(auto, unfolding(crate::specs::Decode::renewal_of))]
pub fn renewal_of(words: [u64; 16]) -> Renewal
    ensures { result ≡ renewal_of words }
{
    Renewal {
        owner: words[2],
        lease_id: words[3],
        renewal: words[4],
        duration_ms: as_u32(words[5]),
        now: words[1],
    }
}

#[tactic(auto, unfolding(crate::specs::Decode::action_of))]
fn action_of(words: [u64; 16]) -> Action
    ensures { result ≡ action_of words }
{
    Action {
        boot_id: words[4],
        requester: words[5],
        lease_id: words[6],
        action_id: words[7],
        sequence: words[8],
        capability: as_u16(words[9]),
        based_on_epoch: words[10],
        execute_after: words[11],
        deadline: words[12],
        valid_for_ms: as_u32(words[13]),
        parameters: [as_i32(words[14]), as_i32(words[15])],
    }
}

#[tactic(auto, unfolding(crate::specs::Decode::submission_of))]
pub fn submission_of(words: [u64; 16]) -> Submission
    ensures { result ≡ submission_of words }
{
    let action = action_of(words);
    Submission {
        action: action,
        principal: words[2],
        received_at: words[3],
        now: words[1],
    }
}

#[tactic(auto, unfolding(crate::specs::Decode::observation_of))]
pub fn observation_of(words: [u64; 16]) -> Observation
    ensures { result ≡ observation_of words }
{
    Observation {
        parameters: [as_i32(words[2]), as_i32(words[3])],
        state: as_u32(words[4]),
    }
}

// Output records -------------------------------------------------------------------------------------------------------

#[tactic(auto, unfolding(crate::specs::Encode::class_number))]
pub fn class_number(class: ExecutionClass) -> u64
    ensures { result ≡ class_number class }
{
    class as u64
}

pub fn decision_number(decision: Decision) -> u64
    ensures { result ≡ decision_number decision }
{
    u64::from(u8::from(decision))
}

#[tactic(auto, unfolding(crate::specs::Encode::state_number))]
pub fn state_number(state: RuntimeState) -> u64
    ensures { result ≡ state_number state }
{
    state as u64
}

pub fn reason_number(reason: Reason) -> u64
    ensures { result ≡ reason_number reason }
{
    u64::from(u16::from(reason))
}

// Which it is, its mask and its value.
#[tactic(auto, unfolding(crate::specs::Encode::verification_word, crate::specs::Encode::mask_word, crate::specs::Encode::value_word))]
pub fn verification_words(verification: Verification) -> [u64; 3]
    ensures { result ≡ verification_word verification ∷ mask_word verification ∷ value_word verification ∷ [] }
{
    match verification {
        Verification::Parameters => [0, 0, 0],
        Verification::State { mask, value } => [1, u64::from(mask), u64::from(value)],
    }
}

// A kind and a number alone.
#[tactic(auto, unfolding(crate::specs::Encode::padded))]
pub fn plain_words(kind: u64, number: u64) -> [u64; 26]
    ensures { result ≡ padded kind number [] }
{
    [
        kind, number, 0, 0, 0, 0, 0, 0, 0, 0, 0, 0, 0, 0, 0, 0, 0, 0, 0, 0, 0, 0, 0, 0, 0, 0,
    ]
}

// Items: 0, or the number that they come again with.
#[tactic(auto, unfolding(crate::specs::Encode::padded, crate::specs::Encode::item_words))]
pub fn observe_words(number: u64, axis: u8) -> [u64; 26]
    ensures { result ≡ item_words number (ItemObserve axis) }
{
    let mut words = plain_words(16, number);
    words[2] = axis as u64;
    words
}

#[tactic(auto, unfolding(crate::specs::Encode::padded, crate::specs::Encode::item_words))]
pub fn execute_words(number: u64, capability: u16, parameters: [i32; 2]) -> [u64; 26]
    ensures { result ≡ item_words number (ItemExecute capability parameters) }
{
    let mut words = plain_words(17, number);
    words[2] = capability as u64;
    words[3] = unsigned(parameters[0]);
    words[4] = unsigned(parameters[1]);
    words
}

#[tactic(auto, unfolding(crate::specs::Encode::padded, crate::specs::Encode::item_words))]
pub fn fallback_words(number: u64, axis: u8, reason: Reason) -> [u64; 26]
    ensures { result ≡ item_words number (ItemFallback axis reason) }
{
    let mut words = plain_words(18, number);
    words[2] = axis as u64;
    words[3] = reason_number(reason);
    words
}

// Records, after a kind and a number.
#[tactic(auto, unfolding(crate::specs::Encode::padded, crate::specs::Encode::receipt_words))]
pub fn receipt_words(kind: u64, number: u64, receipt: Receipt) -> [u64; 26]
    ensures { result ≡ padded kind number (receipt_words receipt) }
{
    let decision = receipt.decision;
    let reason = receipt.reason;
    let requested = receipt.requested;
    let observed = receipt.observed;
    [
        kind,
        number,
        receipt.boot_id,
        receipt.principal,
        receipt.safety_flags as u64,
        receipt.receipt_id,
        receipt.action_id,
        receipt.sequence,
        receipt.capability as u64,
        receipt.resource as u64,
        receipt.lease_id,
        decision_number(decision),
        reason_number(reason),
        receipt.epoch,
        receipt.received_at,
        receipt.admitted_at,
        receipt.executed_at,
        unsigned(requested[0]),
        unsigned(requested[1]),
        unsigned(observed[0]),
        unsigned(observed[1]),
        u64::from(receipt.pre_state),
        u64::from(receipt.post_state),
        receipt.original_receipt,
        bit(receipt.dispatched),
        bit(receipt.observed_valid),
    ]
}

#[tactic(auto, unfolding(crate::specs::Encode::padded, crate::specs::Encode::lease_words))]
pub fn lease_words(kind: u64, number: u64, lease: Lease) -> [u64; 26]
    ensures { result ≡ padded kind number (lease_words lease) }
{
    let limits = lease.limits;
    let first = limits[0];
    let second = limits[1];
    let mut words = plain_words(kind, number);
    words[2] = lease.id;
    words[3] = lease.owner;
    words[4] = lease.resource as u64;
    words[5] = lease.capabilities;
    words[6] = lease.expires_at;
    words[7] = unsigned(first.min);
    words[8] = unsigned(first.max);
    words[9] = unsigned(second.min);
    words[10] = unsigned(second.max);
    words[11] = lease.last_sequence;
    words[12] = lease.last_renewal;
    words
}

#[tactic(auto, unfolding(crate::specs::Encode::padded, crate::specs::Encode::capability_words))]
pub fn capability_words(kind: u64, number: u64, capability: Capability) -> [u64; 26]
    ensures { result ≡ padded kind number (capability_words capability) }
{
    let class = capability.class;
    let [which, mask, value] = verification_words(capability.verification);
    let bounds = capability.bounds;
    let first = bounds[0];
    let second = bounds[1];
    let mut words = plain_words(kind, number);
    words[2] = capability.id as u64;
    words[3] = capability.resource as u64;
    words[4] = class_number(class);
    words[5] = capability.parameter_count as u64;
    words[6] = unsigned(first.min);
    words[7] = unsigned(first.max);
    words[8] = unsigned(second.min);
    words[9] = unsigned(second.max);
    words[10] = capability.require_set as u64;
    words[11] = capability.require_clear as u64;
    words[12] = which;
    words[13] = mask;
    words[14] = value;
    words
}

#[tactic(auto, unfolding(crate::specs::Encode::padded, crate::specs::Encode::config_words))]
pub fn config_words(kind: u64, number: u64, config: Config) -> [u64; 26]
    ensures { result ≡ padded kind number (config_words config) }
{
    let mut words = plain_words(kind, number);
    words[2] = config.watchdog_ms as u64;
    words[3] = config.state_ttl_ms as u64;
    words[4] = config.max_lease_ms as u64;
    words[5] = config.max_valid_for_ms as u64;
    words[6] = config.invalid_limit as u64;
    words[7] = config.estop_mask as u64;
    words
}

#[tactic(auto, unfolding(crate::specs::Encode::padded, crate::specs::Encode::snapshot_words))]
pub fn snapshot_words(kind: u64, number: u64, snapshot: Snapshot) -> [u64; 26]
    ensures { result ≡ padded kind number (snapshot_words snapshot) }
{
    let state = snapshot.state;
    let mut words = plain_words(kind, number);
    words[2] = snapshot.boot_id;
    words[3] = snapshot.epoch;
    words[4] = snapshot.now;
    words[5] = snapshot.sensor_tick;
    words[6] = snapshot.flags as u64;
    words[7] = state_number(state);
    words[8] = snapshot.active_leases as u64;
    words[9] = snapshot.retained_receipts as u64;
    words[10] = snapshot.next_receipt_id;
    words
}
