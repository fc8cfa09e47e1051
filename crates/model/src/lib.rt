// The records, enums and numbers of the stage runtime, from model.rs, and the four records of the reference profile (profile.rs).
// Promises: a bound contains what lies from its minimum to its maximum; a capability permits the flags that meet both its words; a
// reason and its number determine each other, and so do a decision and its number; a record is sound exactly by 01's seven conditions.
// Rests on nothing but the language and its library.
#![tactic(auto)]

ghost use Rattle.std.specs.Prelude.{◌≡◌, ◌&&◌, eqb, drop};
ghost use Rattle.std.specs.Int.Signed.{le_z};
ghost use Rattle.std.specs.Int.Bits.{bit_and};
ghost use Rattle.model.specs.Reasons.{number, StandsForReason};
ghost use Rattle.model.specs.Decisions.{decision_number, StandsForDecision};
ghost use Rattle.model.specs.Records.{default_config, no_lease, no_capability, no_active, no_replay, no_receipt};
ghost use Rattle.model.specs.Lists.{all};
ghost use Rattle.model.specs.Bounds.{ordered, is_zero};
ghost use Rattle.model.specs.Soundness.{verifiable, sound};

pub mod profile;

pub const MAX_CAPABILITIES: usize = 16;

pub const MAX_RESOURCES: usize = 8;

pub const REPLAY_CAPACITY: usize = 32;

pub const RECEIPT_CAPACITY: usize = 64;

#[derive(Clone, Copy)]
pub struct Bounds {
    pub min: i32,
    pub max: i32,
}

impl Bounds {
    pub const ANY: Self = Self {
        min: i32::MIN,
        max: i32::MAX,
    };

    pub const ZERO: Self = Self { min: 0, max: 0 };

    // min ≤ value ≤ max
    pub fn contains(self, value: i32) -> bool
        ensures { result ≡ (le_z self.min value && le_z value self.max) }
    {
        value >= self.min && value <= self.max
    }

    fn is_ordered(self) -> bool
        ensures { result ≡ ordered self }
    {
        self.min <= self.max
    }

    fn is_zero(self) -> bool
        ensures { result ≡ is_zero self }
    {
        self.min == 0 && self.max == 0
    }
}

// Both bounds have min ≤ max.
pub fn all_ordered(bounds: [Bounds; 2]) -> bool
    ensures { result ≡ all ordered bounds }
{
    bounds.iter().all(|b| b.is_ordered())
}

// The bounds past the count are zero.
fn zero_past(bounds: [Bounds; 2], count: u8) -> bool
    ensures { result ≡ all is_zero (drop count bounds) }
{
    bounds.iter().skip(count as usize).all(|b| b.is_zero())
}

#[derive(Clone, Copy, Debug, PartialEq, Eq)]
pub enum ExecutionClass {
    Stream,
    Discrete,
    Control,
}

#[derive(Clone, Copy, Debug, PartialEq, Eq)]
pub enum Verification {
    // The observation must equal the requested parameters.
    Parameters,
    // The observation's state must have this value under this mask.
    State { mask: u32, value: u32 },
}

impl Verification {
    // A State has a mask that is not 0 and its value inside it.
    fn is_sound(self) -> bool
        ensures { result ≡ verifiable self }
    {
        match self {
            Verification::Parameters => true,
            Verification::State { mask, value } => mask != 0 && mask & value == value,
        }
    }
}

#[derive(Clone, Copy)]
pub struct Capability {
    pub id: u16,
    pub resource: u8,
    pub class: ExecutionClass,
    pub parameter_count: u8,
    pub bounds: [Bounds; 2],
    pub require_set: u32,
    pub require_clear: u32,
    pub verification: Verification,
}

impl Capability {
    // Every bit of require_set stands in the flags, and none of require_clear.
    pub fn permits(self, flags: u32) -> bool
        ensures { result ≡ (eqb (bit_and flags self.require_set) self.require_set && eqb (bit_and flags self.require_clear) 0) }
    {
        flags & self.require_set == self.require_set && flags & self.require_clear == 0
    }

    // The conditions that `Runtime::new` tests of one record, in 01's order.
    pub fn is_sound(self) -> bool
        ensures { result ≡ sound self }
    {
        let count = self.parameter_count;
        let bounds = self.bounds;
        let verification = self.verification;
        if self.id == 0 {
            return false;
        }
        if self.id > 63 {
            return false;
        }
        if self.resource > 7 {
            return false;
        }
        if count > 2 {
            return false;
        }
        if self.require_set & self.require_clear != 0 {
            return false;
        }
        if !all_ordered(bounds) {
            return false;
        }
        if !zero_past(bounds, count) {
            return false;
        }
        verification.is_sound()
    }
}

#[derive(Clone, Copy)]
pub struct Action {
    pub boot_id: u64,
    pub requester: u64,
    pub lease_id: u64,
    pub action_id: u64,
    pub sequence: u64,
    pub capability: u16,
    pub based_on_epoch: u64,
    pub execute_after: u64,
    pub deadline: u64,
    pub valid_for_ms: u32,
    pub parameters: [i32; 2],
}

// A submission: the order, who brings it, when it was received, and the time of the call (the arguments of `submit`).
#[derive(Clone, Copy)]
pub struct Submission {
    pub action: Action,
    pub principal: u64,
    pub received_at: u64,
    pub now: u64,
}

#[derive(Clone, Copy)]
pub struct LeaseRequest {
    pub owner: u64,
    pub resource: u8,
    // Bit N authorizes capability id N.
    pub capabilities: u64,
    pub duration_ms: u32,
    pub limits: [Bounds; 2],
}

// A renewal: whose lease, which one, the number of the renewal, for how long, and the time of the call (the arguments of `renew`).
#[derive(Clone, Copy)]
pub struct Renewal {
    pub owner: u64,
    pub lease_id: u64,
    pub renewal: u64,
    pub duration_ms: u32,
    pub now: u64,
}

#[derive(Clone, Copy)]
pub struct Lease {
    pub id: u64,
    pub owner: u64,
    pub resource: u8,
    pub capabilities: u64,
    pub expires_at: u64,
    pub limits: [Bounds; 2],
    pub last_sequence: u64,
    pub last_renewal: u64,
}

#[derive(Clone, Copy, Debug, PartialEq, Eq)]
pub enum Reason {
    Ok,
    Bound,
    Stale,
    Authority,
    Duplicate,
    Precondition,
    OldSequence,
    Epoch,
    UnknownCapability,
    TooEarly,
    Invalid,
    Estop,
    Faulted,
    Watchdog,
    LeaseExpired,
    StreamExpired,
    Driver,
    Verification,
    Clock,
    Busy,
    Canceled,
    InvalidStorm,
    StateStale,
    BootMismatch,
    LeaseGranted,
    LeaseRenewed,
    Recovered,
    Startup,
}

// A number that stands for nothing.
#[derive(Clone, Copy, Debug, PartialEq, Eq)]
pub struct UnknownNumber;

impl From<Reason> for u16 {
    ghost from_gives = { λ reason n. n ≡ number reason };

    fn from(reason: Reason) -> u16 {
        match reason {
            Reason::Ok => 0,
            Reason::Bound => 1,
            Reason::Stale => 2,
            Reason::Authority => 3,
            Reason::Duplicate => 4,
            Reason::Precondition => 5,
            Reason::OldSequence => 6,
            Reason::Epoch => 7,
            Reason::UnknownCapability => 8,
            Reason::TooEarly => 9,
            Reason::Invalid => 10,
            Reason::Estop => 11,
            Reason::Faulted => 12,
            Reason::Watchdog => 13,
            Reason::LeaseExpired => 14,
            Reason::StreamExpired => 15,
            Reason::Driver => 16,
            Reason::Verification => 17,
            Reason::Clock => 18,
            Reason::Busy => 19,
            Reason::Canceled => 20,
            Reason::InvalidStorm => 21,
            Reason::StateStale => 22,
            Reason::BootMismatch => 23,
            Reason::LeaseGranted => 24,
            Reason::LeaseRenewed => 25,
            Reason::Recovered => 26,
            Reason::Startup => 27,
        }
    }
}

impl TryFrom<u16> for Reason {
    type Error = UnknownNumber;

    ghost try_from_gives = { StandsForReason };

    fn try_from(n: u16) -> Result<Self, UnknownNumber> {
        match n {
            0 => Ok(Reason::Ok),
            1 => Ok(Reason::Bound),
            2 => Ok(Reason::Stale),
            3 => Ok(Reason::Authority),
            4 => Ok(Reason::Duplicate),
            5 => Ok(Reason::Precondition),
            6 => Ok(Reason::OldSequence),
            7 => Ok(Reason::Epoch),
            8 => Ok(Reason::UnknownCapability),
            9 => Ok(Reason::TooEarly),
            10 => Ok(Reason::Invalid),
            11 => Ok(Reason::Estop),
            12 => Ok(Reason::Faulted),
            13 => Ok(Reason::Watchdog),
            14 => Ok(Reason::LeaseExpired),
            15 => Ok(Reason::StreamExpired),
            16 => Ok(Reason::Driver),
            17 => Ok(Reason::Verification),
            18 => Ok(Reason::Clock),
            19 => Ok(Reason::Busy),
            20 => Ok(Reason::Canceled),
            21 => Ok(Reason::InvalidStorm),
            22 => Ok(Reason::StateStale),
            23 => Ok(Reason::BootMismatch),
            24 => Ok(Reason::LeaseGranted),
            25 => Ok(Reason::LeaseRenewed),
            26 => Ok(Reason::Recovered),
            27 => Ok(Reason::Startup),
            28.. => Err(UnknownNumber),
        }
    }
}

// Refusals that the port adds. A start's are the Rust's `ConfigError`.
pub const INVALID_BOOT_ID: u16 = 101;

pub const INVALID_CONFIG: u16 = 102;

pub const INVALID_CAPABILITY: u16 = 103;

pub const DUPLICATE_CAPABILITY: u16 = 104;

pub const STARTUP_FAILED: u16 = 105;

// A call while a reply is awaited, a reply while none is, and a reply of another kind than the awaited one.
pub const REPLY_AWAITED: u16 = 111;

pub const NO_REPLY_AWAITED: u16 = 112;

pub const OTHER_REPLY_AWAITED: u16 = 113;

#[derive(Clone, Copy, Debug, PartialEq, Eq)]
pub enum Decision {
    Executed = 0,
    Rejected = 1,
    Fallback = 2,
    Control = 3,
    Failed = 4,
}

impl From<Decision> for u8 {
    ghost from_gives = { λ decision n. n ≡ decision_number decision };

    #[tactic(auto, unfolding(crate::specs::Decisions::decision_number))]
    fn from(decision: Decision) -> u8 {
        decision as u8
    }
}

impl TryFrom<u8> for Decision {
    type Error = UnknownNumber;

    ghost try_from_gives = { StandsForDecision };

    fn try_from(n: u8) -> Result<Self, UnknownNumber> {
        match n {
            0 => Ok(Decision::Executed),
            1 => Ok(Decision::Rejected),
            2 => Ok(Decision::Fallback),
            3 => Ok(Decision::Control),
            4 => Ok(Decision::Failed),
            5.. => Err(UnknownNumber),
        }
    }
}

#[derive(Clone, Copy, Debug, PartialEq, Eq)]
pub enum RuntimeState {
    SafeIdle,
    Armed,
    Faulted,
    Estopped,
}

#[derive(Clone, Copy)]
pub struct Observation {
    pub parameters: [i32; 2],
    pub state: u32,
}

// In an order that leaves few gaps: 128 bytes.
#[derive(Clone, Copy)]
pub struct Receipt {
    pub boot_id: u64,
    pub principal: u64,
    pub safety_flags: u32,
    pub capability: u16,
    pub resource: u8,
    pub decision: Decision,
    pub receipt_id: u64,
    pub action_id: u64,
    pub sequence: u64,
    pub lease_id: u64,
    pub epoch: u64,
    pub received_at: u64,
    pub admitted_at: u64,
    pub executed_at: u64,
    pub requested: [i32; 2],
    pub observed: [i32; 2],
    pub pre_state: u32,
    pub post_state: u32,
    // For a duplicate, the receipt that consumed the id; else 0.
    pub original_receipt: u64,
    pub reason: Reason,
    pub dispatched: bool,
    pub observed_valid: bool,
}

#[derive(Clone, Copy)]
pub struct Snapshot {
    pub boot_id: u64,
    pub epoch: u64,
    pub now: u64,
    pub sensor_tick: u64,
    pub flags: u32,
    pub state: RuntimeState,
    pub active_leases: u8,
    pub retained_receipts: usize,
    pub next_receipt_id: u64,
}

#[derive(Clone, Copy)]
pub struct Config {
    pub watchdog_ms: u32,
    pub state_ttl_ms: u32,
    pub max_lease_ms: u32,
    pub max_valid_for_ms: u32,
    pub invalid_limit: u16,
    pub estop_mask: u32,
}

impl Default for Config {
    ghost is_default = { λ config. config ≡ default_config };

    fn default() -> Self {
        Self {
            watchdog_ms: 50,
            state_ttl_ms: 250,
            max_lease_ms: 2000,
            max_valid_for_ms: 1000,
            invalid_limit: 32,
            estop_mask: 1,
        }
    }
}

// The order that an axis carries out, supervised until it ends (runtime.rs).
#[derive(Clone, Copy)]
pub struct Active {
    pub capability: Capability,
    pub expires_at: u64,
}

// An admitted order's owner and id, and the receipt that consumed them (runtime.rs).
#[derive(Clone, Copy)]
pub struct Replay {
    pub owner: u64,
    pub action_id: u64,
    pub receipt: u64,
}

// The Rust's `Option` in an array is a slot: an absent one holds a fixed blank, so that equal contents are equal values.
#[derive(Clone, Copy, Debug, PartialEq, Eq)]
pub enum Presence {
    Absent,
    Present,
}

#[derive(Clone, Copy)]
pub struct LeaseSlot {
    pub presence: Presence,
    pub lease: Lease,
}

#[derive(Clone, Copy)]
pub struct ActiveSlot {
    pub presence: Presence,
    pub active: Active,
}

#[derive(Clone, Copy)]
pub struct ReplaySlot {
    pub presence: Presence,
    pub replay: Replay,
}

impl LeaseSlot {
    pub fn blank() -> Self
        ensures { result ≡ no_lease }
    {
        Self {
            presence: Presence::Absent,
            lease: Lease {
                id: 0,
                owner: 0,
                resource: 0,
                capabilities: 0,
                expires_at: 0,
                limits: [Bounds::ZERO; 2],
                last_sequence: 0,
                last_renewal: 0,
            },
        }
    }
}

impl Capability {
    pub fn blank() -> Self
        ensures { result ≡ no_capability }
    {
        Self {
            id: 0,
            resource: 0,
            class: ExecutionClass::Stream,
            parameter_count: 0,
            bounds: [Bounds::ZERO; 2],
            require_set: 0,
            require_clear: 0,
            verification: Verification::Parameters,
        }
    }
}

impl ActiveSlot {
    pub fn blank() -> Self
        ensures { result ≡ no_active }
    {
        Self {
            presence: Presence::Absent,
            active: Active {
                capability: Capability::blank(),
                expires_at: 0,
            },
        }
    }
}

impl ReplaySlot {
    pub fn blank() -> Self
        ensures { result ≡ no_replay }
    {
        Self {
            presence: Presence::Absent,
            replay: Replay {
                owner: 0,
                action_id: 0,
                receipt: 0,
            },
        }
    }
}

// What stands where there is no receipt: zeros.
impl Receipt {
    pub fn blank() -> Self
        ensures { result ≡ no_receipt }
    {
        Self {
            boot_id: 0,
            principal: 0,
            safety_flags: 0,
            receipt_id: 0,
            action_id: 0,
            sequence: 0,
            capability: 0,
            resource: 0,
            lease_id: 0,
            decision: Decision::Executed,
            reason: Reason::Ok,
            epoch: 0,
            received_at: 0,
            admitted_at: 0,
            executed_at: 0,
            requested: [0i32; 2],
            observed: [0i32; 2],
            pre_state: 0,
            post_state: 0,
            original_receipt: 0,
            dispatched: false,
            observed_valid: false,
        }
    }
}
