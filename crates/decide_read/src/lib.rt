// What a host is shown, by value: the readings, the awaited item and what was answered. Until a start has ended, and after a refused one, every reading
// says that there is no runtime; what is absent is blank, whatever stands in its slot. Rests on `decide_start` for the start's stage, on `state` for
// the parts and on `receipts` for the places of the ring.
#![tactic(auto)]

ghost use Rattle.std.specs.Prelude.{◌<◌, ◌+◌, ◌≡◌};
ghost use Rattle.model.specs.Records.{no_lease};
ghost use Rattle.receipts.specs.Indexes.{Numbered};
ghost use Rattle.state.specs.State.{lease_or, lease_in, answered_at};
ghost use Rattle.decide_start.specs.Starts.{is_started};
ghost use Rattle.decide_read.specs.Shown.{presence_of, number_at, state_at, config_at, snapshot_at, slot_with, lease_shown_at, place_or16, no_capability_in, capability_at, NotedAs, slot_by, no_receipt_in, receipt_at, item_from};

use decide_start::{Stage, Starting};
use model::{
    Capability, Config, Lease, LeaseSlot, Presence, Reason, Receipt, RuntimeState, Snapshot,
};
use receipts::{Index, Place, place_of};
use state::{AfterRecord, Awaited, Falling, Fixed, Mode, Numbers, Waiting};

// A number, where there is a runtime.
#[derive(Clone, Copy)]
pub struct NumberShown {
    pub runtime: Presence,
    pub number: u64,
}

#[derive(Clone, Copy)]
pub struct StateShown {
    pub runtime: Presence,
    pub state: RuntimeState,
}

#[derive(Clone, Copy)]
pub struct ConfigShown {
    pub runtime: Presence,
    pub config: Config,
}

#[derive(Clone, Copy)]
pub struct SnapshotShown {
    pub runtime: Presence,
    pub snapshot: Snapshot,
}

// The lease of an axis, where there is one.
#[derive(Clone, Copy)]
pub struct LeaseShown {
    pub runtime: Presence,
    pub slot: LeaseSlot,
}

// The record at a place of the list, where there is one.
#[derive(Clone, Copy)]
pub struct CapabilityShown {
    pub runtime: Presence,
    pub presence: Presence,
    pub capability: Capability,
}

// The receipt at a place from the oldest, where there is one.
#[derive(Clone, Copy)]
pub struct ReceiptShown {
    pub runtime: Presence,
    pub presence: Presence,
    pub receipt: Receipt,
}

// readings ---------------------------------------------------------------------------------------------------------------

fn runtime_in(starting: Starting) -> Presence
    ensures { result ≡ presence_of (is_started starting.stage) }
{
    let stage = starting.stage;
    match stage {
        Stage::Trying => Presence::Absent,
        Stage::Gone => Presence::Absent,
        Stage::Started => Presence::Present,
    }
}

pub fn number_shown(starting: Starting, number: u64) -> NumberShown
    ensures { result ≡ number_at (is_started starting.stage) number }
{
    let runtime = runtime_in(starting);
    match runtime {
        Presence::Absent => NumberShown {
            runtime: Presence::Absent,
            number: 0,
        },
        Presence::Present => NumberShown {
            runtime: Presence::Present,
            number: number,
        },
    }
}

// Faulted stands where nothing does: no host takes it for a carriage that may be moved.
pub fn state_shown(starting: Starting, mode: Mode) -> StateShown
    ensures { result ≡ state_at (is_started starting.stage) mode.state }
{
    let runtime = runtime_in(starting);
    let state = mode.state;
    match runtime {
        Presence::Absent => StateShown {
            runtime: Presence::Absent,
            state: RuntimeState::Faulted,
        },
        Presence::Present => StateShown {
            runtime: Presence::Present,
            state: state,
        },
    }
}

pub fn config_shown(starting: Starting, config: Config) -> ConfigShown
    ensures { result ≡ config_at (is_started starting.stage) config }
{
    let runtime = runtime_in(starting);
    match runtime {
        Presence::Absent => ConfigShown {
            runtime: Presence::Absent,
            config: Config {
                watchdog_ms: 0,
                state_ttl_ms: 0,
                max_lease_ms: 0,
                max_valid_for_ms: 0,
                invalid_limit: 0,
                estop_mask: 0,
            },
        },
        Presence::Present => ConfigShown {
            runtime: Presence::Present,
            config: config,
        },
    }
}

// How many receipts are kept.
pub fn retained(index: Index) -> usize
    requires { Numbered index }
    ensures { result ≡ index.rejected.count + index.others.count }
{
    let rejected = index.rejected;
    let others = index.others;
    rejected.count + others.count
}

pub fn snapshot_shown(
    starting: Starting,
    fixed: Fixed,
    numbers: Numbers,
    retained: usize,
) -> SnapshotShown
    ensures { result ≡ snapshot_at (is_started starting.stage) fixed numbers retained }
{
    let runtime = runtime_in(starting);
    let mode = numbers.mode;
    let state = mode.state;
    match runtime {
        Presence::Absent => SnapshotShown {
            runtime: Presence::Absent,
            snapshot: Snapshot {
                boot_id: 0,
                epoch: 0,
                now: 0,
                sensor_tick: 0,
                flags: 0,
                state: RuntimeState::Faulted,
                active_leases: 0,
                retained_receipts: 0,
                next_receipt_id: 0,
            },
        },
        Presence::Present => SnapshotShown {
            runtime: Presence::Present,
            snapshot: Snapshot {
                boot_id: fixed.boot_id,
                epoch: numbers.epoch,
                now: numbers.last_tick,
                sensor_tick: numbers.state_at,
                flags: numbers.flags,
                state: state,
                active_leases: numbers.held,
                retained_receipts: retained,
                next_receipt_id: numbers.next_receipt,
            },
        },
    }
}

// The lease of a slot, blank where it is absent.
fn lease_of(slot: LeaseSlot) -> LeaseSlot
    ensures { result ≡ slot_with (lease_in slot) }
{
    let presence = slot.presence;
    match presence {
        Presence::Absent => LeaseSlot::blank(),
        Presence::Present => slot,
    }
}

pub fn lease_shown(starting: Starting, slot: LeaseSlot) -> LeaseShown
    ensures { result ≡ lease_shown_at (is_started starting.stage) (lease_in slot) }
{
    let runtime = runtime_in(starting);
    match runtime {
        Presence::Absent => LeaseShown {
            runtime: Presence::Absent,
            slot: LeaseSlot::blank(),
        },
        Presence::Present => LeaseShown {
            runtime: Presence::Present,
            slot: lease_of(slot),
        },
    }
}

// The place of a record, or the spare one.
pub fn place_or_spare(index: usize, count: usize) -> usize
    requires { count < 17 }
    ensures { (result ≡ place_or16 index count) × (result < 17) }
{
    if index < count { index } else { 16 }
}

fn no_capability(runtime: Presence) -> CapabilityShown
    ensures { result ≡ no_capability_in runtime }
{
    CapabilityShown {
        runtime: runtime,
        presence: Presence::Absent,
        capability: Capability::blank(),
    }
}

pub fn capability_shown(starting: Starting, at: usize, capability: Capability) -> CapabilityShown
    ensures { result ≡ capability_at (is_started starting.stage) at capability }
{
    let runtime = runtime_in(starting);
    if at < 16 {
        return match runtime {
            Presence::Absent => no_capability(runtime),
            Presence::Present => CapabilityShown {
                runtime: Presence::Present,
                presence: Presence::Present,
                capability: capability,
            },
        };
    }
    no_capability(runtime)
}

// The places of the two circles that a receipt may be noted at: the spare ones where it is not.
#[derive(Clone, Copy)]
pub struct Noted {
    pub rejected: usize,
    pub others: usize,
}

pub fn noted_at(index: Index, at: usize) -> Noted
    requires { Numbered index }
    ensures { NotedAs index at result }
{
    match place_of(index, at) {
        Some(Place::Rejected(place)) => Noted {
            rejected: place,
            others: 64,
        },
        Some(Place::Other(place)) => Noted {
            rejected: 64,
            others: place,
        },
        None => Noted {
            rejected: 64,
            others: 64,
        },
    }
}

// The slot of the receipt, given what stands at those places; 64 where there is none.
pub fn slot_of(noted: Noted, rejected: u8, other: u8) -> usize
    ensures { result ≡ slot_by noted rejected other }
{
    if noted.rejected < 64 {
        return rejected as usize;
    }
    if noted.others < 64 {
        return other as usize;
    }
    64
}

fn no_receipt(runtime: Presence) -> ReceiptShown
    ensures { result ≡ no_receipt_in runtime }
{
    ReceiptShown {
        runtime: runtime,
        presence: Presence::Absent,
        receipt: Receipt::blank(),
    }
}

pub fn receipt_shown(starting: Starting, slot: usize, receipt: Receipt) -> ReceiptShown
    ensures { result ≡ receipt_at (is_started starting.stage) slot receipt }
{
    let runtime = runtime_in(starting);
    if slot < 64 {
        return match runtime {
            Presence::Absent => no_receipt(runtime),
            Presence::Present => ReceiptShown {
                runtime: Presence::Present,
                presence: Presence::Present,
                receipt: receipt,
            },
        };
    }
    no_receipt(runtime)
}

// the awaited item -------------------------------------------------------------------------------------------------------

#[derive(Clone, Copy)]
pub enum ItemKind {
    Nothing,
    Observe,
    Execute,
    Fallback,
    Record,
}

// The item whose reply is awaited. Only what its kind has is set: observe an axis, execute a capability with parameters, fall back on an axis for a
// reason, record a receipt.
#[derive(Clone, Copy)]
pub struct ItemShown {
    pub kind: ItemKind,
    pub axis: u8,
    pub reason: Reason,
    pub capability: u16,
    pub parameters: [i32; 2],
    pub receipt: Receipt,
}

fn item_with(
    kind: ItemKind,
    axis: u8,
    reason: Reason,
    capability: u16,
    parameters: [i32; 2],
    receipt: Receipt,
) -> ItemShown
    ensures { result ≡ record { kind = kind; axis = axis; reason = reason; capability = capability; parameters = parameters; receipt = receipt } }
{
    ItemShown {
        kind: kind,
        axis: axis,
        reason: reason,
        capability: capability,
        parameters: parameters,
        receipt: receipt,
    }
}

pub fn item_of(
    waiting: Waiting,
    falling: Falling,
    capability: Capability,
    parameters: [i32; 2],
    receipt: Receipt,
) -> ItemShown
    ensures { result ≡ item_from waiting.awaited falling capability parameters receipt }
{
    let awaited = waiting.awaited;
    let none = [0; 2];
    let blank = Receipt::blank();
    let reason = falling.reason;
    match awaited {
        Awaited::Nothing => item_with(ItemKind::Nothing, 0, Reason::Ok, 0, none, blank),
        Awaited::ObserveBefore => item_with(
            ItemKind::Observe,
            capability.resource,
            Reason::Ok,
            0,
            none,
            blank,
        ),
        Awaited::Execute => item_with(
            ItemKind::Execute,
            0,
            Reason::Ok,
            capability.id,
            parameters,
            blank,
        ),
        Awaited::ObserveAfter => item_with(
            ItemKind::Observe,
            capability.resource,
            Reason::Ok,
            0,
            none,
            blank,
        ),
        Awaited::Fallback => item_with(ItemKind::Fallback, falling.axis, reason, 0, none, blank),
        Awaited::Record => item_with(ItemKind::Record, 0, Reason::Ok, 0, none, receipt),
    }
}

// answers ----------------------------------------------------------------------------------------------------------------

// The lease that stands in a slot; where none does, a blank.
pub fn lease_in(slot: LeaseSlot) -> Lease
    ensures { result ≡ lease_or no_lease.lease (lease_in slot) }
{
    let presence = slot.presence;
    let lease = slot.lease;
    match presence {
        Presence::Absent => {
            let blank = LeaseSlot::blank();
            blank.lease
        }
        Presence::Present => lease,
    }
}

// The receipt that `submit` answers: the order's own, or the one that was kept while a trip followed.
pub fn submitted_of(waiting: Waiting, receipt: Receipt, kept: Receipt) -> Receipt
    ensures { result ≡ answered_at waiting.after_record receipt kept }
{
    let after = waiting.after_record;
    match after {
        AfterRecord::Fallback => kept,
        AfterRecord::Lease => kept,
        AfterRecord::Executed => receipt,
        AfterRecord::Failed => receipt,
        AfterRecord::Rejected => receipt,
    }
}
