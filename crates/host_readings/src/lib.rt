// What a host sees of lent words (crate `runtime`, "what a host sees" and "readings"). Promises: where the words are a sound runtime's, its start included,
// the item whose reply is awaited, what an answer speaks of, and what the rules' readings show. Rests on `decide_read` and on `layout`.
#![tactic(auto)]

ghost use Rattle.decide_read.specs.Shown.{shown_item};
ghost use Rattle.rules.specs.Interaction.{Leased};
ghost use Rattle.rules.specs.Protocol.{awaited_in, Answers, ReadEpoch, ReadBootId, ReadFlags, ReadReceiptCount};
ghost use Rattle.state.specs.State.{output_of};
ghost use Rattle.state.specs.declared.Answer.TheVariants as Answered;
ghost use Rattle.runtime.specs.Stages.{phase_in, RuntimeSound, StateReads, NumberReads, LeaseReads, CapabilityReads, ConfigReads, SnapshotReads, ReceiptReads};
ghost use Rattle.host_readings.specs.Readings.{RetainedAny, NotedAny};
ghost use Rattle.std.specs.Prelude.{◌<◌, cond, ◌≡◌, ltb};
ghost use Rattle.rules.specs.Interaction.{Refused, Submitted};
ghost use Rattle.runtime.specs.Runtimes.{state_in};
ghost use Rattle.rows.specs.Rows.{Headed};
ghost use Rattle.layout.specs.Layout.{Long, runtime_in};

use decide_read::{
    CapabilityShown, ConfigShown, ItemShown, LeaseShown, Noted, NumberShown, ReceiptShown,
    SnapshotShown, StateShown, capability_shown, config_shown, item_of, lease_in, lease_shown,
    noted_at, number_shown, place_or_spare, receipt_shown, retained, slot_of, snapshot_shown,
    state_shown,
};
use host_store::is_numbered;
use layout::{
    axis_in, capability_at, carrying_in, falling_in, fixed_in, index_in, lease_at, numbers_in,
    others_at, reason_in, receipt_at, rejected_at, slot_in, starting_in, submission_in,
    submitted_in, waiting_in,
};
use model::{Lease, Reason, Receipt};
use receipts::Index;
use runtime::axis_or_spare;
use state::AfterRecord;

// what a host sees -----------------------------------------------------------------------------------------------------

// The item whose reply is awaited, or none.
pub fn item(state: &[u64]) -> ItemShown
    requires { Long state.now }
    ensures { RuntimeSound (runtime_in state.now) → result ≡ shown_item (awaited_in (phase_in (runtime_in state.now))) }
{
    let waiting = waiting_in(state);
    let falling = falling_in(state);
    let carrying = carrying_in(state);
    let capability = capability_at(state, carrying.at);
    let submission = submission_in(state);
    let action = submission.action;
    let parameters = action.parameters;
    let receipt = receipt_at(state, slot_in(state));
    item_of(waiting, falling, capability, parameters, receipt)
}

// What `Leased`, `Submitted` and `Refused` speak of, right after that answer.
pub fn answered_lease(state: &[u64]) -> Lease
    requires { Long state.now }
    ensures { RuntimeSound (runtime_in state.now) → output_of Answered.Leased (state_in (runtime_in state.now)) ≡ Answers (Leased result) }
{
    let slot = lease_at(state, axis_or_spare(axis_in(state)));
    lease_in(slot)
}

pub fn answered_receipt(state: &[u64]) -> Receipt
    requires { Long state.now }
    ensures { output_of Answered.Submitted (state_in (runtime_in state.now)) ≡ Answers (Submitted result) }
{
    let waiting = waiting_in(state);
    let after = waiting.after_record;
    match after {
        AfterRecord::Fallback => submitted_in(state),
        AfterRecord::Lease => submitted_in(state),
        AfterRecord::Executed => receipt_at(state, slot_in(state)),
        AfterRecord::Failed => receipt_at(state, slot_in(state)),
        AfterRecord::Rejected => receipt_at(state, slot_in(state)),
    }
}

pub fn refusal(state: &[u64]) -> Reason
    requires { Long state.now }
    ensures { output_of Answered.Refused (state_in (runtime_in state.now)) ≡ Answers (Refused result) }
{
    reason_in(state)
}

// readings -------------------------------------------------------------------------------------------------------------

pub fn mode(state: &[u64]) -> StateShown
    requires { Long state.now }
    ensures { StateReads (runtime_in state.now) result }
{
    let starting = starting_in(state);
    let numbers = numbers_in(state);
    let mode = numbers.mode;
    state_shown(starting, mode)
}

pub fn epoch(state: &[u64]) -> NumberShown
    requires { Long state.now }
    ensures { NumberReads ReadEpoch (runtime_in state.now) result }
{
    let starting = starting_in(state);
    let numbers = numbers_in(state);
    number_shown(starting, numbers.epoch)
}

pub fn boot_id(state: &[u64]) -> NumberShown
    requires { Long state.now }
    ensures { NumberReads ReadBootId (runtime_in state.now) result }
{
    let starting = starting_in(state);
    let fixed = fixed_in(state);
    number_shown(starting, fixed.boot_id)
}

pub fn flags(state: &[u64]) -> NumberShown
    requires { Long state.now }
    ensures { NumberReads ReadFlags (runtime_in state.now) result }
{
    let starting = starting_in(state);
    let numbers = numbers_in(state);
    number_shown(starting, numbers.flags as u64)
}

pub fn lease(state: &[u64], axis: u8) -> LeaseShown
    requires { Long state.now }
    ensures { RuntimeSound (runtime_in state.now) → LeaseReads axis (runtime_in state.now) result }
{
    let starting = starting_in(state);
    let slot = lease_at(state, axis_or_spare(axis));
    lease_shown(starting, slot)
}

pub fn capability(state: &[u64], index: usize) -> CapabilityShown
    requires { Long state.now }
    ensures { RuntimeSound (runtime_in state.now) → CapabilityReads index (runtime_in state.now) result }
{
    let starting = starting_in(state);
    let fixed = fixed_in(state);
    let at = place_or_spare(index, fixed.count);
    let capability = capability_at(state, at);
    capability_shown(starting, at, capability)
}

// How many receipts are kept; none where the index is none.
fn retained_any(index: Index) -> usize
    requires { Headed index }
    ensures { RetainedAny index result }
{
    if is_numbered(index) {
        return retained(index);
    }
    0
}

pub fn receipt_count(state: &[u64]) -> NumberShown
    requires { Long state.now }
    ensures { RuntimeSound (runtime_in state.now) → NumberReads ReadReceiptCount (runtime_in state.now) result }
{
    let starting = starting_in(state);
    let index = index_in(state);
    number_shown(starting, retained_any(index) as u64)
}

pub fn config(state: &[u64]) -> ConfigShown
    requires { Long state.now }
    ensures { ConfigReads (runtime_in state.now) result }
{
    let starting = starting_in(state);
    let fixed = fixed_in(state);
    let config = fixed.config;
    config_shown(starting, config)
}

pub fn snapshot(state: &[u64]) -> SnapshotShown
    requires { Long state.now }
    ensures { RuntimeSound (runtime_in state.now) → SnapshotReads (runtime_in state.now) result }
{
    let starting = starting_in(state);
    let fixed = fixed_in(state);
    let numbers = numbers_in(state);
    let index = index_in(state);
    snapshot_shown(starting, fixed, numbers, retained_any(index))
}

// Where a receipt is noted; nowhere where the index is none.
fn noted_any(index: Index, at: usize) -> Noted
    requires { Headed index }
    ensures { NotedAny index at result }
{
    if is_numbered(index) {
        return noted_at(index, at);
    }
    Noted {
        rejected: 64,
        others: 64,
    }
}

// A slot of the table, or the spare one.
fn slot_or_last(slot: usize) -> usize
    ensures { (result ≡ cond (ltb slot 64) slot 64) × (result < 65) }
{
    if slot < 64 { slot } else { 64 }
}

pub fn receipt(state: &[u64], index: usize) -> ReceiptShown
    requires { Long state.now }
    ensures { RuntimeSound (runtime_in state.now) → ReceiptReads index (runtime_in state.now) result }
{
    let starting = starting_in(state);
    let order = index_in(state);
    let noted = noted_any(order, index);
    let rejected = rejected_at(state, noted.rejected);
    let other = others_at(state, noted.others);
    let slot = slot_or_last(slot_of(noted, rejected, other));
    let receipt = receipt_at(state, slot);
    receipt_shown(starting, slot, receipt)
}
