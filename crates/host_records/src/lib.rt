// Records over lent words (docs/WIRE.md): one record in, the words of its answer out, and the state where it was lent. Promises: whatever the words hold,
// as many and the same first one; where they are a sound runtime's, its start included, they stand where the definitions of the records say, and the answer's
// words are theirs. Rests on `format` for what words stand for, and on the calls, readings and start in lent words.
#![tactic(auto)]

ghost use Rattle.std.specs.Prelude.{cond, ◌≡◌};
ghost use Rattle.model.specs.declared.Presence.TheVariants.{Absent, Present};
ghost use Rattle.rules.specs.Protocol.{OfLease};
ghost use Rattle.state.specs.State.{lease_in, item_of, output_of};
ghost use Rattle.decide_read.specs.Shown.{number_says, state_says, config_says, snapshot_says, lease_says, capability_says, receipt_says};
ghost use Rattle.decide_reply.specs.Replies.{observation_in};
ghost use Rattle.format.specs.Decode.{word, u32_at, config_of, observed_of, turn_of, reading_of, Starts, decode};
ghost use Rattle.format.specs.Encode.{encode, item_words, value_words};
ghost use Rattle.runtime.specs.Runtimes.{state_in};
ghost use Rattle.runtime.specs.Stages.{RuntimeSound};
ghost use Rattle.layout.specs.Layout.{Long, runtime_in};
ghost use Rattle.host_calls.specs.Calls.{Steps};
ghost use Rattle.host_records.specs.declared.Taken.TheVariants.{Answered};
ghost use Rattle.host_records.specs.Standings.{ReadsAs, capability_said, receipt_said, Says, Goes, Takes};

use decide_read::{
    CapabilityShown, ConfigShown, LeaseShown, NumberShown, ReceiptShown, SnapshotShown, StateShown,
};
use decide_reply::Observed;
use format::{
    ReadingKind, RecordKind, TurnKind, as_bool, as_u8, as_u32, capability_of, capability_words,
    config_of, config_words, execute_words, fallback_words, kind_of, lease_words, observation_of,
    observe_words, plain_words, reason_number, receipt_words, renewal_of, request_of,
    snapshot_words, state_number, submission_of,
};
use host_calls::{
    acquire, cancel, emergency_stop, executed, fell_back, observed, poll_estop, recorded,
    recover_local, renew, submit, tick, update_state,
};
use host_readings::{
    answered_lease, answered_receipt, boot_id, capability, config, epoch, flags, lease, mode,
    receipt, receipt_count, refusal, snapshot,
};
use host_start::{list, new};
use layout::{
    capability_at, carrying_in, falling_in, receipt_at, slot_in, submission_in, waiting_in,
};
use model::{Capability, LeaseSlot, Presence, Receipt};
use state::{Answer, Awaited};

// outputs ----------------------------------------------------------------------------------------------------------------

// The item whose reply is awaited, with 0 or the number that it comes again with.
fn item_words(state: &[u64], number: u64) -> [u64; 26]
    requires { Long state.now }
    ensures { result ≡ item_words number (item_of (state_in (runtime_in state.now))) }
{
    let waiting = waiting_in(state);
    let awaited = waiting.awaited;
    let carrying = carrying_in(state);
    let capability = capability_at(state, carrying.at);
    let submission = submission_in(state);
    let action = submission.action;
    let parameters = action.parameters;
    let falling = falling_in(state);
    let reason = falling.reason;
    let receipt = receipt_at(state, slot_in(state));
    match awaited {
        Awaited::Nothing => receipt_words(19, number, receipt),
        Awaited::ObserveBefore => observe_words(number, capability.resource),
        Awaited::Execute => execute_words(number, capability.id, parameters),
        Awaited::ObserveAfter => observe_words(number, capability.resource),
        Awaited::Fallback => fallback_words(number, falling.axis, reason),
        Awaited::Record => receipt_words(19, number, receipt),
    }
}

// What a start, a call or a reply gave.
fn answer_words(state: &[u64], answer: Answer) -> [u64; 26]
    requires { Long state.now }
    ensures { RuntimeSound (runtime_in state.now) → result ≡ encode (output_of answer (state_in (runtime_in state.now))) }
{
    let number = match answer {
        Answer::Returned => return plain_words(32, 0),
        Answer::Unraised => return plain_words(33, 0),
        Answer::Raised => return plain_words(33, 1),
        Answer::Succeeded => return plain_words(34, 0),
        Answer::Leased => return lease_words(35, 0, answered_lease(state)),
        Answer::Refused => return plain_words(36, reason_number(refusal(state))),
        Answer::Submitted => return receipt_words(37, 0, answered_receipt(state)),
        Answer::Item => 0,
        Answer::ReplyAwaited => 111,
        Answer::OtherAwaited => 113,
        Answer::NoReplyAwaited => return plain_words(5, 112),
        Answer::NoRuntime => return plain_words(4, 0),
        Answer::Started => return plain_words(2, 0),
        Answer::InvalidBootId => return plain_words(3, 101),
        Answer::InvalidConfig => return plain_words(3, 102),
        Answer::InvalidCapability => return plain_words(3, 103),
        Answer::DuplicateCapability => return plain_words(3, 104),
        Answer::StartupFailed => return plain_words(3, 105),
    };
    item_words(state, number)
}

// readings ---------------------------------------------------------------------------------------------------------------

fn number_words(shown: NumberShown) -> [u64; 26]
    ensures { result ≡ encode (number_says shown) }
{
    let runtime = shown.runtime;
    match runtime {
        Presence::Absent => plain_words(4, 0),
        Presence::Present => plain_words(49, shown.number),
    }
}

fn state_words(shown: StateShown) -> [u64; 26]
    ensures { result ≡ encode (state_says shown) }
{
    let runtime = shown.runtime;
    let state = shown.state;
    match runtime {
        Presence::Absent => plain_words(4, 0),
        Presence::Present => plain_words(48, state_number(state)),
    }
}

fn config_shown_words(shown: ConfigShown) -> [u64; 26]
    ensures { result ≡ encode (config_says shown) }
{
    let runtime = shown.runtime;
    let config = shown.config;
    match runtime {
        Presence::Absent => plain_words(4, 0),
        Presence::Present => config_words(53, 0, config),
    }
}

fn snapshot_shown_words(shown: SnapshotShown) -> [u64; 26]
    ensures { result ≡ encode (snapshot_says shown) }
{
    let runtime = shown.runtime;
    let snapshot = shown.snapshot;
    match runtime {
        Presence::Absent => plain_words(4, 0),
        Presence::Present => snapshot_words(54, 0, snapshot),
    }
}

// What a slot holds, or none.
fn lease_slot_words(slot: LeaseSlot) -> [u64; 26]
    ensures { result ≡ value_words (OfLease (lease_in slot)) }
{
    let presence = slot.presence;
    let lease = slot.lease;
    match presence {
        Presence::Absent => plain_words(55, 0),
        Presence::Present => lease_words(55, 1, lease),
    }
}

fn lease_shown_words(shown: LeaseShown) -> [u64; 26]
    ensures { result ≡ encode (lease_says shown) }
{
    let runtime = shown.runtime;
    let slot = shown.slot;
    match runtime {
        Presence::Absent => plain_words(4, 0),
        Presence::Present => lease_slot_words(slot),
    }
}

fn capability_value_words(presence: Presence, capability: Capability) -> [u64; 26]
    ensures { result ≡ encode (capability_said presence capability) }
{
    match presence {
        Presence::Absent => plain_words(56, 0),
        Presence::Present => capability_words(56, 1, capability),
    }
}

fn capability_shown_words(shown: CapabilityShown) -> [u64; 26]
    ensures { result ≡ encode (capability_says shown) }
{
    let runtime = shown.runtime;
    let presence = shown.presence;
    let capability = shown.capability;
    match runtime {
        Presence::Absent => plain_words(4, 0),
        Presence::Present => capability_value_words(presence, capability),
    }
}

fn receipt_value_words(presence: Presence, receipt: Receipt) -> [u64; 26]
    ensures { result ≡ encode (receipt_said presence receipt) }
{
    match presence {
        Presence::Absent => plain_words(57, 0),
        Presence::Present => receipt_words(57, 1, receipt),
    }
}

fn receipt_shown_words(shown: ReceiptShown) -> [u64; 26]
    ensures { result ≡ encode (receipt_says shown) }
{
    let runtime = shown.runtime;
    let presence = shown.presence;
    let receipt = shown.receipt;
    match runtime {
        Presence::Absent => plain_words(4, 0),
        Presence::Present => receipt_value_words(presence, receipt),
    }
}

pub fn reading_words(state: &[u64], kind: ReadingKind, words: [u64; 16]) -> [u64; 26]
    requires { Long state.now }
    ensures { RuntimeSound (runtime_in state.now) → ReadsAs state.now result (reading_of kind words) }
{
    match kind {
        ReadingKind::State => state_words(mode(state)),
        ReadingKind::Epoch => number_words(epoch(state)),
        ReadingKind::BootId => number_words(boot_id(state)),
        ReadingKind::Flags => number_words(flags(state)),
        ReadingKind::ReceiptCount => number_words(receipt_count(state)),
        ReadingKind::Config => config_shown_words(config(state)),
        ReadingKind::Snapshot => snapshot_shown_words(snapshot(state)),
        ReadingKind::Lease => lease_shown_words(lease(state, as_u8(words[1]))),
        ReadingKind::CapabilityAt => capability_shown_words(capability(state, words[1] as usize)),
        ReadingKind::ReceiptAt => receipt_shown_words(receipt(state, words[1] as usize)),
    }
}

// records ----------------------------------------------------------------------------------------------------------------

pub fn presence_if(there: bool) -> Presence
    ensures { result ≡ cond there Present Absent }
{
    if there {
        return Presence::Present;
    }
    Presence::Absent
}

fn observed_in(words: [u64; 16]) -> Observed
    ensures { observation_in result ≡ observed_of words }
{
    Observed {
        presence: presence_if(as_bool(words[1])),
        observation: observation_of(words),
    }
}

// A call or a reply.
fn turn(state: &mut [u64], kind: TurnKind, words: [u64; 16]) -> Answer
    requires { Long state.old }
    ensures { Steps state.old state.new result (turn_of kind words) }
{
    match kind {
        TurnKind::Tick => tick(state, words[1]),
        TurnKind::UpdateState => update_state(state, as_u32(words[2]), words[1]),
        TurnKind::EmergencyStop => emergency_stop(state, words[1]),
        TurnKind::PollEstop => poll_estop(state, as_u32(words[2]), words[1]),
        TurnKind::RecoverLocal => recover_local(state, words[1]),
        TurnKind::Acquire => acquire(state, request_of(words), words[1]),
        TurnKind::Renew => renew(state, renewal_of(words)),
        TurnKind::Cancel => cancel(state, words[2], words[3], words[1]),
        TurnKind::Submit => submit(state, submission_of(words)),
        TurnKind::Observed => observed(state, observed_in(words)),
        TurnKind::Executed => executed(state, as_bool(words[1])),
        TurnKind::FellBack => fell_back(state, as_bool(words[1])),
        TurnKind::Recorded => recorded(state),
    }
}

// What a record did. The words of its answer are made once that is over, so that they take no stack beside it.
#[derive(Clone, Copy)]
pub enum Taken {
    Listed,
    Answered(Answer),
    Read(ReadingKind),
    Unread,
}

// A start takes what is listed, and leaves nothing of it.
fn begun(state: &mut [u64], words: [u64; 16]) -> Answer
    requires { Long state.old }
    ensures { Takes state.old state.new (Answered result) words (Starts (config_of words) (word words 1) (word words 2) (u32_at words 3)) }
{
    new(
        state,
        config_of(words),
        words[1],
        words[2],
        as_u32(words[3]),
    )
}

// One record: where it leaves the words.
pub fn take(state: &mut [u64], words: [u64; 16]) -> Taken
    requires { Long state.old }
    ensures { Takes state.old state.new result words (decode words) }
{
    match kind_of(words) {
        Some(RecordKind::Capability) => {
            list(state, capability_of(words));
            Taken::Listed
        }
        Some(RecordKind::Start) => Taken::Answered(begun(state, words)),
        Some(RecordKind::Turn(kind)) => Taken::Answered(turn(state, kind, words)),
        Some(RecordKind::Reading(reading)) => Taken::Read(reading),
        None => Taken::Unread,
    }
}

// .. and what it is answered.
pub fn taken_words(state: &[u64], taken: Taken, words: [u64; 16]) -> [u64; 26]
    requires { Long state.now }
    ensures { Says state.now taken words result }
{
    match taken {
        Taken::Listed => plain_words(1, 0),
        Taken::Answered(answer) => answer_words(state, answer),
        Taken::Read(reading) => reading_words(state, reading, words),
        Taken::Unread => plain_words(64, 0),
    }
}

pub fn step(state: &mut [u64], words: [u64; 16]) -> [u64; 26]
    requires { Long state.old }
    ensures { Goes state.old state.new result (decode words) }
{
    let taken = take(state, words);
    taken_words(state, taken, words)
}
