// A runtime in words that a host in C or Rust lends (docs/HOST.md): the calls, replies and readings of `host_calls`, `host_start`, `host_readings` and
// `host_records` as functions on plain numbers and slices of words. Promises, with no condition: words that are not 2,464 or have another first one are turned away
// and left; lent words are answered whatever they hold; where they are a sound runtime's, they stand where the rules say, and what is told are the rules' outputs.
#![tactic(auto)]

ghost use Rattle.std.specs.Prelude.{◌+◌, ◌*◌, ◌≤◌, ◌≡◌, eqb, is_some, length};
ghost use Rattle.rules.specs.Protocol.{Calls, Tick, UpdateState, EmergencyStop, PollEstop, RecoverLocal, Renew, Cancel, Replies, Observed as ObservedReply, Executed as ExecutedReply, FellBack as FellBackReply, Recorded as RecordedReply, awaited_in, ReadState, ReadEpoch, ReadBootId, ReadFlags, ReadReceiptCount, ReadConfig, ReadSnapshot, ReadLease, ReadCapability, ReadReceipt};
ghost use Rattle.state.specs.declared.Answer.TheVariants as Answered;
ghost use Rattle.cells.specs.Cells.{part};
ghost use Rattle.format.specs.Decode.{Feeds, checked_kind, reading_of, decode};
ghost use Rattle.format.specs.Encode.{encode};
ghost use Rattle.runtime.specs.Stages.{phase_in};
ghost use Rattle.layout.specs.Layout.{Long, runtime_in};
ghost use Rattle.host_records.specs.Standings.{Takes};
ghost use Rattle.host.specs.Host.{fault_of, lack_of, fault_at, number_of, record_with, are_read, are_asked, asked, renewal_with, observed_with, reading_with, ListsAll, Asks, Begins, Wipes, Writes, TellsOf, Tells, ShowsOf, SpeaksOf, item_output, shown_output, Refusal, Records};

use cells::write;
use decide_read::{ItemKind, ItemShown};
use decide_reply::Observed;
use format::{
    ReadingKind, as_u32, capability_of, config_of, execute_words, fallback_words, kind_of,
    lease_words, observe_words, plain_words, receipt_words, request_of, submission_of,
};
use host_calls::{
    acquire, cancel, emergency_stop, executed, fell_back, observed, poll_estop, recorded,
    recover_local, renew, submit, tick, update_state,
};
use host_readings::{answered_lease, answered_receipt, item, refusal};
use host_records::{Taken, presence_if, take, taken_words};
use host_start::{clear, list, new, unlist};
use model::{Observation, Renewal};
use state::Answer;

// The letters ROLTHAI, then the version.
const FIRST: u64 = 0x524f_4c54_4841_4901;

// the words --------------------------------------------------------------------------------------------------------------

fn is_whole(state: &[u64]) -> bool
    ensures { result ≡ eqb (length state.now) 2464 }
{
    state.len() == 2464
}

// What is wrong with lent words: another number of them, or another first one; 0 where nothing is.
fn fault(state: &[u64]) -> u32
    ensures { result ≡ fault_of state.now }
{
    if !is_whole(state) {
        return 65;
    }
    if state[0] != FIRST {
        return 66;
    }
    0
}

// .. or with the room for what a host is told.
fn lack(state: &[u64], out: &[u64]) -> u32
    ensures { result ≡ lack_of state.now out.now }
{
    let fault = fault(state);
    if fault != 0 {
        return fault;
    }
    if out.len() < 26 {
        return 65;
    }
    0
}

fn number_of(answer: Answer) -> u32
    ensures { result ≡ number_of answer }
{
    match answer {
        Answer::Returned => 32,
        Answer::Unraised => 33,
        Answer::Raised => 38,
        Answer::Succeeded => 34,
        Answer::Leased => 35,
        Answer::Refused => 36,
        Answer::Submitted => 37,
        Answer::Item => 20,
        Answer::ReplyAwaited => 111,
        Answer::OtherAwaited => 113,
        Answer::NoReplyAwaited => 112,
        Answer::NoRuntime => 4,
        Answer::Started => 2,
        Answer::InvalidBootId => 101,
        Answer::InvalidConfig => 102,
        Answer::InvalidCapability => 103,
        Answer::DuplicateCapability => 104,
        Answer::StartupFailed => 105,
    }
}

// The first words of a slice, and the kind of record that they are.
fn give(out: &mut [u64], words: [u64; 26]) -> u32
    requires { 26 ≤ length out.old }
    ensures { Writes out.old out.new result words }
{
    write(out, 0, &words);
    as_u32(words[0])
}

// No word is above what its field can hold.
fn is_read(words: [u64; 16]) -> bool
    ensures { result ≡ is_some (checked_kind words) }
{
    kind_of(words).is_some()
}

// How many words a host lends.
pub fn rolthai_size() -> usize
    ensures { result ≡ 2464 }
{
    2464
}

// a start ----------------------------------------------------------------------------------------------------------------

// No runtime, and nothing listed: for a host that steps by records.
pub fn rolthai_clear(state: &mut [u64]) -> u32
    ensures { Wipes state.old state.new result }
{
    if !is_whole(state) {
        return 65;
    }
    state[0] = FIRST;
    clear(state);
    unlist(state);
    0
}

fn capability_record(f: &[u64], at: usize) -> [u64; 16]
    requires { at + 13 ≤ length f.now }
    ensures { result ≡ record_with 1 f.now at 13 }
{
    [
        1,
        f[at + 0],
        f[at + 1],
        f[at + 2],
        f[at + 3],
        f[at + 4],
        f[at + 5],
        f[at + 6],
        f[at + 7],
        f[at + 8],
        f[at + 9],
        f[at + 10],
        f[at + 11],
        f[at + 12],
        0,
        0,
    ]
}

fn start_record(f: &[u64]) -> [u64; 16]
    requires { length f.now ≡ 9 }
    ensures { result ≡ record_with 2 f.now 0 9 }
{
    [
        2, f[0], f[1], f[2], f[3], f[4], f[5], f[6], f[7], f[8], 0, 0, 0, 0, 0, 0,
    ]
}

fn are_read(f: &[u64], count: usize) -> bool
    requires { 13 * count ≤ length f.now }
    ensures { result ≡ are_read f.now count }
{
    let mut i: usize = 0;
    while i < count {
        if !is_read(capability_record(f, 13 * i)) {
            return false;
        }
        i = i + 1;
    }
    true
}

fn are_asked(start: &[u64], capabilities: &[u64]) -> bool
    ensures { result ≡ are_asked start.now capabilities.now }
{
    if start.len() != 9 {
        return false;
    }
    if !is_read(start_record(start)) {
        return false;
    }
    if capabilities.len() % 13 != 0 {
        return false;
    }
    are_read(capabilities, capabilities.len() / 13)
}

fn list_all(state: &mut [u64], f: &[u64], count: usize)
    requires { Long state.old × (13 * count ≤ length f.now) }
    ensures { ListsAll state.old state.new f.now count }
{
    let mut i: usize = 0;
    while i < count {
        let words = capability_record(f, 13 * i);
        list(state, capability_of(words));
        i = i + 1;
    }
}

// A runtime from the words of a start (words 1 to 9 of its record) and of its capabilities (words 1 to 13 of each), whatever the lent words were.
pub fn rolthai_new(state: &mut [u64], start: &[u64], capabilities: &[u64]) -> u32
    ensures { Begins state.old state.new result start.now capabilities.now }
{
    if !is_whole(state) {
        return 65;
    }
    if !are_asked(start, capabilities) {
        return 64;
    }
    let words = start_record(start);
    state[0] = FIRST;
    unlist(state);
    list_all(state, capabilities, capabilities.len() / 13);
    let answer = new(
        state,
        config_of(words),
        words[1],
        words[2],
        as_u32(words[3]),
    );
    number_of(answer)
}

// calls ------------------------------------------------------------------------------------------------------------------

pub fn rolthai_tick(state: &mut [u64], time: u64) -> u32
    ensures { Asks state.old state.new result (Feeds (Calls (Tick time))) }
{
    let fault = fault(state);
    if fault != 0 {
        return fault;
    }
    number_of(tick(state, time))
}

pub fn rolthai_update_state(state: &mut [u64], flags: u32, time: u64) -> u32
    ensures { Asks state.old state.new result (Feeds (Calls (UpdateState flags time))) }
{
    let fault = fault(state);
    if fault != 0 {
        return fault;
    }
    number_of(update_state(state, flags, time))
}

pub fn rolthai_emergency_stop(state: &mut [u64], time: u64) -> u32
    ensures { Asks state.old state.new result (Feeds (Calls (EmergencyStop time))) }
{
    let fault = fault(state);
    if fault != 0 {
        return fault;
    }
    number_of(emergency_stop(state, time))
}

pub fn rolthai_poll_estop(state: &mut [u64], raised: u32, time: u64) -> u32
    ensures { Asks state.old state.new result (Feeds (Calls (PollEstop raised time))) }
{
    let fault = fault(state);
    if fault != 0 {
        return fault;
    }
    number_of(poll_estop(state, raised, time))
}

pub fn rolthai_recover_local(state: &mut [u64], time: u64) -> u32
    ensures { Asks state.old state.new result (Feeds (Calls (RecoverLocal time))) }
{
    let fault = fault(state);
    if fault != 0 {
        return fault;
    }
    number_of(recover_local(state, time))
}

// No word of a slice of 9 is above what its field can hold.
fn is_request(f: &[u64]) -> bool
    requires { length f.now ≡ 9 }
    ensures { result ≡ is_some (checked_kind (record_with 21 f.now 0 9)) }
{
    if f[2] > 255 {
        return false;
    }
    if f[4] > 4294967295 {
        return false;
    }
    if f[5] > 4294967295 {
        return false;
    }
    if f[6] > 4294967295 {
        return false;
    }
    if f[7] > 4294967295 {
        return false;
    }
    f[8] <= 4294967295
}

fn acquire_record(f: &[u64]) -> [u64; 16]
    requires { length f.now ≡ 9 }
    ensures { result ≡ record_with 21 f.now 0 9 }
{
    [
        21, f[0], f[1], f[2], f[3], f[4], f[5], f[6], f[7], f[8], 0, 0, 0, 0, 0, 0,
    ]
}

// Words 1 to 9 of its record.
pub fn rolthai_acquire(state: &mut [u64], request: &[u64]) -> u32
    ensures { Asks state.old state.new result (asked 21 9 request.now) }
{
    let fault = fault(state);
    if fault != 0 {
        return fault;
    }
    if request.len() != 9 {
        return 64;
    }
    if !is_request(request) {
        return 64;
    }
    let words = acquire_record(request);
    number_of(acquire(state, request_of(words), words[1]))
}

pub fn rolthai_renew(
    state: &mut [u64],
    owner: u64,
    lease: u64,
    renewal: u64,
    duration_ms: u32,
    time: u64,
) -> u32
    ensures { Asks state.old state.new result (Feeds (Calls (Renew (renewal_with owner lease renewal duration_ms time)))) }
{
    let fault = fault(state);
    if fault != 0 {
        return fault;
    }
    let asked = Renewal {
        now: time,
        owner: owner,
        lease_id: lease,
        renewal: renewal,
        duration_ms: duration_ms,
    };
    number_of(renew(state, asked))
}

pub fn rolthai_cancel(state: &mut [u64], owner: u64, lease: u64, time: u64) -> u32
    ensures { Asks state.old state.new result (Feeds (Calls (Cancel owner lease time))) }
{
    let fault = fault(state);
    if fault != 0 {
        return fault;
    }
    number_of(cancel(state, owner, lease, time))
}

// .. of a slice of 15
fn is_order(f: &[u64]) -> bool
    requires { length f.now ≡ 15 }
    ensures { result ≡ is_some (checked_kind (record_with 24 f.now 0 15)) }
{
    if f[8] > 65535 {
        return false;
    }
    if f[12] > 4294967295 {
        return false;
    }
    if f[13] > 4294967295 {
        return false;
    }
    f[14] <= 4294967295
}

fn submit_record(f: &[u64]) -> [u64; 16]
    requires { length f.now ≡ 15 }
    ensures { result ≡ record_with 24 f.now 0 15 }
{
    [
        24, f[0], f[1], f[2], f[3], f[4], f[5], f[6], f[7], f[8], f[9], f[10], f[11], f[12], f[13],
        f[14],
    ]
}

// Words 1 to 15 of its record.
pub fn rolthai_submit(state: &mut [u64], order: &[u64]) -> u32
    ensures { Asks state.old state.new result (asked 24 15 order.now) }
{
    let fault = fault(state);
    if fault != 0 {
        return fault;
    }
    if order.len() != 15 {
        return 64;
    }
    if !is_order(order) {
        return 64;
    }
    let words = submit_record(order);
    number_of(submit(state, submission_of(words)))
}

// replies of the driver --------------------------------------------------------------------------------------------------

// With `ok` false the values and the sensed state are not read.
pub fn rolthai_observed(state: &mut [u64], ok: bool, value0: i32, value1: i32, sensed: u32) -> u32
    ensures { Asks state.old state.new result (Feeds (Replies (ObservedReply (observed_with ok value0 value1 sensed)))) }
{
    let fault = fault(state);
    if fault != 0 {
        return fault;
    }
    let observation = Observation {
        parameters: [value0, value1],
        state: sensed,
    };
    let reply = Observed {
        presence: presence_if(ok),
        observation: observation,
    };
    number_of(observed(state, reply))
}

pub fn rolthai_executed(state: &mut [u64], ok: bool) -> u32
    ensures { Asks state.old state.new result (Feeds (Replies (ExecutedReply ok))) }
{
    let fault = fault(state);
    if fault != 0 {
        return fault;
    }
    number_of(executed(state, ok))
}

pub fn rolthai_fell_back(state: &mut [u64], ok: bool) -> u32
    ensures { Asks state.old state.new result (Feeds (Replies (FellBackReply ok))) }
{
    let fault = fault(state);
    if fault != 0 {
        return fault;
    }
    number_of(fell_back(state, ok))
}

pub fn rolthai_recorded(state: &mut [u64]) -> u32
    ensures { Asks state.old state.new result (Feeds (Replies RecordedReply)) }
{
    let fault = fault(state);
    if fault != 0 {
        return fault;
    }
    number_of(recorded(state))
}

// what a host is told ----------------------------------------------------------------------------------------------------

fn item_shown_words(shown: ItemShown) -> [u64; 26]
    ensures { result ≡ encode (shown_output shown) }
{
    let kind = shown.kind;
    let reason = shown.reason;
    let parameters = shown.parameters;
    let receipt = shown.receipt;
    match kind {
        ItemKind::Nothing => plain_words(5, 112),
        ItemKind::Observe => observe_words(0, shown.axis),
        ItemKind::Execute => execute_words(0, shown.capability, parameters),
        ItemKind::Fallback => fallback_words(0, shown.axis, reason),
        ItemKind::Record => receipt_words(19, 0, receipt),
    }
}

// The item whose reply is awaited: a record of kind 16 to 19, or 5 with 112.
pub fn rolthai_item(state: &[u64], out: &mut [u64]) -> u32
    ensures { Tells state.now out.old out.new result (item_output (awaited_in (phase_in (runtime_in state.now)))) }
{
    let lack = lack(state, out);
    if lack != 0 {
        return lack;
    }
    give(out, item_shown_words(item(state)))
}

// What `Leased`, `Submitted` and `Refused` speak of, right after that answer.
pub fn rolthai_answered_lease(state: &[u64], out: &mut [u64]) -> u32
    ensures { SpeaksOf state.now out.old out.new result Answered.Leased }
{
    let lack = lack(state, out);
    if lack != 0 {
        return lack;
    }
    give(out, lease_words(35, 0, answered_lease(state)))
}

pub fn rolthai_answered_receipt(state: &[u64], out: &mut [u64]) -> u32
    ensures { SpeaksOf state.now out.old out.new result Answered.Submitted }
{
    let lack = lack(state, out);
    if lack != 0 {
        return lack;
    }
    give(out, receipt_words(37, 0, answered_receipt(state)))
}

pub fn rolthai_refusal(state: &[u64]) -> u32
    ensures { Refusal state.now result }
{
    let fault = fault(state);
    if fault != 0 {
        return fault;
    }
    let reason = refusal(state);
    u32::from(u16::from(reason))
}

// records ----------------------------------------------------------------------------------------------------------------

// A record's answer in words, the first of `out`, and its kind.
fn tell(state: &[u64], taken: Taken, words: &[u64], out: &mut [u64]) -> u32
    requires { Long state.now × (16 ≤ length words.now) × (26 ≤ length out.old) }
    ensures { TellsOf state.now taken (part words.now 0 16) out.old out.new result }
{
    give(out, taken_words(state, taken, cells::read(words, 0)))
}

// readings ---------------------------------------------------------------------------------------------------------------

fn read(state: &[u64], out: &mut [u64], kind: ReadingKind, argument: u64) -> u32
    ensures { ShowsOf state.now out.old out.new result (reading_of kind (reading_with argument)) }
{
    let lack = lack(state, out);
    if lack != 0 {
        return lack;
    }
    let words = [0, argument, 0, 0, 0, 0, 0, 0, 0, 0, 0, 0, 0, 0, 0, 0];
    tell(state, Taken::Read(kind), &words, out)
}

pub fn rolthai_state(state: &[u64], out: &mut [u64]) -> u32
    ensures { ShowsOf state.now out.old out.new result ReadState }
{
    read(state, out, ReadingKind::State, 0)
}

pub fn rolthai_epoch(state: &[u64], out: &mut [u64]) -> u32
    ensures { ShowsOf state.now out.old out.new result ReadEpoch }
{
    read(state, out, ReadingKind::Epoch, 0)
}

pub fn rolthai_boot_id(state: &[u64], out: &mut [u64]) -> u32
    ensures { ShowsOf state.now out.old out.new result ReadBootId }
{
    read(state, out, ReadingKind::BootId, 0)
}

pub fn rolthai_flags(state: &[u64], out: &mut [u64]) -> u32
    ensures { ShowsOf state.now out.old out.new result ReadFlags }
{
    read(state, out, ReadingKind::Flags, 0)
}

pub fn rolthai_receipt_count(state: &[u64], out: &mut [u64]) -> u32
    ensures { ShowsOf state.now out.old out.new result ReadReceiptCount }
{
    read(state, out, ReadingKind::ReceiptCount, 0)
}

pub fn rolthai_config(state: &[u64], out: &mut [u64]) -> u32
    ensures { ShowsOf state.now out.old out.new result ReadConfig }
{
    read(state, out, ReadingKind::Config, 0)
}

pub fn rolthai_snapshot(state: &[u64], out: &mut [u64]) -> u32
    ensures { ShowsOf state.now out.old out.new result ReadSnapshot }
{
    read(state, out, ReadingKind::Snapshot, 0)
}

pub fn rolthai_lease(state: &[u64], axis: u8, out: &mut [u64]) -> u32
    ensures { ShowsOf state.now out.old out.new result (ReadLease axis) }
{
    read(state, out, ReadingKind::Lease, axis as u64)
}

pub fn rolthai_capability(state: &[u64], index: u64, out: &mut [u64]) -> u32
    ensures { ShowsOf state.now out.old out.new result (ReadCapability index) }
{
    read(state, out, ReadingKind::CapabilityAt, index)
}

pub fn rolthai_receipt(state: &[u64], index: u64, out: &mut [u64]) -> u32
    ensures { ShowsOf state.now out.old out.new result (ReadReceipt index) }
{
    read(state, out, ReadingKind::ReceiptAt, index)
}

// one record -------------------------------------------------------------------------------------------------------------

fn fault_at(state: &[u64], words: &[u64], out: &[u64]) -> u32
    ensures { result ≡ fault_at state.now words.now out.now }
{
    let lack = lack(state, out);
    if lack != 0 {
        return lack;
    }
    if words.len() != 16 {
        return 64;
    }
    0
}

// In a function of its own, so that the words of the record take stack only in it.
fn taken(state: &mut [u64], words: &[u64]) -> Taken
    requires { Long state.old × (16 ≤ length words.now) }
    ensures { Takes state.old state.new result (part words.now 0 16) (decode (part words.now 0 16)) }
{
    take(state, cells::read(words, 0))
}

// One record of docs/WIRE.md: 16 words in, 26 out.
pub fn rolthai_step(state: &mut [u64], words: &[u64], out: &mut [u64]) -> u32
    ensures { Records state.old state.new words.now out.old out.new result }
{
    let fault = fault_at(state, words, out);
    if fault != 0 {
        return fault;
    }
    let did = taken(state, words);
    tell(state, did, words, out)
}
