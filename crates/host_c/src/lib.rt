// The functions of `host` as C calls them (docs/HOST.md), each with the clauses that it has in `host`. Written by tools/exports.
#![tactic(auto)]

ghost use Rattle.std.specs.Prelude.{◌≡◌};
ghost use Rattle.rules.specs.Protocol.{Calls, Tick, UpdateState, EmergencyStop, PollEstop, RecoverLocal, Renew, Cancel, Replies, Observed as ObservedReply, Executed as ExecutedReply, FellBack as FellBackReply, Recorded as RecordedReply, awaited_in, ReadState, ReadEpoch, ReadBootId, ReadFlags, ReadReceiptCount, ReadConfig, ReadSnapshot, ReadLease, ReadCapability, ReadReceipt};
ghost use Rattle.state.specs.declared.Answer.TheVariants as Answered;
ghost use Rattle.format.specs.Decode.{Feeds};
ghost use Rattle.runtime.specs.Stages.{phase_in};
ghost use Rattle.layout.specs.Layout.{runtime_in};
ghost use Rattle.host.specs.Host.{asked, renewal_with, observed_with, Asks, Begins, Wipes, Tells, ShowsOf, SpeaksOf, item_output, Refusal, Records};

#[unsafe(no_mangle)]
pub extern "C" fn rolthai_size() -> usize
    ensures { result ≡ 2464 }
{
    host::rolthai_size()
}

#[unsafe(no_mangle)]
pub extern "C" fn rolthai_clear(state: &mut [u64]) -> u32
    ensures { Wipes state.old state.new result }
{
    host::rolthai_clear(state)
}

#[unsafe(no_mangle)]
pub extern "C" fn rolthai_new(state: &mut [u64], start: &[u64], capabilities: &[u64]) -> u32
    ensures { Begins state.old state.new result start.now capabilities.now }
{
    host::rolthai_new(state, start, capabilities)
}

#[unsafe(no_mangle)]
pub extern "C" fn rolthai_tick(state: &mut [u64], time: u64) -> u32
    ensures { Asks state.old state.new result (Feeds (Calls (Tick time))) }
{
    host::rolthai_tick(state, time)
}

#[unsafe(no_mangle)]
pub extern "C" fn rolthai_update_state(state: &mut [u64], flags: u32, time: u64) -> u32
    ensures { Asks state.old state.new result (Feeds (Calls (UpdateState flags time))) }
{
    host::rolthai_update_state(state, flags, time)
}

#[unsafe(no_mangle)]
pub extern "C" fn rolthai_emergency_stop(state: &mut [u64], time: u64) -> u32
    ensures { Asks state.old state.new result (Feeds (Calls (EmergencyStop time))) }
{
    host::rolthai_emergency_stop(state, time)
}

#[unsafe(no_mangle)]
pub extern "C" fn rolthai_poll_estop(state: &mut [u64], raised: u32, time: u64) -> u32
    ensures { Asks state.old state.new result (Feeds (Calls (PollEstop raised time))) }
{
    host::rolthai_poll_estop(state, raised, time)
}

#[unsafe(no_mangle)]
pub extern "C" fn rolthai_recover_local(state: &mut [u64], time: u64) -> u32
    ensures { Asks state.old state.new result (Feeds (Calls (RecoverLocal time))) }
{
    host::rolthai_recover_local(state, time)
}

#[unsafe(no_mangle)]
pub extern "C" fn rolthai_acquire(state: &mut [u64], request: &[u64]) -> u32
    ensures { Asks state.old state.new result (asked 21 9 request.now) }
{
    host::rolthai_acquire(state, request)
}

#[unsafe(no_mangle)]
pub extern "C" fn rolthai_renew(
    state: &mut [u64],
    owner: u64,
    lease: u64,
    renewal: u64,
    duration_ms: u32,
    time: u64,
) -> u32
    ensures { Asks state.old state.new result (Feeds (Calls (Renew (renewal_with owner lease renewal duration_ms time)))) }
{
    host::rolthai_renew(state, owner, lease, renewal, duration_ms, time)
}

#[unsafe(no_mangle)]
pub extern "C" fn rolthai_cancel(state: &mut [u64], owner: u64, lease: u64, time: u64) -> u32
    ensures { Asks state.old state.new result (Feeds (Calls (Cancel owner lease time))) }
{
    host::rolthai_cancel(state, owner, lease, time)
}

#[unsafe(no_mangle)]
pub extern "C" fn rolthai_submit(state: &mut [u64], order: &[u64]) -> u32
    ensures { Asks state.old state.new result (asked 24 15 order.now) }
{
    host::rolthai_submit(state, order)
}

#[unsafe(no_mangle)]
pub extern "C" fn rolthai_observed(
    state: &mut [u64],
    ok: bool,
    value0: i32,
    value1: i32,
    sensed: u32,
) -> u32
    ensures { Asks state.old state.new result (Feeds (Replies (ObservedReply (observed_with ok value0 value1 sensed)))) }
{
    host::rolthai_observed(state, ok, value0, value1, sensed)
}

#[unsafe(no_mangle)]
pub extern "C" fn rolthai_executed(state: &mut [u64], ok: bool) -> u32
    ensures { Asks state.old state.new result (Feeds (Replies (ExecutedReply ok))) }
{
    host::rolthai_executed(state, ok)
}

#[unsafe(no_mangle)]
pub extern "C" fn rolthai_fell_back(state: &mut [u64], ok: bool) -> u32
    ensures { Asks state.old state.new result (Feeds (Replies (FellBackReply ok))) }
{
    host::rolthai_fell_back(state, ok)
}

#[unsafe(no_mangle)]
pub extern "C" fn rolthai_recorded(state: &mut [u64]) -> u32
    ensures { Asks state.old state.new result (Feeds (Replies RecordedReply)) }
{
    host::rolthai_recorded(state)
}

#[unsafe(no_mangle)]
pub extern "C" fn rolthai_item(state: &[u64], out: &mut [u64]) -> u32
    ensures { Tells state.now out.old out.new result (item_output (awaited_in (phase_in (runtime_in state.now)))) }
{
    host::rolthai_item(state, out)
}

#[unsafe(no_mangle)]
pub extern "C" fn rolthai_answered_lease(state: &[u64], out: &mut [u64]) -> u32
    ensures { SpeaksOf state.now out.old out.new result Answered.Leased }
{
    host::rolthai_answered_lease(state, out)
}

#[unsafe(no_mangle)]
pub extern "C" fn rolthai_answered_receipt(state: &[u64], out: &mut [u64]) -> u32
    ensures { SpeaksOf state.now out.old out.new result Answered.Submitted }
{
    host::rolthai_answered_receipt(state, out)
}

#[unsafe(no_mangle)]
pub extern "C" fn rolthai_refusal(state: &[u64]) -> u32
    ensures { Refusal state.now result }
{
    host::rolthai_refusal(state)
}

#[unsafe(no_mangle)]
pub extern "C" fn rolthai_state(state: &[u64], out: &mut [u64]) -> u32
    ensures { ShowsOf state.now out.old out.new result ReadState }
{
    host::rolthai_state(state, out)
}

#[unsafe(no_mangle)]
pub extern "C" fn rolthai_epoch(state: &[u64], out: &mut [u64]) -> u32
    ensures { ShowsOf state.now out.old out.new result ReadEpoch }
{
    host::rolthai_epoch(state, out)
}

#[unsafe(no_mangle)]
pub extern "C" fn rolthai_boot_id(state: &[u64], out: &mut [u64]) -> u32
    ensures { ShowsOf state.now out.old out.new result ReadBootId }
{
    host::rolthai_boot_id(state, out)
}

#[unsafe(no_mangle)]
pub extern "C" fn rolthai_flags(state: &[u64], out: &mut [u64]) -> u32
    ensures { ShowsOf state.now out.old out.new result ReadFlags }
{
    host::rolthai_flags(state, out)
}

#[unsafe(no_mangle)]
pub extern "C" fn rolthai_receipt_count(state: &[u64], out: &mut [u64]) -> u32
    ensures { ShowsOf state.now out.old out.new result ReadReceiptCount }
{
    host::rolthai_receipt_count(state, out)
}

#[unsafe(no_mangle)]
pub extern "C" fn rolthai_config(state: &[u64], out: &mut [u64]) -> u32
    ensures { ShowsOf state.now out.old out.new result ReadConfig }
{
    host::rolthai_config(state, out)
}

#[unsafe(no_mangle)]
pub extern "C" fn rolthai_snapshot(state: &[u64], out: &mut [u64]) -> u32
    ensures { ShowsOf state.now out.old out.new result ReadSnapshot }
{
    host::rolthai_snapshot(state, out)
}

#[unsafe(no_mangle)]
pub extern "C" fn rolthai_lease(state: &[u64], axis: u8, out: &mut [u64]) -> u32
    ensures { ShowsOf state.now out.old out.new result (ReadLease axis) }
{
    host::rolthai_lease(state, axis, out)
}

#[unsafe(no_mangle)]
pub extern "C" fn rolthai_capability(state: &[u64], index: u64, out: &mut [u64]) -> u32
    ensures { ShowsOf state.now out.old out.new result (ReadCapability index) }
{
    host::rolthai_capability(state, index, out)
}

#[unsafe(no_mangle)]
pub extern "C" fn rolthai_receipt(state: &[u64], index: u64, out: &mut [u64]) -> u32
    ensures { ShowsOf state.now out.old out.new result (ReadReceipt index) }
{
    host::rolthai_receipt(state, index, out)
}

#[unsafe(no_mangle)]
pub extern "C" fn rolthai_step(state: &mut [u64], words: &[u64], out: &mut [u64]) -> u32
    ensures { Records state.old state.new words.now out.old out.new result }
{
    host::rolthai_step(state, words, out)
}
