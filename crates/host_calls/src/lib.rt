// The runtime's calls and replies over lent words (crate `runtime`, "calls" and "replies of the driver"): who is heard. Promises: whatever the words hold,
// as many and the same first one; where they are a sound runtime's, its start included, they stand where the rules say, and what is turned away leaves
// every word. Rests on `host_steps`, `host_replies` and `decide_start`.
#![tactic(auto)]

ghost use Rattle.rules.specs.Protocol.{begin as begin_rule, start_from, Calls, Tick, UpdateState, EmergencyStop, PollEstop, RecoverLocal, Acquire, Renew, Cancel, Submit};
ghost use Rattle.state.specs.Axes.{used_from};
ghost use Rattle.state.specs.declared.Awaited.TheVariants.{Nothing};
ghost use Rattle.runtime.specs.Stages.{start_in, trying_in, Opened, Tries};
ghost use Rattle.host_calls.specs.Calls.{Steps, Tried};
ghost use Rattle.std.specs.Prelude.{◌≤◌, ◌≡◌};
ghost use Rattle.rules.specs.Protocol.{proceed, react, Replies, Observed as ObservedReply, Executed as ExecutedReply, FellBack as FellBackReply, Recorded as RecordedReply};
ghost use Rattle.decide_reply.specs.Replies.{observation_in};
ghost use Rattle.runtime.specs.Promises.{Good};
ghost use Rattle.runtime.specs.Runtimes.{tables_in, book_on};
ghost use Rattle.layout.specs.Layout.{Long, runtime_in};
ghost use Rattle.layout.specs.Promises.{Goes};

use decide_flags::is_seen;
use decide_reply::Observed;
use decide_start::{Stage, is_started, may_begin, still_good, tried, turned_away, unheard};
use decide_tick::Begun;
use host_replies::{executed_on, fell_back_on, observed_on, recorded_on};
use host_steps::{begin, cancel_on, conclude, poll, run, stop, supervise};
use layout::{
    falling_in, fixed_in, numbers_in, put_falling, put_pending, put_renewal, put_request,
    put_starting, put_submission, put_waiting, starting_in, waiting_in,
};
use model::{LeaseRequest, Renewal, Submission};
use runtime::asking;
use state::{Answer, CallKind, first_used};

// calls ----------------------------------------------------------------------------------------------------------------

// A tick in its own right: where it is quiet, two numbers are stored and no more.
fn tick_on(state: &mut [u64], time: u64) -> Answer
    requires { Long state.old }
    ensures { Goes state.old state.new result (Good (runtime_in state.old) × ((runtime_in state.old).waiting.awaited ≡ Nothing)) (proceed (begin_rule (Tick time) (book_on (runtime_in state.old)))) }
{
    let begun = begin(state, time);
    match begun {
        Begun::Quiet => Answer::Returned,
        Begun::Busy => {
            put_pending(state, asking(CallKind::Tick, 0, time, 0, 0));
            let onward = supervise(state, time);
            conclude(state, onward)
        }
    }
}

pub fn tick(state: &mut [u64], time: u64) -> Answer
    requires { Long state.old }
    ensures { Steps state.old state.new result (Calls (Tick time)) }
{
    let starting = starting_in(state);
    let waiting = waiting_in(state);
    if may_begin(starting, waiting) {
        return tick_on(state, time);
    }
    turned_away(starting)
}

pub fn update_state(state: &mut [u64], flags: u32, time: u64) -> Answer
    requires { Long state.old }
    ensures { Steps state.old state.new result (Calls (UpdateState flags time)) }
{
    let starting = starting_in(state);
    let waiting = waiting_in(state);
    if may_begin(starting, waiting) {
        put_pending(state, asking(CallKind::UpdateState, flags, time, 0, 0));
        return run(state, time);
    }
    turned_away(starting)
}

pub fn emergency_stop(state: &mut [u64], time: u64) -> Answer
    requires { Long state.old }
    ensures { Steps state.old state.new result (Calls (EmergencyStop time)) }
{
    let starting = starting_in(state);
    let waiting = waiting_in(state);
    if may_begin(starting, waiting) {
        return stop(state, time);
    }
    turned_away(starting)
}

// A poll of an idle runtime: the raise number last seen alters nothing.
fn poll_on(state: &mut [u64], raised: u32, time: u64) -> Answer
    requires { Long state.old }
    ensures { Goes state.old state.new result (Good (runtime_in state.old) × ((runtime_in state.old).waiting.awaited ≡ Nothing)) (proceed (begin_rule (PollEstop raised time) (book_on (runtime_in state.old)))) }
{
    let numbers = numbers_in(state);
    if is_seen(numbers.estop_seen, raised) {
        return Answer::Unraised;
    }
    poll(state, raised, time)
}

pub fn poll_estop(state: &mut [u64], raised: u32, time: u64) -> Answer
    requires { Long state.old }
    ensures { Steps state.old state.new result (Calls (PollEstop raised time)) }
{
    let starting = starting_in(state);
    let waiting = waiting_in(state);
    if may_begin(starting, waiting) {
        return poll_on(state, raised, time);
    }
    turned_away(starting)
}

pub fn recover_local(state: &mut [u64], time: u64) -> Answer
    requires { Long state.old }
    ensures { Steps state.old state.new result (Calls (RecoverLocal time)) }
{
    let starting = starting_in(state);
    let waiting = waiting_in(state);
    if may_begin(starting, waiting) {
        put_pending(state, asking(CallKind::RecoverLocal, 0, time, 0, 0));
        return run(state, time);
    }
    turned_away(starting)
}

pub fn acquire(state: &mut [u64], request: LeaseRequest, time: u64) -> Answer
    requires { Long state.old }
    ensures { Steps state.old state.new result (Calls (Acquire request time)) }
{
    let starting = starting_in(state);
    let waiting = waiting_in(state);
    if may_begin(starting, waiting) {
        put_request(state, request);
        put_pending(state, asking(CallKind::Acquire, 0, time, 0, 0));
        return run(state, time);
    }
    turned_away(starting)
}

pub fn renew(state: &mut [u64], renewal: Renewal) -> Answer
    requires { Long state.old }
    ensures { Steps state.old state.new result (Calls (Renew renewal)) }
{
    let starting = starting_in(state);
    let waiting = waiting_in(state);
    let time = renewal.now;
    if may_begin(starting, waiting) {
        put_renewal(state, renewal);
        put_pending(state, asking(CallKind::Renew, 0, time, 0, 0));
        return run(state, time);
    }
    turned_away(starting)
}

// A cancel in its own right: by trial faster than through `run`.
fn begin_cancel(state: &mut [u64], owner: u64, lease: u64, time: u64) -> Answer
    requires { Long state.old }
    ensures { Goes state.old state.new result (Good (runtime_in state.old)) (proceed (begin_rule (Cancel owner lease time) (book_on (runtime_in state.old)))) }
{
    let begun = begin(state, time);
    match begun {
        Begun::Quiet => cancel_on(state, owner, lease, time),
        Begun::Busy => {
            put_pending(state, asking(CallKind::Cancel, 0, time, owner, lease));
            let onward = supervise(state, time);
            conclude(state, onward)
        }
    }
}

pub fn cancel(state: &mut [u64], owner: u64, lease: u64, time: u64) -> Answer
    requires { Long state.old }
    ensures { Steps state.old state.new result (Calls (Cancel owner lease time)) }
{
    let starting = starting_in(state);
    let waiting = waiting_in(state);
    if may_begin(starting, waiting) {
        return begin_cancel(state, owner, lease, time);
    }
    turned_away(starting)
}

pub fn submit(state: &mut [u64], submission: Submission) -> Answer
    requires { Long state.old }
    ensures { Steps state.old state.new result (Calls (Submit submission)) }
{
    let starting = starting_in(state);
    let waiting = waiting_in(state);
    let time = submission.now;
    if may_begin(starting, waiting) {
        put_submission(state, submission);
        put_pending(state, asking(CallKind::Submit, 0, time, 0, 0));
        return run(state, time);
    }
    turned_away(starting)
}

// replies of the driver ------------------------------------------------------------------------------------------------

pub fn observed(state: &mut [u64], reply: Observed) -> Answer
    requires { Long state.old }
    ensures { Steps state.old state.new result (Replies (ObservedReply (observation_in reply))) }
{
    let starting = starting_in(state);
    if is_started(starting) {
        return observed_on(state, reply);
    }
    unheard(starting)
}

pub fn executed(state: &mut [u64], ok: bool) -> Answer
    requires { Long state.old }
    ensures { Steps state.old state.new result (Replies (ExecutedReply ok)) }
{
    let starting = starting_in(state);
    if is_started(starting) {
        return executed_on(state, ok);
    }
    unheard(starting)
}

// The startup fallback on the first used axis from one on; past the last of them the start is over.
fn try_from(state: &mut [u64], from: u8, good: bool) -> Answer
    requires { Long state.old × (from ≤ 8) }
    ensures { Tried state.old state.new result (Opened (runtime_in state.old)) (start_from (start_in (runtime_in state.old)) (used_from (tables_in (runtime_in state.old)).capabilities from) good) }
{
    let fixed = fixed_in(state);
    let used = fixed.used;
    let axis = first_used(used, from);
    let trial = tried(axis, good);
    let starting = trial.starting;
    let waiting = trial.waiting;
    let answer = trial.answer;
    let mut falling = falling_in(state);
    falling.axis = trial.axis;
    put_starting(state, starting);
    put_waiting(state, waiting);
    put_falling(state, falling);
    answer
}

// The reply to a startup fallback: the next used axis, even after a failure.
fn try_next(state: &mut [u64], ok: bool) -> Answer
    requires { Long state.old }
    ensures { Tried state.old state.new result (Tries (runtime_in state.old)) (react (trying_in (runtime_in state.old)) (Replies (FellBackReply ok))) }
{
    let falling = falling_in(state);
    let starting = starting_in(state);
    let good = still_good(starting.good, ok);
    try_from(state, falling.axis + 1, good)
}

// Of a startup fallback too: the last one's ends the start.
pub fn fell_back(state: &mut [u64], ok: bool) -> Answer
    requires { Long state.old }
    ensures { Steps state.old state.new result (Replies (FellBackReply ok)) }
{
    let starting = starting_in(state);
    let stage = starting.stage;
    match stage {
        Stage::Trying => try_next(state, ok),
        Stage::Gone => Answer::NoReplyAwaited,
        Stage::Started => fell_back_on(state, ok),
    }
}

pub fn recorded(state: &mut [u64]) -> Answer
    requires { Long state.old }
    ensures { Steps state.old state.new result (Replies RecordedReply) }
{
    let starting = starting_in(state);
    if is_started(starting) {
        return recorded_on(state);
    }
    unheard(starting)
}
