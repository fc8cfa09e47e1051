// What tools/speed times over one lent runtime, beside the Rust: a loop for each row of its table, and every other public function once, so that all of
// them are compiled. A static library. Promises no more than that each function ends, and that what it gives to `runtime` is what that asks for.
// Rests on `runtime`.
#![tactic(auto)]

ghost use Rattle.runtime.specs.Stages.{RuntimeSound};

use decide_reply::Observed;
use model::profile::capabilities;
use model::{
    Action, Bounds, Capability, Config, LeaseRequest, Observation, Presence, Renewal, RuntimeState,
    Submission,
};
use runtime::Runtime;

fn config(limit: u16) -> Config {
    let given = Config::default();
    Config {
        watchdog_ms: given.watchdog_ms,
        state_ttl_ms: given.state_ttl_ms,
        max_lease_ms: given.max_lease_ms,
        max_valid_for_ms: given.max_valid_for_ms,
        invalid_limit: limit,
        estop_mask: given.estop_mask,
    }
}

fn request(axis: u8, allowed: u64, duration: u32) -> LeaseRequest {
    LeaseRequest {
        owner: 7,
        resource: axis,
        capabilities: allowed,
        duration_ms: duration,
        limits: [Bounds::ANY; 2],
    }
}

fn order(number: u64, capability: u16) -> Submission {
    Submission {
        action: Action {
            boot_id: 1,
            requester: 7,
            lease_id: 1,
            action_id: number,
            sequence: number,
            capability: capability,
            based_on_epoch: 2,
            execute_after: 0,
            deadline: 100,
            valid_for_ms: 100,
            parameters: [5, 6],
        },
        principal: 7,
        received_at: 1,
        now: 1,
    }
}

fn seen() -> Observed {
    Observed {
        presence: Presence::Present,
        observation: Observation {
            parameters: [5, 6],
            state: 0,
        },
    }
}

// calls and replies, whose answers are not looked at ---------------------------------------------------------------------------

fn tick(rt: &mut Runtime, time: u64)
    requires { RuntimeSound rt.old }
    ensures { RuntimeSound rt.new }
{
    runtime::tick(rt, time);
}

fn update_state(rt: &mut Runtime, flags: u32, time: u64)
    requires { RuntimeSound rt.old }
    ensures { RuntimeSound rt.new }
{
    runtime::update_state(rt, flags, time);
}

fn emergency_stop(rt: &mut Runtime, time: u64)
    requires { RuntimeSound rt.old }
    ensures { RuntimeSound rt.new }
{
    runtime::emergency_stop(rt, time);
}

fn poll_estop(rt: &mut Runtime, raised: u32, time: u64)
    requires { RuntimeSound rt.old }
    ensures { RuntimeSound rt.new }
{
    runtime::poll_estop(rt, raised, time);
}

fn recover_local(rt: &mut Runtime, time: u64)
    requires { RuntimeSound rt.old }
    ensures { RuntimeSound rt.new }
{
    runtime::recover_local(rt, time);
}

fn acquire(rt: &mut Runtime, request: LeaseRequest, time: u64)
    requires { RuntimeSound rt.old }
    ensures { RuntimeSound rt.new }
{
    runtime::acquire(rt, request, time);
}

fn renew(rt: &mut Runtime, renewal: Renewal)
    requires { RuntimeSound rt.old }
    ensures { RuntimeSound rt.new }
{
    runtime::renew(rt, renewal);
}

fn cancel(rt: &mut Runtime, owner: u64, lease: u64, time: u64)
    requires { RuntimeSound rt.old }
    ensures { RuntimeSound rt.new }
{
    runtime::cancel(rt, owner, lease, time);
}

fn submit(rt: &mut Runtime, submission: Submission)
    requires { RuntimeSound rt.old }
    ensures { RuntimeSound rt.new }
{
    runtime::submit(rt, submission);
}

fn observed(rt: &mut Runtime, reply: Observed)
    requires { RuntimeSound rt.old }
    ensures { RuntimeSound rt.new }
{
    runtime::observed(rt, reply);
}

fn executed(rt: &mut Runtime, ok: bool)
    requires { RuntimeSound rt.old }
    ensures { RuntimeSound rt.new }
{
    runtime::executed(rt, ok);
}

fn fell_back(rt: &mut Runtime, ok: bool)
    requires { RuntimeSound rt.old }
    ensures { RuntimeSound rt.new }
{
    runtime::fell_back(rt, ok);
}

fn recorded(rt: &mut Runtime)
    requires { RuntimeSound rt.old }
    ensures { RuntimeSound rt.new }
{
    runtime::recorded(rt);
}

// the runtimes ----------------------------------------------------------------------------------------------------------

fn started(limit: u16) -> Runtime
    ensures { RuntimeSound result }
{
    let records = capabilities();
    let made = runtime::new(config(limit), &records, 1, 0, 0);
    let mut rt = made.runtime;
    fell_back(&mut rt, true);
    fell_back(&mut rt, true);
    rt
}

fn leased(limit: u16) -> Runtime
    ensures { RuntimeSound result }
{
    let mut rt = started(limit);
    acquire(&mut rt, request(0, 6, 1000), 1);
    recorded(&mut rt);
    rt
}

// Sixteen records, two on each of the eight axes.
fn record(id: u16) -> Capability {
    let first = capabilities()[0];
    let bounds = first.bounds;
    Capability {
        id: id,
        resource: (id % 8) as u8,
        class: first.class,
        parameter_count: first.parameter_count,
        bounds: bounds,
        require_set: first.require_set,
        require_clear: first.require_clear,
        verification: first.verification,
    }
}

fn filled() -> Runtime
    ensures { RuntimeSound result }
{
    let blank = Capability::blank();
    let mut records = [blank; 16];
    for i in 0..16usize {
        records[i] = record(i as u16 + 1);
    }
    let made = runtime::new(config(65535), &records, 1, 0, 0);
    let mut rt = made.runtime;
    for _ in 0..8u8 {
        fell_back(&mut rt, true);
    }
    acquire(&mut rt, request(0, 0x10100, 1000), 1);
    recorded(&mut rt);
    rt
}

fn score(rt: &Runtime) -> u64
    requires { RuntimeSound rt.now }
{
    let shown = runtime::snapshot(rt);
    let seen = shown.snapshot;
    seen.epoch
        .wrapping_add(seen.next_receipt_id)
        .wrapping_add(seen.now)
}

// the loops -------------------------------------------------------------------------------------------------------------

#[unsafe(no_mangle)]
pub extern "C" fn lap_tick(laps: u64) -> u64 {
    let mut rt = started(32);
    for i in 0..laps {
        tick(&mut rt, i);
    }
    score(&rt)
}

#[unsafe(no_mangle)]
pub extern "C" fn lap_leased_tick(laps: u64) -> u64 {
    let mut rt = leased(32);
    for i in 0..laps {
        tick(&mut rt, 1);
    }
    score(&rt)
}

#[unsafe(no_mangle)]
pub extern "C" fn lap_acquire_cancel(laps: u64) -> u64 {
    let mut rt = started(32);
    for i in 0..laps {
        acquire(&mut rt, request(0, 6, 1000), 1);
        recorded(&mut rt);
        cancel(&mut rt, 7, i + 1, 1);
        fell_back(&mut rt, true);
        recorded(&mut rt);
    }
    score(&rt)
}

#[unsafe(no_mangle)]
pub extern "C" fn lap_submit(laps: u64) -> u64 {
    let mut rt = leased(32);
    for i in 0..laps {
        let reply = seen();
        submit(&mut rt, order(i + 1, 1));
        observed(&mut rt, reply);
        executed(&mut rt, true);
        observed(&mut rt, reply);
        recorded(&mut rt);
    }
    score(&rt)
}

#[unsafe(no_mangle)]
pub extern "C" fn lap_reject(laps: u64) -> u64 {
    let mut rt = leased(65535);
    for i in 0..laps {
        submit(&mut rt, order(0, 1));
        recorded(&mut rt);
    }
    score(&rt)
}

// A lease of 1 ms, whose end the next tick meets.
#[unsafe(no_mangle)]
pub extern "C" fn lap_expiry(laps: u64) -> u64 {
    let mut rt = started(32);
    for i in 0..laps {
        acquire(&mut rt, request(0, 6, 1), i.wrapping_mul(2).wrapping_add(1));
        recorded(&mut rt);
        tick(&mut rt, i.wrapping_mul(2).wrapping_add(2));
        fell_back(&mut rt, true);
        recorded(&mut rt);
        update_state(&mut rt, 0, i.wrapping_mul(2).wrapping_add(2));
    }
    score(&rt)
}

// Full rings, sixteen records on eight axes: an accepted order and a rejected one, on the last record.
#[unsafe(no_mangle)]
pub extern "C" fn lap_full(laps: u64) -> u64 {
    let mut rt = filled();
    for i in 0..laps {
        let reply = seen();
        submit(&mut rt, order(i + 1, 16));
        observed(&mut rt, reply);
        executed(&mut rt, true);
        observed(&mut rt, reply);
        recorded(&mut rt);
        submit(&mut rt, order(0, 16));
        recorded(&mut rt);
    }
    score(&rt)
}

// What no row calls.
#[unsafe(no_mangle)]
pub extern "C" fn lap_others(laps: u64) -> u64 {
    let mut rt = started(32);
    renew(
        &mut rt,
        Renewal {
            owner: 1,
            lease_id: 1,
            renewal: 1,
            duration_ms: 1,
            now: 1,
        },
    );
    emergency_stop(&mut rt, laps);
    poll_estop(&mut rt, 1, laps);
    recover_local(&mut rt, laps);
    let item = runtime::item(&rt);
    let lease = runtime::answered_lease(&rt);
    let receipt = runtime::answered_receipt(&rt);
    let reason = runtime::refusal(&rt);
    let state = runtime::state(&rt);
    let epoch = runtime::epoch(&rt);
    let boot_id = runtime::boot_id(&rt);
    let flags = runtime::flags(&rt);
    let held = runtime::lease(&rt, 0);
    let record = runtime::capability(&rt, 0);
    let count = runtime::receipt_count(&rt);
    let config = runtime::config(&rt);
    let kept = runtime::receipt(&rt, 0);
    let mode = match state.state {
        RuntimeState::SafeIdle => 0,
        RuntimeState::Armed => 1,
        RuntimeState::Faulted => 2,
        RuntimeState::Estopped => 3,
    };
    let numbers = [
        item.receipt.receipt_id,
        lease.id,
        receipt.receipt_id,
        u64::from(u16::from(reason)),
        mode,
        epoch.number,
        boot_id.number,
        flags.number,
        held.slot.lease.id,
        record.capability.id as u64,
        count.number,
        config.config.estop_mask as u64,
        kept.receipt.receipt_id,
    ];
    let mut sum: u64 = 0;
    for n in numbers {
        sum = sum.wrapping_add(n);
    }
    sum
}
