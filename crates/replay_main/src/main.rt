// Pushes 33 entries, one more than the replay ring holds: the first is gone, the second and the last are found.
// Promises that a ring filled with the orders 1 to n holds the last 32 of them; `main` shows what is found. Rests on `replay`.
#![tactic(auto)]

ghost use Rattle.std.specs.Prelude.{◌≡◌};
ghost use Rattle.replay_main.specs.Orders.{Filled};

use model::Replay;
use replay::ReplayRing;
use std::process::ExitCode;

// The ring after the orders 1 to `count`.
fn filled(count: u32) -> ReplayRing
    ensures { Filled count result }
{
    let mut ring = ReplayRing::empty();
    let last = u64::from(count);
    for id in 1..=last {
        ring = ring.push(Replay {
            owner: 7,
            action_id: id,
            receipt: 100 + id,
        });
    }
    ring
}

fn main() -> ExitCode {
    let ring = filled(33);
    let first = ring.find(7, 1).unwrap_or(0) == 0;
    prove!(first);
    let second = ring.find(7, 2).unwrap_or(0) == 102;
    prove!(second);
    let last = ring.find(7, 33).unwrap_or(0) == 133;
    prove!(last);
    if first && second && last {
        ExitCode::SUCCESS
    } else {
        ExitCode::FAILURE
    }
}
