// Pushes into the ring of receipts in a loop, in place, as the runtime pushes them. A static library that tools/speed times beside the
// Rust's `record`.
// Promises that the answer is the number of the oldest receipt that the rule of 01 keeps. Rests on `receipts`.
#![tactic(auto)]

ghost use Rattle.std.specs.Prelude.{◌≡◌};
ghost use Rattle.receipts_speed.specs.Pushes.{decision_of, numbered_receipt, kept_after, oldest_of};

use model::{Decision, Receipt};
use receipts::Ring;

// The receipt with a number is a rejection where the bit of `kinds` at that number, around 64, is set.
fn decision_of(id: u64, kinds: u64) -> Decision
    ensures { result ≡ decision_of id kinds }
{
    if (kinds >> (id % 64)) % 2 == 1 {
        Decision::Rejected
    } else {
        Decision::Executed
    }
}

fn numbered(id: u64, kinds: u64) -> Receipt
    ensures { result ≡ numbered_receipt id kinds }
{
    Receipt {
        receipt_id: id,
        decision: decision_of(id, kinds),
        ..Receipt::blank()
    }
}

// The number of the oldest receipt kept after these pushes, numbered from 0; 0 before the first.
#[unsafe(no_mangle)]
pub extern "C" fn receipts_speed_oldest(pushes: u64, kinds: u64) -> u64
    ensures { result ≡ oldest_of (kept_after kinds pushes) }
{
    let mut ring = Ring::empty();
    for id in 0..pushes {
        ring.record(numbered(id, kinds));
    }
    ring.receipt(0).map_or(0, |oldest| oldest.receipt_id)
}
