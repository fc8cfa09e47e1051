// Case G of 01, run over the crate receipts: 64 receipts, of which number 5 is the only rejection. The next drops 5, and the one after that,
// with no rejection left, the oldest. Each check is proved from what `receipts` promises, and made when the program runs.
#![tactic(auto)]

ghost use Rattle.std.specs.Prelude.{◌≡◌, slice_get};
ghost use Rattle.receipts.specs.Rings.{Kept, receipts_of};
ghost use Rattle.receipts_main.specs.CaseG.{decision_of, receipt_of, number_of, Holds, issued, with65, with66};

use model::{Decision, Receipt};
use receipts::Ring;
use std::process::ExitCode;

fn decision(number: u64) -> Decision
    ensures { result ≡ decision_of number }
{
    if number == 5 {
        Decision::Rejected
    } else {
        Decision::Executed
    }
}

// A receipt with a number: nothing else of it is looked at.
fn numbered(number: u64) -> Receipt
    ensures { result ≡ receipt_of number }
{
    Receipt {
        boot_id: 1,
        receipt_id: number,
        decision: decision(number),
        ..Receipt::blank()
    }
}

// The ring of the receipts 1 to 64.
fn filled() -> Ring
    ensures { Holds result (issued 64) }
{
    let mut ring = Ring::empty();
    for number in 1..=64 {
        ring.record(numbered(number));
    }
    ring
}

// The number of the receipt at a place from the oldest, or 0.
fn number_at(ring: &Ring, place: usize) -> u64
    requires { Kept ring.now }
    ensures { result ≡ number_of (slice_get (receipts_of ring.now) place) }
{
    ring.receipt(place).map_or(0, |receipt| receipt.receipt_id)
}

// With number 65: a full ring drops its only rejection, number 5.
fn sixty_five() -> Ring
    ensures { Holds result with65 }
{
    let mut ring = filled();
    ring.record(numbered(65));
    ring
}

// With number 66: no rejection is left, and the oldest goes.
fn sixty_six() -> Ring
    ensures { Holds result with66 }
{
    let mut ring = sixty_five();
    ring.record(numbered(66));
    ring
}

fn main() -> ExitCode {
    let full = filled();
    let fifth = number_at(&full, 4) == 5;
    prove!(fifth);
    let next = sixty_five();
    let full_again = next.count() == 64;
    prove!(full_again);
    let first = number_at(&next, 0) == 1;
    prove!(first);
    let before = number_at(&next, 3) == 4;
    prove!(before);
    let after = number_at(&next, 4) == 6;
    prove!(after);
    let newest = number_at(&next, 63) == 65;
    prove!(newest);
    let past = number_at(&next, 64) == 0;
    prove!(past);
    let last = sixty_six();
    let second = number_at(&last, 0) == 2;
    prove!(second);
    let end = number_at(&last, 63) == 66;
    prove!(end);
    let of_next = full_again && first && before && after && newest && past;
    if fifth && of_next && second && end {
        ExitCode::SUCCESS
    } else {
        ExitCode::FAILURE
    }
}
