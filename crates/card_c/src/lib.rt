// The functions of `card` as C calls them (docs/CARD.md), each with the clauses that it has in `card`. Written by tools/exports.
#![tactic(auto)]

ghost use Rattle.std.specs.Prelude.{◌≡◌};
ghost use Rattle.card.specs.Card.{head};
ghost use Rattle.card.specs.Functions.{written, count as count_of};
ghost use Rattle.card.specs.Wire.{wire_receipt, wire_count, wire_written, wire_answer, wire_read};

#[unsafe(no_mangle)]
pub extern "C" fn rolthai_card_head(card: &mut [u8]) -> usize
    ensures answer { result ≡ count_of card.old 0 head }
    ensures bytes { card.new ≡ written card.old 0 head }
{
    card::rolthai_card_head(card)
}

#[unsafe(no_mangle)]
pub extern "C" fn rolthai_card_write(receipt: &[u8], card: &mut [u8]) -> usize
    ensures answer { result ≡ wire_count (wire_receipt receipt.now) card.old }
    ensures bytes { card.new ≡ wire_written (wire_receipt receipt.now) card.old }
{
    card::rolthai_card_write(receipt, card)
}

#[unsafe(no_mangle)]
pub extern "C" fn rolthai_card_read(card: &[u8], at: usize, receipt: &mut [u8]) -> u32
    ensures answer { result ≡ wire_answer card.now at receipt.old }
    ensures bytes { receipt.new ≡ wire_read card.now at receipt.old }
{
    card::rolthai_card_read(card, at, receipt)
}
