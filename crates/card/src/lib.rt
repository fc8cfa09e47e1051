// Receipts on a memory card (02, item 1): a file is a head and records, each a receipt with the fields that are not zero.
// Promises, with no condition: what is written is a receipt's record, at its place and nothing else altered, or nothing at all; what is read is
// what the definitions say of the bytes from a place on, and never a byte outside them.
// Rests on `model` for the receipts, and on `words` for numbers in bytes.
#![tactic(auto)]

ghost use Rattle.std.specs.Prelude.{◌+◌, ◌%◌, ◌≤◌, ◌<◌, true, ◌≡◌, length, drop, get_or, None, MatchOption, IsTrue};
ghost use Rattle.words.specs.Words.{words_at, bytes_of, over};
ghost use Rattle.card.specs.Card.{widths, pair_number, pair_of, numbers_of, receipt_with, receipt_of, fields_of, sum as sum_of, record_of, head, field_in, fields_in, is_framed, receipt_in, has_head};
ghost use Rattle.card.specs.Functions.{written, counted, count as count_of, error_number, read_at, Reached, Plans, Fit};
ghost use Rattle.card.specs.Wire.{wire_limits, within, wire_numbers, wire_receipt, wire_words, wire_count, wire_written, head_answer, wire_answer, wire_read};

use model::{Decision, Reason, Receipt};
use words::{number, put_number, put_words, signed, unsigned, words_at};

// An accepted record: its receipt, and the place after it.
#[derive(Clone, Copy)]
pub struct Record {
    pub receipt: Receipt,
    pub next: usize,
}

// Why a record is refused: it ends past the file, or any other rule is broken.
#[derive(Clone, Copy)]
pub enum CardError {
    PastEnd,
    Unsound,
}

impl CardError {
    pub fn number(self) -> u32
        ensures { result ≡ error_number self }
    {
        match self {
            CardError::PastEnd => 122,
            CardError::Unsound => 123,
        }
    }
}

// the head ---------------------------------------------------------------------------------------------------------------

// False: 121.
pub fn has_head(card: &[u8]) -> bool
    ensures { result ≡ has_head card.now }
{
    card.len() >= 4 && card[..4].starts_with(b"RCT1")
}

// 4; none where there is no room, and nothing is written.
pub fn put_head(card: &mut [u8]) -> Option<usize>
    ensures answer { result ≡ counted card.old 0 head }
    ensures bytes { card.new ≡ written card.old 0 head }
{
    if card.len() < 4 {
        return None;
    }
    card[..4].copy_from_slice(b"RCT1");
    Some(4)
}

// a receipt as 22 numbers ------------------------------------------------------------------------------------------------

// How many bytes each field takes, in the order of `Receipt` in model.rs: none for the two yes/no fields at the end.
const WIDTHS: [usize; 22] = [
    8, 8, 4, 8, 8, 8, 2, 1, 8, 1, 2, 8, 8, 8, 8, 8, 8, 4, 4, 8, 0, 0,
];

fn width(i: usize) -> usize
    requires { i < 22 }
    ensures value { result ≡ get_or widths i 0 }
    ensures upper_bound { result ≤ 8 }
{
    WIDTHS[i]
}

// Eight bytes, the first number in front.
fn pair_number(pair: [i32; 2]) -> u64
    ensures { result ≡ pair_number pair }
{
    unsigned(pair[0]) + 4294967296 * unsigned(pair[1])
}

fn pair_of(n: u64) -> [i32; 2]
    ensures { result ≡ pair_of n }
{
    [
        signed((n % 4294967296) as u32),
        signed((n / 4294967296) as u32),
    ]
}

// The fields in the order of `Receipt` in model.rs, each as one number.
fn numbers_of(r: Receipt) -> [u64; 22]
    ensures { result ≡ numbers_of r }
{
    [
        r.boot_id,
        r.principal,
        u64::from(r.safety_flags),
        r.receipt_id,
        r.action_id,
        r.sequence,
        u64::from(r.capability),
        u64::from(r.resource),
        r.lease_id,
        u64::from(u8::from(r.decision)),
        u64::from(u16::from(r.reason)),
        r.epoch,
        r.received_at,
        r.admitted_at,
        r.executed_at,
        pair_number(r.requested),
        pair_number(r.observed),
        u64::from(r.pre_state),
        u64::from(r.post_state),
        r.original_receipt,
        u64::from(r.dispatched),
        u64::from(r.observed_valid),
    ]
}

fn receipt_with(decision: Decision, reason: Reason, numbers: [u64; 22]) -> Receipt
    requires { Fit widths numbers }
    ensures { result ≡ receipt_with decision reason numbers }
{
    Receipt {
        boot_id: numbers[0],
        principal: numbers[1],
        safety_flags: numbers[2] as u32,
        receipt_id: numbers[3],
        action_id: numbers[4],
        sequence: numbers[5],
        capability: numbers[6] as u16,
        resource: numbers[7] as u8,
        lease_id: numbers[8],
        decision,
        reason,
        epoch: numbers[11],
        received_at: numbers[12],
        admitted_at: numbers[13],
        executed_at: numbers[14],
        requested: pair_of(numbers[15]),
        observed: pair_of(numbers[16]),
        pre_state: numbers[17] as u32,
        post_state: numbers[18] as u32,
        original_receipt: numbers[19],
        dispatched: numbers[20] == 1,
        observed_valid: numbers[21] == 1,
    }
}

// None for a decision or a reason that has no number.
fn receipt_of(numbers: [u64; 22]) -> Option<Receipt>
    requires { Fit widths numbers }
    ensures { result ≡ receipt_of numbers }
{
    let Ok(decision) = Decision::try_from(numbers[9] as u8) else {
        return None;
    };
    let Ok(reason) = Reason::try_from(numbers[10] as u16) else {
        return None;
    };
    Some(receipt_with(decision, reason, numbers))
}

// writing ----------------------------------------------------------------------------------------------------------------

// The map of a receipt's numbers, and the length of its body.
#[derive(Clone, Copy)]
struct Plan {
    map: u64,
    length: usize,
}

fn plan_of(numbers: [u64; 22]) -> Plan
    ensures { Plans numbers result }
{
    let mut map = 0;
    let mut length = 4;
    for i in 0..22 {
        if numbers[i] != 0 {
            map += 1 << i;
            length += width(i);
        }
    }
    Plan { map, length }
}

// The ith field, if it is not zero; the place after it.
fn put_field(card: &mut [u8], place: usize, i: usize, numbers: [u64; 22]) -> usize
    requires { (i < 22) × (place + length (fields_of (drop i widths) (drop i numbers)) ≤ length card.old) }
    ensures room { result + length (fields_of (drop (i + 1) widths) (drop (i + 1) numbers)) ≤ length card.new }
    ensures bytes { over card.new result (fields_of (drop (i + 1) widths) (drop (i + 1) numbers)) ≡ over card.old place (fields_of (drop i widths) (drop i numbers)) }
{
    let n = numbers[i];
    if n == 0 {
        return place;
    }
    let width = width(i);
    put_number(card, place, width, n);
    place + width
}

// The ith field and the next, so that `put_fields` has 11 steps to prove and not 22.
fn put_two(card: &mut [u8], place: usize, i: usize, numbers: [u64; 22]) -> usize
    requires { (i < 21) × (place + length (fields_of (drop i widths) (drop i numbers)) ≤ length card.old) }
    ensures room { result + length (fields_of (drop (i + 1 + 1) widths) (drop (i + 1 + 1) numbers)) ≤ length card.new }
    ensures bytes { over card.new result (fields_of (drop (i + 1 + 1) widths) (drop (i + 1 + 1) numbers)) ≡ over card.old place (fields_of (drop i widths) (drop i numbers)) }
{
    let next = put_field(card, place, i, numbers);
    put_field(card, next, i + 1, numbers)
}

// The fields that are not zero, one after the other. Line by line: in a loop, where no width is known, the writer misses its bar, twice the time
// of a plain one (docs/DECISIONS.md).
fn put_fields(card: &mut [u8], at: usize, numbers: [u64; 22])
    requires { at + length (fields_of widths numbers) ≤ length card.old }
    ensures { card.new ≡ over card.old at (fields_of widths numbers) }
{
    let mut place = at;
    place = put_two(card, place, 0, numbers);
    place = put_two(card, place, 2, numbers);
    place = put_two(card, place, 4, numbers);
    place = put_two(card, place, 6, numbers);
    place = put_two(card, place, 8, numbers);
    place = put_two(card, place, 10, numbers);
    place = put_two(card, place, 12, numbers);
    place = put_two(card, place, 14, numbers);
    place = put_two(card, place, 16, numbers);
    place = put_two(card, place, 18, numbers);
    put_two(card, place, 20, numbers);
}

// In 16 bits, which are enough: the compiler adds more of them at once.
fn sum_of(bytes: &[u8]) -> u64
    requires { length bytes.now ≤ 255 }
    ensures value { result ≡ sum_of bytes.now }
    ensures upper_bound { result < 65536 }
{
    let sum: u16 = bytes.iter().map(|byte| u16::from(*byte)).sum();
    u64::from(sum)
}

// The length of the record; none where there is no room, and nothing is written.
pub fn put_record(card: &mut [u8], at: usize, r: Receipt) -> Option<usize>
    ensures answer { result ≡ counted card.old at (record_of r) }
    ensures bytes { card.new ≡ written card.old at (record_of r) }
{
    let numbers = numbers_of(r);
    let plan = plan_of(numbers);
    let length = plan.length;
    let size = length + 3;
    if at > card.len() || card.len() - at < size {
        return None;
    }
    let start = at + 1;
    let end = at + length + 1;
    card[at] = length as u8;
    put_number(card, start, 4, plan.map);
    put_fields(card, at + 5, numbers);
    let sum = sum_of(&card[at..end]);
    put_number(card, end, 2, sum);
    Some(size)
}

// reading ----------------------------------------------------------------------------------------------------------------

// The number of a field whose bit stands: none where its bytes are missing, or are 0.
fn field_at(body: &[u8], at: usize, width: usize) -> Option<u64>
    requires { (at ≤ length body.now) × (width ≤ 8) }
    ensures { result ≡ field_in true width (drop at body.now) }
{
    if width == 0 {
        return Some(1);
    }
    let n = number(body.get(at..at + width)?);
    (n != 0).then_some(n)
}

// The ith field, if its bit stands; the place after it. Put into its caller, which gives the field as a number: so its width is known there.
#[inline(always)]
fn read_field(
    map: u64,
    body: &[u8],
    place: usize,
    i: usize,
    numbers: &mut [u64; 22],
) -> Option<usize>
    requires { (i < 22) × Reached map body.now i place numbers.old }
    ensures { MatchOption result (None ≡ fields_in widths map body.now) (λ next. Reached map body.now (i + 1) next numbers.new) }
{
    if (map >> i) % 2 == 0 {
        return Some(place);
    }
    let width = width(i);
    numbers[i] = field_at(body, place, width)?;
    Some(place + width)
}

// The ith field and the next, so that `fields_in` has 11 steps to prove and not 22.
#[inline(always)]
fn read_two(map: u64, body: &[u8], place: usize, i: usize, numbers: &mut [u64; 22]) -> Option<usize>
    requires { (i < 21) × Reached map body.now i place numbers.old }
    ensures { MatchOption result (None ≡ fields_in widths map body.now) (λ next. Reached map body.now (i + 1 + 1) next numbers.new) }
{
    let next = read_field(map, body, place, i, numbers)?;
    read_field(map, body, next, i + 1, numbers)
}

// The fields by their map, from the bytes after it. Past the last field no byte and no bit may be left. Line by line: in a loop the reader takes
// three times as long, and misses its bar (docs/DECISIONS.md).
fn fields_in(map: u64, body: &[u8]) -> Option<[u64; 22]>
    ensures { result ≡ fields_in widths map body.now }
{
    let mut numbers = [0; 22];
    let mut place = read_two(map, body, 0, 0, &mut numbers)?;
    place = read_two(map, body, place, 2, &mut numbers)?;
    place = read_two(map, body, place, 4, &mut numbers)?;
    place = read_two(map, body, place, 6, &mut numbers)?;
    place = read_two(map, body, place, 8, &mut numbers)?;
    place = read_two(map, body, place, 10, &mut numbers)?;
    place = read_two(map, body, place, 12, &mut numbers)?;
    place = read_two(map, body, place, 14, &mut numbers)?;
    place = read_two(map, body, place, 16, &mut numbers)?;
    place = read_two(map, body, place, 18, &mut numbers)?;
    place = read_two(map, body, place, 20, &mut numbers)?;
    if map >> 22 != 0 {
        return None;
    }
    if place != body.len() {
        return None;
    }
    Some(numbers)
}

// The length is 4 to 126, and the last two bytes are the sum of length byte and body.
fn is_framed(size: usize, body: &[u8], last: &[u8]) -> bool
    requires { (length body.now ≡ size) × (length last.now ≡ 2) }
    ensures value { result ≡ is_framed size body.now last.now }
    ensures lower_bound { IsTrue result → 4 ≤ size }
{
    (4..=126).contains(&size) && number(last) == size as u64 + sum_of(body)
}

fn receipt_in(size: usize, body: &[u8], last: &[u8]) -> Option<Receipt>
    requires { (length body.now ≡ size) × (length last.now ≡ 2) }
    ensures { result ≡ receipt_in size body.now last.now }
{
    if !is_framed(size, body, last) {
        return None;
    }
    let numbers = fields_in(number(&body[..4]), &body[4..])?;
    receipt_of(numbers)
}

// The record at a place; none at the end of the file. Past the end comes before the rule on the length.
pub fn read_at(card: &[u8], at: usize) -> Result<Option<Record>, CardError>
    ensures { result ≡ read_at card.now at }
{
    let count = card.len();
    if count <= at {
        return Ok(None);
    }
    let length = card[at] as usize;
    if count - at < length + 3 {
        return Err(CardError::PastEnd);
    }
    let start = at + 1;
    let end = start + length;
    let next = end + 2;
    let Some(receipt) = receipt_in(length, &card[start..end], &card[end..next]) else {
        return Err(CardError::Unsound);
    };
    Ok(Some(Record { receipt, next }))
}

// for hosts in other languages -------------------------------------------------------------------------------------------

const U64: u64 = u64::MAX;

const U32: u64 = u32::MAX as u64;

const U16: u64 = u16::MAX as u64;

const U8: u64 = u8::MAX as u64;

const BOOL: u64 = 1;

// The most that each word of a receipt may be.
const LIMITS: [u64; 24] = [
    U64, U64, U32, U64, U64, U64, U16, U8, U64, U8, U16, U64, U64, U64, U64, U32, U32, U32, U32,
    U32, U32, U64, BOOL, BOOL,
];

fn are_within(words: [u64; 24]) -> bool
    ensures { result ≡ within words wire_limits }
{
    words
        .iter()
        .zip(LIMITS.iter())
        .all(|(word, limit)| word <= limit)
}

// The numbers of 24 words (docs/WIRE.md, "A receipt"), of which a pair is two.
fn numbers_in(words: [u64; 24]) -> [u64; 22]
    requires { within words wire_limits ≡ true }
    ensures { result ≡ wire_numbers words }
{
    [
        words[0],
        words[1],
        words[2],
        words[3],
        words[4],
        words[5],
        words[6],
        words[7],
        words[8],
        words[9],
        words[10],
        words[11],
        words[12],
        words[13],
        words[14],
        words[15] + 4294967296 * words[16],
        words[17] + 4294967296 * words[18],
        words[19],
        words[20],
        words[21],
        words[22],
        words[23],
    ]
}

// The receipt that 24 words stand for.
fn receipt_at(bytes: &[u8]) -> Option<Receipt>
    ensures { result ≡ wire_receipt bytes.now }
{
    if bytes.len() != 192 {
        return None;
    }
    let words = words_at(bytes, 0);
    if !are_within(words) {
        return None;
    }
    receipt_of(numbers_in(words))
}

fn words_of(receipt: Receipt) -> [u64; 24]
    ensures { result ≡ wire_words receipt }
{
    let numbers = numbers_of(receipt);
    [
        numbers[0],
        numbers[1],
        numbers[2],
        numbers[3],
        numbers[4],
        numbers[5],
        numbers[6],
        numbers[7],
        numbers[8],
        numbers[9],
        numbers[10],
        numbers[11],
        numbers[12],
        numbers[13],
        numbers[14],
        numbers[15] % 4294967296,
        numbers[15] / 4294967296,
        numbers[16] % 4294967296,
        numbers[16] / 4294967296,
        numbers[17],
        numbers[18],
        numbers[19],
        numbers[20],
        numbers[21],
    ]
}

pub fn rolthai_card_head(card: &mut [u8]) -> usize
    ensures answer { result ≡ count_of card.old 0 head }
    ensures bytes { card.new ≡ written card.old 0 head }
{
    put_head(card).unwrap_or(0)
}

// The record of a receipt's 24 words (docs/WIRE.md), at the front of the card. 0, and nothing written: no room, not 192 bytes, a word above
// its field, or a decision or reason without number.
pub fn rolthai_card_write(receipt: &[u8], card: &mut [u8]) -> usize
    ensures answer { result ≡ wire_count (wire_receipt receipt.now) card.old }
    ensures bytes { card.new ≡ wire_written (wire_receipt receipt.now) card.old }
{
    let Some(found) = receipt_at(receipt) else {
        return 0;
    };
    put_record(card, 0, found).unwrap_or(0)
}

// 0, or 121.
fn head_answer(card: &[u8]) -> u32
    ensures { result ≡ head_answer card.now }
{
    if has_head(card) { 0 } else { 121 }
}

// At a place below 4 the head: 0 or 121. From 4 on a record: 2 where the receipt has no room for 192 bytes; else 0, 1 at the end, 122, 123.
// Only a record's 0 alters the receipt.
pub fn rolthai_card_read(card: &[u8], at: usize, receipt: &mut [u8]) -> u32
    ensures answer { result ≡ wire_answer card.now at receipt.old }
    ensures bytes { receipt.new ≡ wire_read card.now at receipt.old }
{
    if at < 4 {
        return head_answer(card);
    }
    if receipt.len() < 192 {
        return 2;
    }
    match read_at(card, at) {
        Ok(Some(record)) => {
            put_words(receipt, 0, words_of(record.receipt));
            0
        }
        Ok(None) => 1,
        Err(error) => error.number(),
    }
}
