// The vectors of docs/CARD.md, run through the proved code without any Rust. Standard input has a card file to a line, its bytes in lower-case
// hexadecimal; spaces are passed over. Standard output has a line for each receipt that is read: its 24 words, and whether they are written again as
// the same record. After those of a file come the answer that ended its reading, and the place. `stdin` and `stdout` are what
// `tools/card/run vectors DIR` writes: the answers are those of the independent reader and writer of tools/card.
#![tactic(auto)]

ghost use Rattle.std.specs.Prelude.{◌+◌, ◌*◌, ◌%◌, ◌<◌, ◌≤◌, ◌≡◌, length, IfSome, IfOk};

use std::io;
use std::io::Read;

// a file from its digits -------------------------------------------------------------------------------------------------

// What a digit stands for; none for any other byte.
fn value(byte: u8) -> Option<u8>
    ensures { IfSome result (λ digit. digit < 16) }
{
    match byte {
        b'0'..=b'9' => Some(byte - b'0'),
        b'a'..=b'f' => Some(byte - b'a' + 10),
        _ => None,
    }
}

// A digit moved in at the low end: with the second one nothing is left of what stood there before.
fn moved_in(byte: u8, digit: u8) -> u8
    requires { digit < 16 }
    ensures { result ≡ (16 * byte + digit) % 256 }
{
    ((16 * u16::from(byte) + u16::from(digit)) % 256) as u8
}

// The next digit of a file, where the byte is one and there is room; how many there are then.
fn put_digit(card: &mut [u8], digits: usize, byte: u8) -> usize
    requires { digits ≤ 2 * length card.old }
    ensures { result ≤ 2 * length card.old }
{
    let place = digits / 2;
    let Some(digit) = value(byte) else {
        return digits;
    };
    if place >= card.len() {
        return digits;
    }
    card[place] = moved_in(card[place], digit);
    digits + 1
}

// what is read of it -----------------------------------------------------------------------------------------------------

fn print_receipt(rt: &HostRuntime, receipt: &[u8]) -> io::Result<()>
    requires { length receipt.now ≡ 192 }
{
    print!(rt; "receipt")?;
    for word in words::words_at::<24>(receipt, 0) {
        print!(rt; " {word}")?;
    }
    Ok(())
}

// Whether a receipt is written as these bytes and no more.
fn is_record(receipt: &[u8], bytes: &[u8]) -> bool {
    let mut record = [0u8; 129];
    let count = card::rolthai_card_write(receipt, &mut record);
    count == bytes.len() && record.starts_with(bytes)
}

fn print_same(rt: &HostRuntime, same: bool) -> io::Result<()> {
    let said = if same { "same" } else { "other" };
    println!(rt; " {said}")
}

fn print_end(rt: &HostRuntime, answer: u32, at: usize) -> io::Result<()> {
    println!(rt; "{answer} at {at}")
}

// How many bytes a record with this length byte has.
fn size(length: u8) -> usize
    ensures value { result ≡ length + 3 }
    ensures upper_bound { result ≤ 258 }
{
    usize::from(length) + 3
}

// From place 4 on, until an answer is not 0.
fn read_records(rt: &HostRuntime, card: &[u8], receipt: &mut [u8]) -> io::Result<()>
    requires { length receipt.old ≡ 192 }
{
    let mut at = 4;
    let mut answer = card::rolthai_card_read(card, at, receipt);
    while answer == 0 && at < card.len() {
        let next = at + size(card[at]);
        print_receipt(rt, receipt)?;
        let same = card
            .get(at..next)
            .is_some_and(|record| is_record(receipt, record));
        print_same(rt, same)?;
        at = next;
        answer = card::rolthai_card_read(card, at, receipt);
    }
    print_end(rt, answer, at)
}

fn read(rt: &HostRuntime, card: &[u8]) -> io::Result<()> {
    let mut receipt = [0u8; 192];
    let head = card::rolthai_card_read(card, 0, &mut receipt);
    if head == 0 {
        read_records(rt, card, &mut receipt)
    } else {
        print_end(rt, head, 0)
    }
}

// Reads the file of each line.
fn run(rt: &HostRuntime, text: &[u8], card: &mut [u8]) -> io::Result<()> {
    let mut digits = 0;
    for &byte in text {
        if byte == b'\n' {
            read(rt, &card[..digits / 2])?;
            digits = 0;
        } else {
            digits = put_digit(card, digits, byte);
        }
    }
    Ok(())
}

// Reads until there is no more room, or nothing more to read; how many bytes there are then. By hand, since nothing here has a heap: the
// library reads to an end into a `Vec`, or through a buffer of its own.
fn read_full<R: Read>(input: &mut R, buffer: &mut [u8]) -> io::Result<usize>
    ensures { IfOk result (λ n. n ≤ length buffer.new) }
{
    let mut n = 0;
    while n < buffer.len() {
        let count = input.read(&mut buffer[n..])?;
        if count == 0 {
            return Ok(n);
        }
        n += count;
    }
    Ok(n)
}

// There is room for 16,384 bytes of text and 1,024 of a file: what is beyond is not read.
fn main(rt: HostRuntime) -> io::Result<()> {
    let mut input = [0u8; 16384];
    let mut card = [0u8; 1024];
    let length = read_full(&mut rt.stdin(), &mut input)?;
    run(&rt, &input[..length], &mut card)
}
