// The worked cases of 01, with F and G, run through the proved code: the lives on standard input, a line for each answer. `stdin` is made from
// examples/cases.life and `stdout` from what the Rust original answers (docs/WIRE.md).
#![tactic(auto)]

ghost use Rattle.std.specs.Prelude.{◌≤◌, length, IfOk};

use std::io;
use std::io::Read;

// What an output record says.
fn kind_name(kind: u32) -> &'static str {
    match kind {
        1 => "listed",
        2 => "started",
        3 => "start refused",
        16 => "  observe",
        17 => "  execute",
        18 => "  fallback",
        19 => "  record",
        32 => "returned",
        33 => "polled",
        34 => "succeeded",
        35 => "leased",
        36 => "refused",
        37 => "settled",
        54 => "    snapshot",
        57 => "    receipt",
        _ => "other",
    }
}

// The low half of a word: no number of the cases is above it.
fn low_half(word: &[u8]) -> u32 {
    word.first_chunk::<4>()
        .map_or(0, |bytes| u32::from_le_bytes(*bytes))
}

// A line of the bytes of an output record: the kind, then its words from the second on, each in a write of its own. As a `Display` the line
// would be one write, and one that fails would leave less of it.
fn print_record(rt: &HostRuntime, record: &[u8]) -> io::Result<()> {
    let kind = kind_name(low_half(record));
    print!(rt; "{kind}")?;
    for word in record.chunks_exact(8).skip(1) {
        let number = low_half(word);
        print!(rt; " {number}")?;
    }
    println!(rt;)
}

// Runs the lives and prints the answers.
fn run(rt: &HostRuntime, input: &[u8], output: &mut [u8]) -> io::Result<()> {
    let written = wire::rolthai_run(input, output);
    for record in output[..written].chunks_exact(208) {
        print_record(rt, record)?;
    }
    Ok(())
}

// Reads until there is no more room, or nothing more to read; how many bytes there are then. By hand, since nothing here has a heap: the
// library reads to an end into a `Vec`, or through a buffer of its own.
fn read_full<R: Read>(input: &mut R, buffer: &mut [u8]) -> io::Result<usize>
    ensures { IfOk result (λ n. n ≤ length buffer.new) }
{
    let mut n = 0;
    while n < buffer.len() {
        let count = input.read(&mut buffer[n..])?;
        if count == 0 {
            return Ok(n);
        }
        n += count;
    }
    Ok(n)
}

fn main(rt: HostRuntime) -> io::Result<()> {
    let mut input = [0u8; 131072];
    let mut output = [0u8; 212992];
    let length = read_full(&mut rt.stdin(), &mut input)?;
    run(&rt, &input[..length], &mut output)
}
