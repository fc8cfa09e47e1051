// Runs the lives on standard input through the proved code, and writes the answers to standard output. `stdin` is a sample of lives and
// `stdout` what the Rust original answers to them (docs/WIRE.md says how both were made): the two have to agree byte for byte.
#![tactic(auto)]

ghost use Rattle.std.specs.Prelude.{◌≤◌, length, IfOk};

use std::io;
use std::io::{Read, Write};

fn run<W: Write>(out: &mut W, input: &[u8], output: &mut [u8]) -> io::Result<()> {
    let written = wire::rolthai_run(input, output);
    out.write_all(&output[..written])
}

// Reads until there is no more room, or nothing more to read; how many bytes there are then. By hand, since nothing here has a heap: the
// library reads to an end into a `Vec`, or through a buffer of its own.
fn read_full<R: Read>(input: &mut R, buffer: &mut [u8]) -> io::Result<usize>
    ensures { IfOk result (λ n. n ≤ length buffer.new) }
{
    let mut n = 0;
    while n < buffer.len() {
        let count = input.read(&mut buffer[n..])?;
        if count == 0 {
            return Ok(n);
        }
        n += count;
    }
    Ok(n)
}

fn main(rt: HostRuntime) -> io::Result<()> {
    let mut input = [0u8; 131072];
    let mut output = [0u8; 212992];
    let length = read_full(&mut rt.stdin(), &mut input)?;
    run(&mut rt.stdout(), &input[..length], &mut output)
}
