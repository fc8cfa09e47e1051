// The functions of `wire` as C calls them (docs/WIRE.md), each with the clauses that it has in `wire`. Written by tools/exports.
#![tactic(auto)]

ghost use Rattle.std.specs.Prelude.{◌≡◌, ◌≤◌, length};
ghost use Rattle.words.specs.Words.{over};
ghost use Rattle.wire.specs.Wire.{written};

#[unsafe(no_mangle)]
pub extern "C" fn rolthai_run(input: &[u8], output: &mut [u8]) -> usize
    ensures value { result ≡ length (written input.now (length output.old)) }
    ensures output_after { output.new ≡ over output.old 0 (written input.now (length output.old)) }
    ensures upper_bound { result ≤ length output.new }
{
    wire::rolthai_run(input, output)
}
