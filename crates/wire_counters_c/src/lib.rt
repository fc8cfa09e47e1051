// The functions of `wire_counters` as C calls them (a test's entry, tools/wire), each with the clauses that it has in `wire_counters`. Written by tools/exports.
#![tactic(auto)]

ghost use Rattle.std.specs.Prelude.{◌≤◌, length};

#[unsafe(no_mangle)]
pub extern "C" fn rolthai_test_run(input: &[u8], output: &mut [u8]) -> usize
    ensures { result ≤ length output.new }
{
    wire_counters::rolthai_test_run(input, output)
}
