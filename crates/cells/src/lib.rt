// Words that a host lends, by regions (specs/Cells): a run of words is written at a place, a window of them read. Promises: what is written stands
// there and nothing else is altered, and what is read is what stands there. Rests on nothing but the language and its library.
#![tactic(auto)]

ghost use Rattle.std.specs.Prelude.{◌≡◌, ◌+◌, ◌≤◌, length};
ghost use Rattle.cells.specs.Cells.{part, put};

// Word by word: `copy_from_slice` compiles to two copies behind a test, with the words on the stack (seen in the machine code).
pub fn write(state: &mut [u64], at: usize, words: &[u64])
    requires { at + length words.now ≤ length state.old }
    ensures { state.new ≡ put state.old at words.now }
{
    for i in 0..words.len() {
        state[at + i] = words[i];
    }
}

// A window, as wide as the words that are wanted.
pub fn read<const N: usize>(state: &[u64], at: usize) -> [u64; N]
    requires { at + N ≤ length state.now }
    ensures { result ≡ part state.now at N }
{
    let mut words = [0; N];
    for i in 0..N {
        words[i] = state[at + i];
    }
    words
}
