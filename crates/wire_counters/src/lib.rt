// A test's entry, no part of the product: `rolthai_run` with one more kind of record, 96, that sets a counter, so that lives near the top of
// 64 bits can be held against the Rust (tools/wire). Word 1 says which counter (0 epoch, 1 next receipt, 2 next lease), word 2 its value; it is
// answered 96, and sets nothing where there is no runtime: a start that goes on has all three at 1. Promises that the runtime stays sound, whatever
// the counters are; not that its life is one of the rules'. Rests on `host_records`, over words of its own, and on `words`.
#![tactic(auto)]

ghost use Rattle.std.specs.Prelude.{◌*◌, ◌≤◌, length, ◌≡◌};
ghost use Rattle.runtime.specs.Stages.{RuntimeSound};
ghost use Rattle.layout.specs.Layout.{Long, runtime_in};

use decide_start::is_started;
use format::plain_words;
use layout::{numbers_in, put_numbers, starting_in};
use state::Numbers;
use wire::answer_short;
use words::{put_words, words_at};

// A counter set.
fn with_counter(numbers: Numbers, which: u64, value: u64) -> Numbers
    ensures { (result.held ≡ numbers.held) × (result.soonest ≡ numbers.soonest) }
{
    let mut next = numbers;
    match which {
        0 => next.epoch = value,
        1 => next.next_receipt = value,
        _ => next.next_lease = value,
    }
    next
}

fn set(state: &mut [u64], which: u64, value: u64)
    requires { Long state.old × RuntimeSound (runtime_in state.old) }
    ensures { (length state.new ≡ length state.old) × RuntimeSound (runtime_in state.new) }
{
    let starting = starting_in(state);
    if is_started(starting) {
        let numbers = numbers_in(state);
        put_numbers(state, with_counter(numbers, which, value));
    }
}

fn step(state: &mut [u64], words: [u64; 16]) -> [u64; 26]
    requires { Long state.old × RuntimeSound (runtime_in state.old) }
    ensures { (length state.new ≡ length state.old) × RuntimeSound (runtime_in state.new) }
{
    if words[0] == 96 {
        set(state, words[1], words[2]);
        return plain_words(96, 0);
    }
    host_records::step(state, words)
}

fn run_records(input: &[u8], output: &mut [u8], count: usize)
    requires { (128 * count ≤ length input.now) × (208 * count ≤ length output.old) }
    ensures { length output.new ≡ length output.old }
{
    // Nothing is listed, and there is no runtime.
    let mut state = [0u64; 2464];
    for i in 0..count {
        let words = words_at(input, 128 * i);
        let answer = step(&mut state, words);
        put_words(output, 208 * i, answer);
    }
}

// As `rolthai_run`: the answer is how many bytes were written.
pub fn rolthai_test_run(input: &[u8], output: &mut [u8]) -> usize
    ensures { result ≤ length output.new }
{
    let records = input.len() / 128;
    let room = output.len() / 208;
    let count = records.min(room);
    run_records(input, output, count);
    if records >= room || input.len() % 128 == 0 {
        return 208 * count;
    }
    answer_short(output, 208 * count);
    208 * count + 208
}
