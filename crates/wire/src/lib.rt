// Whole lives as bytes (docs/WIRE.md): input records in, an output record for each out. Promises: the bytes written are the encoding of the
// definitions' answers to the decoded records, and nothing else of the output is altered; there is no condition on the bytes. Rests on
// `host_records` for the records, over words of its own, and on `words` for the bytes.
#![tactic(auto)]

ghost use Rattle.std.specs.Prelude.{[], ◌≡◌, ◌+◌, ◌*◌, ◌≤◌, length};
ghost use Rattle.words.specs.Words.{bytes_of, over};
ghost use Rattle.format.specs.Encode.{padded};
ghost use Rattle.host_records.specs.Records.{opening, answers_from};
ghost use Rattle.wire.specs.Wire.{records_in, answer_bytes, written};

use format::plain_words;
use host_records::step;
use words::{put_words, words_at};

// Runs the first records, and writes their answers. `wire_counters` has this loop over a step of its own: one function over both
// would have to say of any step what a run of it leaves and answers, which is more to read than the loop twice.
fn run_records(input: &[u8], output: &mut [u8], count: usize)
    requires { (128 * count ≤ length input.now) × (208 * count ≤ length output.old) }
    ensures output_after { output.new ≡ over output.old 0 (answer_bytes (answers_from opening (records_in input.now count))) }
    ensures count_len { length (answer_bytes (answers_from opening (records_in input.now count))) ≡ 208 * count }
{
    // Nothing is listed, and there is no runtime.
    let mut state = [0u64; 2464];
    for i in 0..count {
        let words = words_at(input, 128 * i);
        let answer = step(&mut state, words);
        put_words(output, 208 * i, answer);
    }
}

// Answers bytes that do not fill a record.
pub fn answer_short(output: &mut [u8], at: usize)
    requires { at + 208 ≤ length output.old }
    ensures { output.new ≡ over output.old at (bytes_of (padded 65 0 [])) }
{
    put_words(output, at, plain_words(65, 0));
}

// Runs lives. The answer is how many bytes were written.
pub fn rolthai_run(input: &[u8], output: &mut [u8]) -> usize
    ensures value { result ≡ length (written input.now (length output.old)) }
    ensures output_after { output.new ≡ over output.old 0 (written input.now (length output.old)) }
    ensures upper_bound { result ≤ length output.new }
{
    let records = input.len() / 128;
    let room = output.len() / 208;
    let count = records.min(room);
    run_records(input, output, count);
    if records >= room {
        return 208 * count;
    }
    if input.len() % 128 == 0 {
        return 208 * count;
    }
    answer_short(output, 208 * count);
    208 * count + 208
}
