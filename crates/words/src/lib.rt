// Words of 8 bytes, little end first, read from and written to lent bytes (docs/WIRE.md): an input record is 16 words, an output record 26; and numbers
// of any width up to 8 bytes.
// Promises: what is read is the definition's number of the bytes there; what is written stands at its place and nothing else is altered; a signed number and its
// 32 bits determine each other.
// Rests on nothing but the language and its library.
#![tactic(auto)]

ghost use Rattle.std.specs.Prelude.{◌≡◌, ◌+◌, ◌*◌, ◌≤◌, length};
ghost use Rattle.words.specs.Signs.{signed as signed_of, unsigned as unsigned_of};
ghost use Rattle.words.specs.Words.{word_at, words_at, little_end, little_number, bytes_of, over};

// The word whose first byte stands at a place.
pub fn word(input: &[u8], at: usize) -> u64
    requires { at + 8 ≤ length input.now }
    ensures { result ≡ word_at input.now at }
{
    u64::from_le_bytes([
        input[at],
        input[at + 1],
        input[at + 2],
        input[at + 3],
        input[at + 4],
        input[at + 5],
        input[at + 6],
        input[at + 7],
    ])
}

// The words that stand from a place on, as many as are wanted.
pub fn words_at<const N: usize>(bytes: &[u8], at: usize) -> [u64; N]
    requires { at + 8 * N ≤ length bytes.now }
    ensures { result ≡ words_at N bytes.now at }
{
    let mut words = [0; N];
    for i in 0..N {
        words[i] = word(bytes, at + 8 * i);
    }
    words
}

// Writes words, one after another.
pub fn put_words<const N: usize>(output: &mut [u8], at: usize, words: [u64; N])
    requires { at + 8 * N ≤ length output.old }
    ensures { output.new ≡ over output.old at (bytes_of words.entry) }
{
    let mut place = at;
    for word in words {
        put_number(output, place, 8, word);
        place += 8;
    }
}

// Numbers of any width -------------------------------------------------------------------------------------------------

// The number that bytes stand for.
pub fn number(bytes: &[u8]) -> u64
    requires { length bytes.now ≤ 8 }
    ensures { result ≡ little_number bytes.now }
{
    let mut n = 0;
    for &byte in bytes.iter().rev() {
        n = 256 * n + u64::from(byte);
    }
    n
}

// Writes the first bytes of a number.
pub fn put_number(output: &mut [u8], at: usize, width: usize, number: u64)
    requires { at + width ≤ length output.old }
    ensures { output.new ≡ over output.old at (little_end width number) }
{
    let mut rest = number;
    for byte in &mut output[at..at + width] {
        *byte = (rest % 256) as u8;
        rest /= 256;
    }
}

// Signs ----------------------------------------------------------------------------------------------------------------

// 32 bits, in two's complement.
pub fn signed(bits: u32) -> i32
    ensures { result ≡ signed_of bits }
{
    bits.cast_signed()
}

pub fn unsigned(value: i32) -> u64
    ensures { result ≡ unsigned_of value }
{
    u64::from(value.cast_unsigned())
}
