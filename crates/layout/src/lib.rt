// Bytes in lent memory: little-endian numbers, two-byte marks, zeros and copies.
#![tactic(auto)]

mod refused;

ghost use Rattle.std.specs.Prelude.{◌≡◌, ◌+◌, ◌^◌, ◌≤◌, ◌<◌, length, replicate};
ghost use Rattle.std.specs.List.{concat};
ghost use Rattle.layout.specs.Bytes.{le_at, le_bytes, marked, all_zero, edit, part};

pub use refused::Refused;

// The bytes at a place, as many as the array has.
pub fn array_at<const N: usize>(bytes: &[u8], at: usize) -> [u8; N]
    requires { at + N ≤ length bytes.now }
    ensures { result ≡ part at N bytes.now }
{
    let mut array = [0; N];
    array.copy_from_slice(&bytes[at..at + N]);
    array
}

// The number of N bytes at a place. It is one load.
pub fn read<const N: usize>(bytes: &[u8], at: usize) -> u64
    requires few { N ≤ 8 }
    requires within { at + N ≤ length bytes.now }
    ensures number { result ≡ le_at N bytes.now at }
    ensures below { result < 256 ^ N }
{
    let mut word = [0; 8];
    word[..N].copy_from_slice(&bytes[at..at + N]);
    u64::from_le_bytes(word)
}

// Whether a mark stands at a place: two bytes, in one comparison.
pub fn has_mark(bytes: &[u8], at: usize, mark: &[u8; 2]) -> bool
    requires { at + 2 ≤ length bytes.now }
    ensures { result ≡ marked bytes.now at mark.now }
{
    array_at(bytes, at) == *mark
}

// Whether words of eight bytes are zero. No early exit, so that many bytes are tested at a time.
fn words_zero(words: &[[u8; 8]]) -> bool
    ensures { result ≡ all_zero (concat words.now) }
{
    words
        .iter()
        .fold(0, |seen, word| seen | u64::from_le_bytes(*word))
        == 0
}

// Whether all bytes are zero: the words, and the bytes behind them.
pub fn is_zero(bytes: &[u8]) -> bool
    ensures { result ≡ all_zero bytes.now }
{
    let (words, rest) = bytes.as_chunks();
    words_zero(words) & (rest.iter().fold(0, |seen, byte| seen | *byte) == 0)
}

// Copies a source over the bytes from a place on. With `copy_from_slice` the compiler no longer knows that the source
// lies elsewhere, and tests it before each mark.
pub fn put(bytes: &mut [u8], at: usize, source: &[u8])
    requires { at + length source.now ≤ length bytes.old }
    ensures { bytes.new ≡ edit at source.now bytes.old }
{
    for (k, byte) in source.iter().enumerate() {
        bytes[at + k] = *byte;
    }
}

// Writes a number of N bytes at a place. It is one store.
pub fn write<const N: usize>(bytes: &mut [u8], at: usize, x: u64)
    requires few { N ≤ 8 }
    requires within { at + N ≤ length bytes.old }
    ensures { bytes.new ≡ edit at (le_bytes N x) bytes.old }
{
    let word = x.to_le_bytes();
    put(bytes, at, &word[..N]);
}

// Copies fourteen bytes of a list to a place of another, as two numbers that overlap: an array of fourteen bytes takes
// three moves each way.
pub fn copy14(bytes: &mut [u8], at: usize, source: &[u8], from: usize)
    requires { (at + 14 ≤ length bytes.old) × (from + 14 ≤ length source.now) }
    ensures { bytes.new ≡ edit at (part from 14 source.now) bytes.old }
{
    let first = read::<8>(source, from);
    let last = read::<8>(source, from + 6);
    write::<8>(bytes, at, first);
    write::<8>(bytes, at + 6, last);
}

// Makes all bytes zero. `fill` writes the last byte by itself, which is slower.
pub fn clear(bytes: &mut [u8])
    ensures { bytes.new ≡ replicate (length bytes.old) 0 }
{
    for byte in bytes {
        *byte = 0;
    }
}
