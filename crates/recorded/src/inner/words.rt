// Rows of words: read from lines of nine bytes, drawn from a seed as the oracle draws them, and summed.
ghost use Rattle.std.specs.Prelude.{◌≡◌, ◌<◌, length};

use crate::inner::text::{Base, number, read_full};
use std::io::Read;

// The modulus of checksums and draws, a prime below 2^32.
const MODULUS: usize = 4294967291;

// What a number is multiplied by for the next that is drawn.
const FACTOR: usize = 279470273;

// What tells an exponent with a fraction from one without.
const FINE: u32 = 256;

// Whether the next lines show words, which are read.
pub fn read<R: Read>(from: &mut R, words: &mut [f32]) -> bool
    ensures { length words.new ≡ length words.old }
{
    let mut are_words = true;
    for word in words.iter_mut() {
        match read_word(from) {
            Some(shown) => *word = float(shown),
            None => are_words = false,
        }
    }
    are_words
}

// The word that the next line shows.
fn read_word<R: Read>(from: &mut R) -> Option<u32> {
    let mut line = [0u8; 9];
    let got = read_full(from, &mut line);
    let word = number(&line[0..8], Base::Hexadecimal)?;
    if got < 9 || line[8] != b'\n' {
        return None;
    }
    u32::try_from(word).ok()
}

// The float of a word, and 0 where it is a NaN's.
fn float(word: u32) -> f32 {
    if word % 2147483648 > 2139095040 {
        return 0.0;
    }
    f32::from_bits(word)
}

// The bits of a float, and those of a NaN for every NaN.
fn bits(x: f32) -> u32 {
    if x.is_nan() {
        return 0x7fc00000;
    }
    f32::to_bits(x)
}

// The checksum of words.
pub fn summed(words: &[f32]) -> usize
    ensures { result < 4294967291 }
{
    let mut sum: usize = 0;
    for x in words {
        sum = mixed(sum, bits(*x) as usize);
    }
    sum
}

// A checksum with one number more.
pub fn mixed(sum: usize, next: usize) -> usize
    ensures { result < 4294967291 }
{
    (sum % MODULUS * 31 + next % MODULUS) % MODULUS
}

// Fills a row with words of a kind, and answers the last number drawn, which is the seed of what is drawn after them.
pub fn fill(words: &mut [f32], kind: u8, seed: usize) -> usize
    ensures { result < 4294967291 }
{
    let mut x = seed % MODULUS;
    for word in words.iter_mut() {
        x = x * FACTOR % MODULUS;
        *word = float(word_of(kind, x));
    }
    x
}

// The word of a kind that a number gives: a sign, an exponent that 8 digits choose, and a fraction where there is one.
fn word_of(kind: u8, x: usize) -> u32 {
    let n = (x % MODULUS) as u32;
    let drawn = drawn(kind, n / 8388608 % 256);
    let bare = n / 2147483648 * 2147483648 + drawn % FINE * 8388608;
    if drawn < FINE {
        return bare;
    }
    bare + n % 8388608
}

// The exponent that 8 digits choose for a word of a kind, FINE more where it has a fraction: near 1, extreme within 2^48 or 2^32,
// these two alone, with zeros of both signs, zeros alone, small whole numbers, subnormal, and for a twiddle; an infinity's for no kind.
fn drawn(kind: u8, chosen: u32) -> u32
    ensures { result < 512 }
{
    match (kind, chosen) {
        (b'N', _) => FINE + 126 - chosen % 16,
        (b'E', 255) => 175,
        (b'E', _) => FINE + 174 - chosen % 128,
        (b'L', 255) => 159,
        (b'L', _) => FINE + 158 - chosen % 128,
        (b'B', _) => 175,
        (b'M', _) => 159,
        (b'Z', 0..=127) => 0,
        (b'Z', _) => FINE + 126 - chosen % 16,
        (b'O', _) => 0,
        (b'W', _) if chosen % 4 == 0 => 0,
        (b'W', _) => 126 + chosen % 4,
        (b'S', 0..=191) => FINE,
        (b'S', _) => FINE + 1 + chosen % 9,
        (b'T', 255) => 127,
        (b'T', 254) => 0,
        (b'T', _) => FINE + 126 - chosen % 16,
        _ => 255,
    }
}
