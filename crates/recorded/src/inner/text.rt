// The lines of a record, and their columns: lists and numbers.
ghost use Rattle.std.specs.Prelude.{◌≡◌, ◌≤◌, ◌<◌, length, take, IfSome};

use input_rows::inner::rows::{count, fill};
use std::io::Read;

// A lent list: its bytes, and how many of them it has. A fixed array, since a list has few bytes and this crate takes no heap.
#[derive(Clone, Copy)]
pub struct List {
    pub count: usize,
    pub bytes: [u8; 16],
    ghost few: { count ≤ 16 },
}

impl List {
    // The bytes of the list.
    pub fn items(&self) -> &[u8]
        ensures { result.now ≡ take self.now.count self.now.bytes }
    {
        &self.bytes[..self.count]
    }
}

// How a line is read: whole, not at all since the input is at its end, or in part.
#[derive(Clone, Copy, PartialEq, Eq)]
pub enum Line {
    Whole,
    End,
    Cut,
}

// Which digits a number has.
#[derive(Clone, Copy, PartialEq, Eq)]
pub enum Base {
    Decimal,
    Hexadecimal,
}

// Reads a line that is as long as the row, and ends there.
pub fn read_line<R: Read>(from: &mut R, row: &mut [u8]) -> Line
    ensures { length row.new ≡ length row.old }
{
    match read_full(from, row) {
        0 => Line::End,
        got if got == row.len() && row[got - 1] == b'\n' => Line::Whole,
        _ => Line::Cut,
    }
}

// Reads until a row is full, the input ends or a read fails, and answers how many bytes it put at the row's start.
pub fn read_full<R: Read>(from: &mut R, row: &mut [u8]) -> usize
    ensures count { result ≤ length row.new }
    ensures row { length row.new ≡ length row.old }
{
    count(fill(from, row))
}

// The list that a column holds, up to the first place with no entry.
pub fn lent(text: &[u8]) -> List
    ensures { (result.count ≤ length result.bytes) × (result.count ≡ length (take result.count result.bytes)) }
{
    let used = text.iter().position(|c| *c == b'.').unwrap_or(text.len());
    let count = used.min(16);
    let mut bytes = [0u8; 16];
    for (byte, c) in bytes.iter_mut().zip(&text[..count]) {
        *byte = byte_of(*c);
    }
    List { count, bytes }
}

// The byte that a character of a lent list stands for: a digit for its value, a to y for 10, 20 and so on to 250,
// z for 255, and any other for itself.
fn byte_of(c: u8) -> u8 {
    match c {
        b'0'..=b'9' => c - b'0',
        b'a'..=b'y' => (c - b'a' + 1) * 10,
        b'z' => 255,
        _ => c,
    }
}

// The number that a column holds; of a larger one than columns hold the first digits are lost.
pub fn number(text: &[u8], base: Base) -> Option<usize>
    ensures { IfSome result (λ n. n ≤ 100000000000000) }
{
    let mut read: usize = 0;
    for c in text {
        let digit = value(*c, base)?;
        read = match base {
            Base::Decimal => read % 1000000000000 * 10 + digit,
            Base::Hexadecimal => read % 1000000000000 * 16 + digit,
        };
    }
    Some(read)
}

// The value of a digit.
fn value(c: u8, base: Base) -> Option<usize>
    ensures { IfSome result (λ d. d < 16) }
{
    match c {
        b'0'..=b'9' => Some((c - b'0') as usize),
        b'a'..=b'f' if base == Base::Hexadecimal => Some((c - b'a') as usize + 10),
        _ => None,
    }
}
