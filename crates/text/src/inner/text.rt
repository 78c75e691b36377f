// A text that grows at its end.
ghost use Rattle.std.specs.Prelude.{[], ◌∷◌, ◌+◌, ◌-◌, ◌≤◌, ◌<◌, length, replicate, ◌≡◌};
ghost use Rattle.text.specs.Lines.{decimal, spaced, indent, right};
ghost use Rattle.text.specs.Growing.{Starts, Adds};

use crate::Text;

// How many decimal digits a number has. No `for`: it is divided until one is left.
fn digits(n: usize) -> usize
    ensures { result ≡ length (decimal n) }
{
    let mut left = n;
    let mut count: usize = 1;
    while left >= 10 {
        left = left / 10;
        count += 1;
    }
    count
}

impl Text {
    // No bytes.
    pub fn new() -> Text
        ensures { Starts result }
    {
        Text {
            bytes: [0u8; 256],
            len: 0,
        }
    }

    // The bytes.
    pub fn as_bytes(&self) -> &[u8]
        ensures { result.now ≡ self.now }
    {
        &self.bytes[..self.len]
    }

    // One byte more.
    pub fn push(&mut self, b: u8)
        requires { length self.old < 256 }
        ensures { Adds self.old (b ∷ []) 1 self.new }
    {
        self.extend_from_slice(&[b]);
    }

    // More bytes.
    pub fn extend_from_slice(&mut self, s: &[u8])
        requires { length self.old + length s.now ≤ 256 }
        ensures { Adds self.old s.now (length s.now) self.new }
    {
        let end = self.len + s.len();
        self.bytes[self.len..end].copy_from_slice(s);
        self.len = end;
    }

    // The same byte so many times.
    pub fn push_times(&mut self, sign: u8, count: usize)
        requires { length self.old + count ≤ 256 }
        ensures { Adds self.old (replicate count sign) count self.new }
    {
        for _ in 0..count {
            self.push(sign);
        }
    }

    // The decimal digits of a number.
    fn push_digits(&mut self, n: usize)
        requires { length self.old + length (decimal n) ≤ 256 }
        ensures { Adds self.old (decimal n) (length (decimal n)) self.new }
    {
        if n < 10 {
            self.push(b'0' + n as u8);
            return;
        }
        self.push_digits(n / 10);
        self.push(b'0' + (n % 10) as u8);
    }

    // A number in decimal, at most 20 digits.
    pub fn push_decimal(&mut self, n: usize)
        requires { length self.old + 20 ≤ 256 }
        ensures { Adds self.old (decimal n) 20 self.new }
    {
        self.push_digits(n);
    }

    // A number after a blank.
    pub fn push_number(&mut self, n: usize)
        requires { length self.old + 21 ≤ 256 }
        ensures { Adds self.old (spaced (decimal n ∷ [])) 21 self.new }
    {
        self.push(b' ');
        self.push_decimal(n);
    }

    // A radix after a blank.
    pub fn push_radix(&mut self, b: u8)
        requires { length self.old + 4 ≤ 256 }
        ensures { Adds self.old (spaced (decimal b ∷ [])) 4 self.new }
    {
        self.push(b' ');
        self.push_digits(usize::from(b));
    }

    // As many blanks as bring a number to a width.
    pub fn push_indent(&mut self, n: usize, width: usize)
        requires { length self.old + width ≤ 256 }
        ensures { Adds self.old (indent width n) (width - length (decimal n)) self.new }
    {
        self.push_times(b' ', width.saturating_sub(digits(n)));
    }

    // A number behind as many blanks as bring it to a width of at most 20.
    pub fn push_right(&mut self, n: usize, width: usize)
        requires { (width ≤ 20) × (length self.old + 20 ≤ 256) }
        ensures { Adds self.old (right width n) 20 self.new }
    {
        self.push_indent(n, width);
        self.push_digits(n);
    }
}
