// An entry of the house table.
ghost use Rattle.std.specs.Prelude.{◌≡◌, ◌<◌};
ghost use Rattle.house.specs.Entries.{entry_of};

use crate::inner::house::{COSINES, SINES};

// A quarter number, and the cosine and sine of the rest times 2^60, unrounded. The quarter is the quotient of an index, and what is defined by it
// counts: an enum would be made of it here and taken apart at its one use.
#[derive(Clone, Copy)]
pub struct Entry {
    pub quarter: usize,
    pub cosine: u64,
    pub sine: u64,
}

// The unrounded entry at an index, in parts of 1/6,720 of a circle.
pub fn unrounded(index: usize) -> Entry
    requires { index < 6720 }
    ensures { result ≡ entry_of index }
{
    let quarter = index / 1680;
    let b = index % 1680;
    if b > 840 {
        return Entry {
            quarter,
            cosine: SINES[1680 - b],
            sine: COSINES[1680 - b],
        };
    }
    Entry {
        quarter,
        cosine: COSINES[b],
        sine: SINES[b],
    }
}
