// The half list.
ghost use Rattle.std.specs.Prelude.{◌≡◌, ◌≤◌, length};
ghost use Rattle.halving.specs.Half.{half, halving, Touches};
ghost use Rattle.radices.specs.Lists.{listed};

use radices::Radices;
use radices::inner::lists::index_of;

// What halving does to a list: an entry goes, or becomes another radix.
#[derive(Clone, Copy)]
pub enum Halving {
    Goes(usize),
    Becomes(usize, u8),
    Stays,
}

impl Halving {
    // Which entry goes or changes.
    pub fn of(list: &[u8]) -> Halving
        ensures which { result ≡ halving list.now }
        ensures within { Touches list.now result }
    {
        if let Some(two) = index_of(list, 2) {
            return Halving::Goes(two);
        }
        if let Some(eight) = index_of(list, 8) {
            return Halving::Becomes(eight, 4);
        }
        if let Some(four) = index_of(list, 4) {
            return Halving::Becomes(four, 2);
        }
        Halving::Stays
    }
}

// The list that is left.
pub fn half_list(list: &[u8]) -> Radices
    requires { length list.now ≤ 13 }
    ensures { result ≡ listed (half list.now) }
{
    match Halving::of(list) {
        Halving::Goes(at) => {
            let mut left = Radices::of(&list[..at]);
            left.extend_from_slice(&list[at + 1..]);
            left
        }
        Halving::Becomes(at, to) => {
            let mut left = Radices::of(list);
            left.entries[at] = to;
            left
        }
        Halving::Stays => Radices::of(list),
    }
}
