// Lists of radices: the first byte that is no radix, the product, the first of a value, counts, and lists that are built.
ghost use Rattle.std.specs.Prelude.{◌≡◌, ◌+◌, ◌<◌, ◌≤◌, ◌∷◌, ◌++◌, ℕ, List, [], length, take, replicate, MatchResult};
ghost use Rattle.sequences.specs.Found.{Found};
ghost use Rattle.radices.specs.Lists.{is_radix, product, first_bad, first_over, index_of, count_of, listed};

use crate::Radices;

// Whether a byte is a radix.
#[tactic(auto, unfolding(crate::specs::Lists::is_radix))]
fn is_radix(b: u8) -> bool
    ensures { result ≡ is_radix b }
{
    matches!(b, 2 | 3 | 4 | 5 | 7 | 8)
}

// The index of the first byte that is no radix.
pub fn first_bad(list: &[u8]) -> Option<usize>
    ensures { Found (length list.now) (first_bad list.now) result }
{
    list.iter().position(|&b| !is_radix(b))
}

// The index of the first v.
pub fn index_of(list: &[u8], v: u8) -> Option<usize>
    ensures { Found (length list.now) (index_of v list.now) result }
{
    list.iter().position(|&b| b == v)
}

// Where the running product of a list is first above the largest length, and the product up to there.
#[derive(Clone, Copy)]
pub struct Running {
    pub at: usize,
    pub product: usize,
}

// The product of a list, or where the running product is above the largest length.
pub fn running_product(list: &[u8]) -> Result<usize, Running>
    ensures { MatchResult result
        (λ n. (length list.now ≤ first_over 1 list.now) × (n ≡ product list.now))
        (λ over. (over.at ≡ first_over 1 list.now) × (over.product ≡ product (take over.at list.now)) × (over.at < length list.now)) }
{
    let mut product: usize = 1;
    for (i, &b) in list.iter().enumerate() {
        let next = product * usize::from(b);
        if next > 8192 {
            return Err(Running { at: i, product });
        }
        product = next;
    }
    Ok(product)
}

// The product of a list whose running product stays within the largest length.
pub fn product(list: &[u8]) -> usize
    requires { length list.now ≤ first_over 1 list.now }
    ensures { result ≡ product list.now }
{
    let mut all: usize = 1;
    for &b in list {
        all *= usize::from(b);
    }
    all
}

// How many bytes are v.
pub fn count_of(list: &[u8], v: u8) -> usize
    ensures { result ≡ count_of v list.now }
{
    let mut n: usize = 0;
    for i in 0..list.len() {
        if list[i] == v {
            n += 1;
        }
    }
    n
}

impl Radices {
    // No entries.
    pub fn new() -> Radices
        ensures count { result.count ≡ 0 }
        ensures list { result ≡ listed [] }
    {
        Radices {
            count: 0,
            entries: [0; 13],
        }
    }

    // The entries of a list.
    pub fn of(list: &[u8]) -> Radices
        requires { length list.now ≤ 13 }
        ensures count { result.count ≡ length list.now }
        ensures list { result ≡ listed list.now }
    {
        let mut all = Radices::new();
        all.extend_from_slice(list);
        all
    }

    // One more entry behind the others.
    pub fn push(&mut self, radix: u8)
        requires { self.old.count < 13 }
        ensures count { self.new.count ≡ self.old.count + 1 }
        ensures list { (xs : List ℕ) → self.old ≡ listed xs → self.new ≡ listed (xs ++ radix ∷ []) }
    {
        self.entries[self.count] = radix;
        self.count += 1;
    }

    // The same entry, a number of times, behind the others.
    pub fn push_times(&mut self, radix: u8, times: usize)
        requires { self.old.count + times ≤ 13 }
        ensures count { self.new.count ≡ self.old.count + times }
        ensures list { (xs : List ℕ) → self.old ≡ listed xs → self.new ≡ listed (xs ++ replicate times radix) }
    {
        let end = self.count + times;
        self.entries[self.count..end].fill(radix);
        self.count = end;
    }

    // The entries of a list behind the others.
    pub fn extend_from_slice(&mut self, list: &[u8])
        requires { self.old.count + length list.now ≤ 13 }
        ensures count { self.new.count ≡ self.old.count + length list.now }
        ensures list { (xs : List ℕ) → self.old ≡ listed xs → self.new ≡ listed (xs ++ list.now) }
    {
        for &b in list {
            self.push(b);
        }
    }
}
