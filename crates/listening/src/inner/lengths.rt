// Which lengths a block can have, a list of radices for each, and the bins of a band.
ghost use Rattle.std.specs.Prelude.{◌≡◌, ◌<◌, ◌≤◌, IfSome};
ghost use Rattle.listening.specs.Lengths.{served, nearest_served, band_of, feigned};

use crate::Band;
use radices::Radices;

// Whether filling serves a block of so many samples.
#[tactic(auto, unfolding(crate::specs::Lengths::served))]
pub fn is_served(n: usize) -> bool
    ensures { result ≡ served n }
{
    n != 0 && n % 2 == 0 && 6720 % n == 0
}

// The served length that is nearest to n, the smaller of two.
pub fn nearest_served(n: usize) -> usize
    requires { n ≤ 6720 }
    ensures { result ≡ nearest_served n }
{
    for apart in 0..n {
        if is_served(n - apart) {
            return n - apart;
        }
        if is_served(n + apart) {
            return n + apart;
        }
    }
    2
}

// The largest of 7, 5, 3 and 2 that divides n, if one does; 0 has none.
fn factor(n: usize) -> Option<u8>
    ensures { IfSome result (λ r. (2 ≤ r) × (r ≤ 7)) }
{
    match n {
        0 => None,
        _ if n % 7 == 0 => Some(7),
        _ if n % 5 == 0 => Some(5),
        _ if n % 3 == 0 => Some(3),
        _ if n % 2 == 0 => Some(2),
        _ => None,
    }
}

// The prime factors of a length, up to 13 of them; whoever plans them sees by the plan's length whether they are all.
pub fn factors(n: usize) -> Radices
    ensures { result.count ≤ 13 }
{
    let mut entries = [0; 13];
    let mut left = n;
    for count in 0..13 {
        let Some(r) = factor(left) else {
            return Radices { count, entries };
        };
        entries[count] = r;
        left /= usize::from(r);
    }
    Radices { count: 13, entries }
}

// The bins of a band from lo to hi hertz in blocks of n samples, so many of them a second; none is bin 0.
pub fn band(n: usize, rate: usize, lo: usize, hi: usize) -> Band
    requires { (n ≤ 6720) × (0 < rate) × (rate ≤ 192000) × (lo ≤ 999999999) × (hi ≤ 999999999) }
    ensures { result ≡ band_of n rate lo hi }
{
    Band {
        lo: (lo * n).div_ceil(rate).max(1),
        hi: hi * n / rate,
    }
}

// How many parts of 2^-57 rounding alone can bring to the power of so many bins.
pub fn most_feigned(stages: usize, half: usize, bins: usize) -> usize
    requires { (stages ≤ 13) × (half ≤ 3360) × (bins ≤ 3361) }
    ensures { result ≡ feigned stages half bins }
{
    let distance = (33 * stages + 23) * half;
    513 * bins * distance * distance
}
