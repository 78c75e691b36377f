// The f32 nearest to a whole number over 2^60, ties to even.
ghost use Rattle.std.specs.Prelude.{◌≡◌, false, ◌^◌, ◌<◌, ◌≤◌};
ghost use Rattle.std.specs.Float.{binary32};
ghost use Rattle.std.specs.Float.Ieee.{round};
ghost use Rattle.std.specs.Float.Ieee.Nearest.{closest as closestTo};
ghost use Rattle.house.specs.Rounding.{Beyond};

// c / u rounded to the nearest whole number, a tie to the even one. Returned early: by a match on cmp a filling takes 53.9 instructions a word, not 45.3.
fn closest(c: u64, u: u64) -> u64
    requires { (0 < u) × (u ≤ 2 ^ 61) × (c ≤ 2 ^ 62) }
    ensures { result ≡ closestTo c u }
{
    let quotient = c / u;
    let twice = c % u * 2;
    if twice < u {
        return quotient;
    }
    if twice == u {
        return quotient + quotient % 2;
    }
    quotient + 1
}

// How many binary digits of c are beyond the 24 that an f32 keeps.
fn beyond(c: u64) -> u32
    ensures { Beyond c result }
{
    40u32.saturating_sub(c.leading_zeros())
}

// c / 2^60 as an f32.
pub fn nearest(c: u64) -> f32
    requires { c ≤ 2 ^ 60 }
    ensures { result ≡ round binary32 false c (2 ^ 60) }
{
    let k = beyond(c);
    let q = closest(c, 1u64 << k);
    let scale = f32::from_bits((67 + k) * 8388608);
    (q as f32) * scale
}
