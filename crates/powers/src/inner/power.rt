// Powers modulo m.
ghost use Rattle.std.specs.Prelude.{◌≡◌, ℕ, ◌<◌, ◌^◌, ◌%◌, get_or};

// w to the power e, the exponent halved at each step.
pub fn power(w: u64, e: u64, m: u64) -> u64
    requires { (0 < m) × ((m < 4294967296) × (w < m)) }
    ensures { result ≡ w ^ e % m }
{
    if e == 0 {
        return 1 % m;
    }
    let half = power(w, e / 2, m);
    let square = half * half % m;
    if e % 2 == 0 { square } else { square * w % m }
}

// The powers of w from 0 to 7.
pub fn powers(w: u64, m: u64) -> [u64; 8]
    requires { (1 < m) × ((m < 4294967296) × (w < m)) }
    ensures { (t : ℕ) → t < 8 → get_or result t 0 ≡ w ^ t % m }
{
    let mut all = [1u64; 8];
    for t in 1..8 {
        all[t] = all[t - 1] * w % m;
    }
    all
}
