// What an iteration reads, and its outputs. With literal radices the compiler unrolls the loops and folds the turns to constants. A const radix is
// unrolled too early: a call at 1,024 takes 221,141 instructions with it, and 56,199 without.
ghost use Rattle.std.specs.Prelude.{◌≡◌, true, false, ℕ, ◌+◌, ◌-◌, ◌*◌, ◌<◌, ◌≤◌, length, get_or};
ghost use Rattle.sequences.specs.Lists.{tabulate};
ghost use Rattle.radices.specs.Lists.{is_radix};
ghost use Rattle.floats.specs.Complexes.{blank, cell};
ghost use Rattle.kernel.specs.Parts.{kernel_of, read_of, Sized};

use floats::complex::Complex;
use floats::inner::cells::get;
use turn::inner::kernel::kernel_turn;

// Output p: cell 0, then plus each cell turned.
pub fn output(c: [Complex; 8], r: usize, p: usize) -> Complex
    requires { (is_radix r ≡ true) × (2 ≤ r) × (r ≤ 8) × (p < 8) }
    ensures { result ≡ kernel_of r (λ q. get_or c q blank) p }
{
    let mut acc = c[0];
    for q in 1..r {
        acc = acc + c[q].turned(kernel_turn(p * q % r, r));
    }
    acc
}

// All outputs, each p a literal. Those from r on are no one's, and fall away where r is a literal too.
pub fn outputs(c: [Complex; 8], r: usize) -> [Complex; 8]
    requires { (is_radix r ≡ true) × (2 ≤ r) × (r ≤ 8) }
    ensures { result ≡ tabulate 8 0 (kernel_of r (λ q. get_or c q blank)) }
{
    [
        output(c, r, 0),
        output(c, r, 1),
        output(c, r, 2),
        output(c, r, 3),
        output(c, r, 4),
        output(c, r, 5),
        output(c, r, 6),
        output(c, r, 7),
    ]
}

// What iteration i of m reads in the first stage.
pub fn cells(src: &[f32], i: usize, m: usize, r: usize) -> [Complex; 8]
    requires { Sized m r (length src.now) × (i < m) }
    ensures { (lent : ℕ → ℕ → Complex) (q : ℕ) → q < r → get_or result q blank ≡ read_of true m src.now lent i q }
{
    let mut c = [get(src, i); 8];
    for q in 1..r {
        c[q] = get(src, i + q * m);
    }
    c
}

// What it reads in a later one; its twiddles stand from `at` on in tw, `apart` apart.
pub fn twiddled(
    src: &[f32],
    tw: &[f32],
    i: usize,
    m: usize,
    r: usize,
    at: usize,
    apart: usize,
) -> [Complex; 8]
    requires { Sized m r (length src.now) × (i < m) × ((q : ℕ) → 0 < q → q < r → 2 * (at + (q - 1) * apart) + 1 < length tw.now) }
    ensures { (lent : ℕ → ℕ → Complex) → ((q : ℕ) → 0 < q → q < r → cell tw.now (at + (q - 1) * apart) ≡ lent i q) → (q : ℕ) → q < r → get_or result q blank ≡ read_of false m src.now lent i q }
{
    let mut c = cells(src, i, m, r);
    for q in 1..r {
        c[q] = c[q] * get(tw, at + (q - 1) * apart);
    }
    c
}
