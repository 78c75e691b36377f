// The first stage: the outputs of an iteration stand side by side.
ghost use Rattle.std.specs.Prelude.{true, ℕ, ◌+◌, ◌*◌, ◌≤◌, length, get_or};
ghost use Rattle.floats.specs.Complexes.{blank};
ghost use Rattle.kernel.specs.Parts.{output_of, Sized};
ghost use Rattle.storing.specs.Parts.{Wrote, Done};

use floats::complex::Complex;
use floats::inner::cells::put;
use kernel::inner::kernel::{cells, outputs};

// The first r outputs to the cells from `at` on.
fn spread(o: [Complex; 8], dst: &mut [f32], at: usize, r: usize)
    requires { (r ≤ 8) × (2 * (at + r) ≤ length dst.old) }
    ensures { Wrote (λ p. get_or o p blank) at r dst.old dst.new }
{
    for p in 0..r {
        put(dst, at + p, o[p]);
    }
}

// Iterations i to i + len, each radix written out, so that the compiler folds its turns.
pub fn first(src: &[f32], dst: &mut [f32], i: usize, m: usize, len: usize, r: usize)
    requires { Sized m r (length src.now) × (i + len ≤ m) × (2 * (m * r) ≤ length dst.old) }
    ensures { (lent : ℕ → ℕ → Complex) → Done 1 r (output_of true m r src.now lent) dst.old i → Done 1 r (output_of true m r src.now lent) dst.new (i + len) }
{
    for k in i..i + len {
        match r {
            2 => spread(outputs(cells(src, k, m, 2), 2), dst, k * 2, 2),
            3 => spread(outputs(cells(src, k, m, 3), 3), dst, k * 3, 3),
            4 => spread(outputs(cells(src, k, m, 4), 4), dst, k * 4, 4),
            5 => spread(outputs(cells(src, k, m, 5), 5), dst, k * 5, 5),
            7 => spread(outputs(cells(src, k, m, 7), 7), dst, k * 7, 7),
            _ => spread(outputs(cells(src, k, m, 8), 8), dst, k * 8, 8),
        }
    }
}
