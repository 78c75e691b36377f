// Iterations of a later stage in lanes, at most N at a time. The twiddles stand as packed for width 4 where N is 4, and else one iteration after the
// other.
ghost use Rattle.std.specs.Prelude.{◌≡◌, true, false, ℕ, ◌+◌, ◌-◌, ◌*◌, ◌<◌, ◌≤◌, length, get_or};
ghost use Rattle.radices.specs.Lists.{is_radix};
ghost use Rattle.schedule.specs.Parts.{Every};
ghost use Rattle.floats.specs.Complexes.{blank, cell};
ghost use Rattle.kernel.specs.Parts.{kernel_of, output_of, read_of, Sized};
ghost use Rattle.lanes.specs.Parts.{slot, rows_lent, Lent, Taken, Saved, Pairs, Paired};

use floats::complex::Complex;
use kernel::inner::kernel::{output, twiddled};

// The outputs of iterations in lanes: output p of lane j stands at 16 * p + j.
#[derive(Drop)]
pub struct Outputs {
    pub re: [f32; 128],
    pub im: [f32; 128],
}

impl Outputs {
    // None yet.
    pub fn new() -> Outputs
        ensures { (length result.re ≡ 128) × (length result.im ≡ 128) }
    {
        Outputs {
            re: [0.0; 128],
            im: [0.0; 128],
        }
    }
}

// Every second of the r outputs of the cells c to lane j, each stored when it is made.
fn every_second(c: [Complex; 8], to: &mut Outputs, j: usize, r: usize, from: usize)
    requires { (is_radix r ≡ true) × (2 ≤ r) × (r ≤ 8) × (j < 16) × (from < 2) }
    ensures { Taken (Every from r) (kernel_of r (λ q. get_or c q blank)) j to.old.re to.old.im to.new.re to.new.im }
{
    for n in 0..(r - from).div_ceil(2) {
        let p = from + 2 * n;
        let z = output(c, r, p);
        let k = 16 * p + j;
        to.re[k] = z.re;
        to.im[k] = z.im;
    }
}

// The r outputs of the cells c to lane j: the even ones, then the odd ones, which share most with each other.
pub fn save(c: [Complex; 8], to: &mut Outputs, j: usize, r: usize)
    requires { (is_radix r ≡ true) × (2 ≤ r) × (r ≤ 8) × (j < 16) }
    ensures { Saved (kernel_of r (λ q. get_or c q blank)) j r to.old.re to.old.im to.new.re to.new.im }
{
    every_second(c, to, j, r, 0);
    every_second(c, to, j, r, 1);
}

// What iteration i reads, of lane j.
fn read<const N: usize>(
    src: &[f32],
    tw: &[f32],
    i: usize,
    m: usize,
    j: usize,
    r: usize,
) -> [Complex; 8]
    requires { Sized m r (length src.now) × (i < m) × (j < 16) × ((q : ℕ) → 0 < q → q < r → 2 * slot N r j q + 1 < length tw.now) }
    ensures { (lent : ℕ → ℕ → Complex) → ((q : ℕ) → 0 < q → q < r → cell tw.now (slot N r j q) ≡ lent i q) → (q : ℕ) → q < r → get_or result q blank ≡ read_of false m src.now lent i q }
{
    if N == 4 {
        twiddled(src, tw, i, m, r, j, 4)
    } else {
        twiddled(src, tw, i, m, r, j * (r - 1), 1)
    }
}

// Iterations i to i + len, to the lanes, each radix of a later stage written out: those below 7 to `low`, the others to `high`.
pub fn lanes<const N: usize>(
    src: &[f32],
    tw: &[f32],
    low: &mut Outputs,
    high: &mut Outputs,
    i: usize,
    m: usize,
    len: usize,
    r: usize,
)
    requires { Sized m r (length src.now) × (i + len ≤ m) × (len ≤ N) × (N ≤ 16) × (2 * (rows_lent N len * (r - 1)) ≤ length tw.now) × (3 ≤ r) }
    ensures { Pairs low.new.re low.new.im high.new.re high.new.im × ((lent : ℕ → ℕ → Complex) → Lent N i len r lent tw.now → Paired i len r (output_of false m r src.now lent) low.new.re low.new.im high.new.re high.new.im) }
{
    for j in 0..len {
        let k = i + j;
        match r {
            3 => save(read::<N>(src, tw, k, m, j, 3), low, j, 3),
            4 => save(read::<N>(src, tw, k, m, j, 4), low, j, 4),
            5 => save(read::<N>(src, tw, k, m, j, 5), low, j, 5),
            7 => save(read::<N>(src, tw, k, m, j, 7), high, j, 7),
            _ => save(read::<N>(src, tw, k, m, j, 8), high, j, 8),
        }
    }
}
