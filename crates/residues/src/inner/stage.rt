// A stage in remainders: the cells of each iteration are read and twiddled, and its outputs are made and written.
ghost use Rattle.std.specs.Prelude.{◌≡◌, ℕ, ◌≤◌, ◌<◌, length, get_or};
ghost use Rattle.schedule.specs.Parts.{Every};
ghost use Rattle.residues.specs.Parts.{Lent, kernel_of, read_of, output_of, Spread, Made, Reading, Writing, Staged, Workable};
ghost use Rattle.residues.specs.Residues.{cells, stage_of, Under};

use counts::inner::stages::stride;
use plan::Record;
use powers::inner::power::{power, powers};

// A stage of so many iterations at a stride, the cells of each so far apart, in remainders modulo `modulus`: its kernel turns by the powers
// `turns`, and from one column to the next it is `step`.
#[derive(Clone, Copy)]
struct Stage {
    modulus: u64,
    stride: usize,
    apart: usize,
    step: u64,
    turns: [u64; 8],
    ghost lent: { Lent modulus stride step turns },
}

// The radix R is a constant, so that the compiler writes out the loops over it.
impl Stage {
    // What iteration i reads: for q below the radix cell i + q * apart, times v to the power q.
    fn cells<const R: usize>(&self, src: &[u32], i: usize, v: u64) -> [u64; R]
        requires { Reading self.now.modulus v self.now.apart i R src.now }
        ensures { (q : ℕ) → q < R → get_or result q 0 ≡ read_of self.now.modulus v self.now.apart src.now i q }
    {
        let mut cells = [src[i] as u64; R];
        let mut power = v;
        for q in 1..R {
            cells[q] = src[i + q * self.apart] as u64 * power % self.modulus;
            power = power * v % self.modulus;
        }
        cells
    }

    // Output p: cell 0, then plus each cell turned.
    fn output<const R: usize>(&self, c: &[u64; R], p: usize) -> u64
        requires { (R ≤ 8) × (p < R) × Under self.now.modulus R c.now }
        ensures { (result < self.now.modulus) × (result ≡ kernel_of self.now.modulus self.now.turns R (cells c.now) p) }
    {
        let mut sum = c[0];
        for q in 1..R {
            sum = (sum + c[q] * self.turns[p * q % R]) % self.modulus;
        }
        sum
    }

    // Every second output, from the first or the second on, written from `to` on, a stride apart. By (b..R).step_by(2) a cell of radix 7 takes
    // 122.7 instructions, not 76.5: that loop is not written out.
    fn every<const R: usize>(&self, c: &[u64; R], b: usize, to: usize, dst: &mut [u32])
        requires { Writing to self.now.stride R (length dst.old) × Under self.now.modulus R c.now × (b < 2) }
        ensures { Spread (Every b R) to self.now.stride (kernel_of self.now.modulus self.now.turns R (cells c.now)) dst.old dst.new }
    {
        for k in 0..(R - b).div_ceil(2) {
            let p = b + 2 * k;
            dst[to + p * self.stride] = self.output(c, p) as u32;
        }
    }

    // Iteration i, its outputs written from `to` on: the even ones, then the odd ones. Eight in one loop are more than the compiler writes out.
    fn iteration<const R: usize>(&self, src: &[u32], i: usize, v: u64, to: usize, dst: &mut [u32])
        requires { Reading self.now.modulus v self.now.apart i R src.now × Writing to self.now.stride R (length dst.old) }
        ensures { Spread (λ p. p < R) to self.now.stride (kernel_of self.now.modulus self.now.turns R (read_of self.now.modulus v self.now.apart src.now i)) dst.old dst.new }
    {
        let c = self.cells::<R>(src, i, v);
        self.every(&c, 0, to, dst);
        self.every(&c, 1, to, dst);
    }

    // All iterations in turn: the column, its power and the block's start are stepped along, and the power starts anew with each block.
    // A loop for each block takes a fifth more instructions at radix 2.
    fn iterations<const R: usize>(&self, src: &[u32], dst: &mut [u32])
        requires { Staged self.now.modulus self.now.apart self.now.stride R src.now (length dst.old) }
        ensures { Made self.now.stride R (output_of self.now.modulus self.now.step self.now.apart self.now.stride R src.now self.now.turns) dst.new self.now.apart }
    {
        let width = self.stride * R;
        let mut block = 0;
        let mut column = 0;
        let mut v = 1;
        for i in 0..self.apart {
            self.iteration::<R>(src, i, v, block + column, dst);
            column += 1;
            if column == self.stride {
                block += width;
                column = 0;
                v = 1;
            } else {
                v = v * self.step % self.modulus;
            }
        }
    }

    // All iterations at a radix, which is written out.
    fn run(&self, radix: usize, src: &[u32], dst: &mut [u32])
        requires { Staged self.now.modulus self.now.apart self.now.stride radix src.now (length dst.old) }
        ensures { Made self.now.stride radix (output_of self.now.modulus self.now.step self.now.apart self.now.stride radix src.now self.now.turns) dst.new self.now.apart }
    {
        match radix {
            2 => self.iterations::<2>(src, dst),
            3 => self.iterations::<3>(src, dst),
            4 => self.iterations::<4>(src, dst),
            5 => self.iterations::<5>(src, dst),
            7 => self.iterations::<7>(src, dst),
            _ => self.iterations::<8>(src, dst),
        }
    }
}

// Stage j of an accepted plan, from src into dst.
pub fn work(plan: Record, j: usize, m: u64, w: u64, src: &[u32], dst: &mut [u32])
    requires { Workable plan m w src.now (length dst.old) × (j < plan.count) }
    ensures { dst.new ≡ stage_of plan j m w src.now }
{
    let s = stride(plan, j);
    let r = plan.radices[j] as usize;
    let apart = plan.half / r;
    let step = power(w, (apart / s) as u64, m);
    let root = power(w, apart as u64, m);
    let turns = powers(root, m);
    let stage = Stage {
        modulus: m,
        stride: s,
        apart,
        step,
        turns,
    };
    stage.run(r, src, dst);
}
