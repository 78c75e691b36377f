// The steps at both ends, from one slice to another of h + 1 cells.
ghost use Rattle.std.specs.Prelude.{◌≡◌, length, ◌+◌, ◌*◌, ◌≤◌, ◌<◌};
ghost use Rattle.ends.specs.Ends.{ended, postprocess_fft};
ghost use Rattle.floats.specs.Complexes.{cell, put_cell};
ghost use Rattle.ends.specs.Parts.{prepared, Endable, EndsAs, Batchable, Batched, Stepped};

use floats::complex::Complex;
use floats::inner::cells::{get, put};
use floats::inner::words::paste;
use mixing::inner::forward::Forward;
use mixing::inner::inverse::Inverse;
use mixing::inner::steps::Direction;

// Two cells, written.
fn put_both(cells: &mut [f32], i: usize, j: usize, y: Complex, z: Complex)
    requires { (2 * i + 1 < length cells.old) × (2 * j + 1 < length cells.old) }
    ensures { cells.new ≡ put_cell (put_cell cells.old i y) j z }
{
    put(cells, i, y);
    put(cells, j, z);
}

// What the steps at the ends read: a row of cells, of which h are there at least, and the end twiddle of each pair.
#[derive(Clone, Copy)]
struct Row<'a> {
    cells: &'a [f32],
    twiddles: &'a [f32],
    h: usize,
}

impl<'a> Row<'a> {
    // The pairs k to k + len, one way: their near cells to `ahead`, and their far cells to the end of `back`, the last pair's first. The two are apart,
    // and no struct: the compiler makes vectors only of writes to arrays that it sees to be different ones.
    fn batch<D: Direction>(self, ahead: &mut [f32; 64], back: &mut [f32; 64], k: usize, len: usize)
        requires { Batchable self.h k len (length self.cells.now) (length self.twiddles.now) }
        ensures { (length ahead.new ≡ 64) × (length back.new ≡ 64) × Batched D.steps self.entry.h self.entry.twiddles.now self.entry.cells.now k len ahead.new back.new }
    {
        for j in 0..len {
            let a = get(self.cells, k + j);
            let b = get(self.cells, self.h - k - j);
            let t = get(self.twiddles, k + j - 1);
            put(ahead, j, D::near(a, b, t));
            put(back, 31 - j, D::far(a, b, t));
        }
    }

    // The same, put in their places of the other slice.
    fn step<D: Direction>(
        self,
        ahead: &mut [f32; 64],
        back: &mut [f32; 64],
        out: &mut [f32],
        k: usize,
        len: usize,
    )
        requires { Batchable self.h k len (length self.cells.now) (length self.twiddles.now) × (length out.old ≡ 2 * (self.h + 1)) }
        ensures { Stepped D.steps self.entry.h self.entry.twiddles.now self.entry.cells.now out.old k → Stepped D.steps self.entry.h self.entry.twiddles.now self.entry.cells.now out.new (k + len) }
    {
        self.batch::<D>(ahead, back, k, len);
        let words = 2 * len;
        paste(&ahead[..words], out, 2 * k);
        paste(&back[64 - words..], out, 2 * (self.h - k - len + 1));
    }

    // Every pair of cells k and h - k, one way, 32 pairs at a time; answers the number past the last.
    fn pairs<D: Direction>(self, out: &mut [f32]) -> usize
        requires { Endable self.h (length out.old) (length self.twiddles.now) × (2 * self.h ≤ length self.cells.now) }
        ensures { (self.entry.h ≤ 2 * result) × (result ≤ 4096) × (Stepped D.steps self.entry.h self.entry.twiddles.now self.entry.cells.now out.old 1 → Stepped D.steps self.entry.h self.entry.twiddles.now self.entry.cells.now out.new result) }
    {
        let mut ahead = [0.0; 64];
        let mut back = [0.0; 64];
        let end = (self.h + 1) / 2;
        // By while: as `for n in 0..(end - 1).div_ceil(32)` a forward transform of 1,024 takes 56,717 instructions, not 56,363, and by step_by 56,738.
        let mut k = 1;
        while k < end {
            let len = (end - k).min(32);
            self.step::<D>(&mut ahead, &mut back, out, k, len);
            k += len;
        }
        k
    }

    // All h + 1 cells, one way, with y for cell h.
    fn end<D: Direction>(self, y: Complex, out: &mut [f32])
        requires { Endable self.h (length out.old) (length self.twiddles.now) × (2 * self.h ≤ length self.cells.now) × EndsAs D.steps (cell self.cells.now 0) y (cell self.cells.now self.h) }
        ensures { out.new ≡ ended D.steps self.entry.h self.entry.twiddles.now self.entry.cells.now }
    {
        let x = get(self.cells, 0);
        put_both(out, 0, self.h, D::first(x, y), D::last(x, y));
        let k = self.pairs::<D>(out);
        if 2 * k == self.h {
            let c = get(self.cells, k);
            put(out, k, D::centre(c));
        }
    }
}

// From the h complex outputs of the stages to h + 1 bins.
pub fn postprocess_fft(cells: &[f32], twiddles: &[f32], out: &mut [f32], h: usize)
    requires { Endable h (length out.old) (length twiddles.now) × (2 * h ≤ length cells.now) }
    ensures { out.new ≡ postprocess_fft h twiddles.now cells.now }
{
    let row = Row { cells, twiddles, h };
    row.end::<Forward>(Complex { re: 0.0, im: 0.0 }, out);
}

// From h + 1 bins to the h complex inputs of the stages, conjugated; bin h stays in its cell.
pub fn preprocess_ifft(cells: &[f32], twiddles: &[f32], out: &mut [f32], h: usize)
    requires { Endable h (length out.old) (length twiddles.now) × (2 * (h + 1) ≤ length cells.now) }
    ensures { out.new ≡ prepared h twiddles.now cells.now }
{
    let row = Row { cells, twiddles, h };
    row.end::<Inverse>(get(cells, h), out);
}
