// A float stage, sixteen iterations at a time.
ghost use Rattle.std.specs.Prelude.{◌≡◌, true, false, ℕ, ◌-◌, ◌*◌, ◌/◌, ◌%◌, ◌<◌, ◌≤◌, length};
ghost use Rattle.packing.specs.Places.{is_width};
ghost use Rattle.floats.specs.declared.complex.Complex.{Complex};
ghost use Rattle.kernel.specs.Floats.{lent_at, stage_of};
ghost use Rattle.kernel.specs.Parts.{output_of, Sized};
ghost use Rattle.storing.specs.Parts.{Done, Blocks, Batch, Even, Placed};
ghost use Rattle.float_stage.specs.Parts.{Lending, Workable};

use crate::inner::first::first;
use crate::inner::lent::{Layout, fetch, first_word, laid_out, lent};
use counts::inner::stages::stride;
use lanes::inner::lanes::{Outputs, lanes};
use plan::Record;
use storing::inner::storing::{Place, Span, evenly, store};

// The first stage of radix r, of m iterations.
fn first_stage(src: &[f32], dst: &mut [f32], m: usize, r: usize)
    requires { Sized m r (length src.now) × (2 * (m * r) ≤ length dst.old) }
    ensures { (lent : ℕ → ℕ → Complex) → Done 1 r (output_of true m r src.now lent) dst.new m }
{
    // By while: with `first` over all m and no rounds a forward transform of 1,024 takes over 192,000 instructions, not 56,363.
    let mut i = 0;
    while i < m {
        let len = (m - i).min(4096);
        first(src, dst, i, m, len, r);
        i += len;
    }
}

// How many iterations stand in whole lanes of 4.
fn in_fours(m: usize, w: usize) -> usize
    ensures { (result ≤ m) × (w ≡ 4 → result ≡ m / 4 * 4) × ((w ≡ 4 → ⊥) → result ≡ 0) }
{
    if w == 4 { m / 4 * 4 } else { 0 }
}

// Of a later stage of m iterations those below `end`, in whole lanes of 4; and the place of the next.
fn by_fours(
    src: &[f32],
    tw: &[f32],
    dst: &mut [f32],
    m: usize,
    end: usize,
    s: usize,
    r: usize,
    even: usize,
) -> Place
    requires { Sized m r (length src.now) × (2 * (m * (r - 1)) ≤ length tw.now) × Blocks m s r (length dst.old) × Batch even × Even even s × (end ≤ m / 4 * 4) × (end % 4 ≡ 0) × (3 ≤ r) }
    ensures { Placed even end s r result.block result.col × Done s r (output_of false m r src.now (lent_at m r 4 tw.now)) dst.new end }
{
    let mut low = Outputs::new();
    let mut high = Outputs::new();
    let mut at = Place { block: 0, col: 0 };
    // By while: with `for n in 0..end / 4`, and a for in by_sixteens, 1,458 at width 4 takes 148,041 instructions, not 137,443.
    let mut i = 0;
    while i < end {
        let len = (end - i).min(4);
        lanes::<4>(
            src,
            lent(tw, tw, Layout::Beside, first_word(i, r)),
            &mut low,
            &mut high,
            i,
            m,
            len,
            r,
        );
        let span = Span {
            i,
            m,
            len,
            s,
            r,
            even,
        };
        at = store::<4>(&low, &high, dst, at, span);
        i += len;
    }
    at
}

// Of a later stage the iterations from `end` on, sixteen at a time, of which the first goes to `start`; those in whole lanes of 4 are done.
fn by_sixteens(
    src: &[f32],
    tw: &[f32],
    dst: &mut [f32],
    start: Place,
    end: usize,
    m: usize,
    s: usize,
    r: usize,
    w: usize,
    even: usize,
)
    requires { Sized m r (length src.now) × Lending m r (length tw.now) 224 × (is_width w ≡ true) × Blocks m s r (length dst.old) × Batch even × Even even s × (end ≤ m) × (w ≡ 4 → m / 4 * 4 ≤ end) × Even even end × Placed even end s r start.block start.col }
    ensures { Done s r (output_of false m r src.now (lent_at m r w tw.now)) dst.old end → Done s r (output_of false m r src.now (lent_at m r w tw.now)) dst.new m }
{
    let mut t = [0.0f32; 224];
    let mut low = Outputs::new();
    let mut high = Outputs::new();
    let layout = laid_out(w);
    let mut at = start;
    // By while: with `for n in 0..(m - end).div_ceil(16)` 1,458 at width 1 takes 132,014 instructions, not 129,954.
    let mut i = end;
    while i < m {
        let len = (m - i).min(16);
        fetch(tw, &mut t, i, m, len, r, w, layout);
        lanes::<16>(
            src,
            lent(tw, &t, layout, first_word(i, r)),
            &mut low,
            &mut high,
            i,
            m,
            len,
            r,
        );
        let span = Span {
            i,
            m,
            len,
            s,
            r,
            even,
        };
        at = store::<16>(&low, &high, dst, at, span);
        i += len;
    }
}

// A later stage of radix r at stride s, of m iterations, its twiddles packed for width w. What has no iterations makes no lanes.
fn later_stage(src: &[f32], tw: &[f32], dst: &mut [f32], m: usize, s: usize, r: usize, w: usize)
    requires { Sized m r (length src.now) × Lending m r (length tw.now) 224 × (is_width w ≡ true) × Blocks m s r (length dst.old) }
    ensures { Done s r (output_of false m r src.now (lent_at m r w tw.now)) dst.new m }
{
    let even = evenly(s);
    let end = in_fours(m, w);
    let mut at = Place { block: 0, col: 0 };
    if end > 0 {
        at = by_fours(src, tw, dst, m, end, s, r, even);
    }
    if end < m {
        by_sixteens(src, tw, dst, at, end, m, s, r, w, even);
    }
}

// Stage j of an accepted plan from src into dst, its own twiddles packed for width w.
pub fn work(plan: Record, j: usize, w: usize, src: &[f32], dst: &mut [f32], tw: &[f32])
    requires { Workable plan j w (length src.now) (length tw.now) (length dst.old) }
    ensures { dst.new ≡ stage_of plan j w tw.now src.now }
{
    let r = plan.radices[j] as usize;
    let m = plan.half / r;
    if j == 0 {
        first_stage(src, dst, m, r);
    } else {
        later_stage(src, tw, dst, m, stride(plan, j), r, w);
    }
}
