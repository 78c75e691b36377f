// The lent twiddles of sixteen iterations: read where they stand, or, packed for width 2, fetched from their places, one iteration after the other.
ghost use Rattle.std.specs.Prelude.{◌≡◌, true, ◌⊎◌, ℕ, ◌+◌, ◌-◌, ◌*◌, ◌^◌, ◌<◌, ◌≤◌, length, drop};
ghost use Rattle.packing.specs.Places.{is_width};
ghost use Rattle.floats.specs.Complexes.{cell};
ghost use Rattle.kernel.specs.Floats.{lent_at};
ghost use Rattle.lanes.specs.Parts.{Fetched};
ghost use Rattle.storing.specs.Parts.{Wrote};
ghost use Rattle.float_stage.specs.Parts.{Lending};
ghost use Rattle.float_stage.specs.declared.inner.lent.Layout.TheVariants.{Beside, Apart};

use floats::inner::cells::{get, put};

// How the twiddles of iterations that are in no whole lanes of 4 stand: one iteration after the other, or apart, to be fetched.
#[derive(Clone, Copy)]
pub enum Layout {
    Beside,
    Apart,
}

// n cells of tw from `from` on, every step-th, to the cells of t from `at` on.
fn gather(tw: &[f32], t: &mut [f32], at: usize, from: usize, n: usize, step: usize)
    requires { (2 * (at + n) ≤ length t.old) × ((u : ℕ) → u < n → 2 * (from + u * step) + 1 < length tw.now) }
    ensures { Wrote (λ u. cell tw.now (from + u * step)) at n t.old t.new }
{
    for u in 0..n {
        put(t, at + u, get(tw, from + u * step));
    }
}

// The twiddles of iteration i, packed for width 2, to those of iteration j of t.
fn fetch_one(tw: &[f32], t: &mut [f32], j: usize, i: usize, m: usize, r: usize, w: usize)
    requires { Lending m r (length tw.now) (length t.old) × (w ≡ 2) × (i < m) × (j < 16) }
    ensures { Wrote (λ u. lent_at m r w tw.now i (u + 1)) (j * (r - 1)) (r - 1) t.old t.new }
{
    let d = r - 1;
    let lane = i % 2;
    if i - lane + w <= m {
        gather(tw, t, j * d, (i - lane) * d + lane, d, w);
    } else {
        gather(tw, t, j * d, i * d, d, 1);
    }
}

// The twiddles of the len iterations from i on, where they are wanted.
pub fn fetch(
    tw: &[f32],
    t: &mut [f32],
    i: usize,
    m: usize,
    len: usize,
    r: usize,
    w: usize,
    layout: Layout,
)
    requires { Lending m r (length tw.now) (length t.old) × (layout ≡ Apart → w ≡ 2) × (i + len ≤ m) × (len ≤ 16) }
    ensures { layout ≡ Apart → Fetched i len r (lent_at m r w tw.now) t.new }
{
    match layout {
        Layout::Beside => {}
        Layout::Apart => {
            for j in 0..len {
                fetch_one(tw, t, j, i + j, m, r, w);
            }
        }
    }
}

// The layout of a width.
pub fn laid_out(w: usize) -> Layout
    requires { is_width w ≡ true }
    ensures { (result ≡ Beside → (w ≡ 1) ⊎ (w ≡ 4)) × (result ≡ Apart → w ≡ 2) }
{
    if w == 1 || w == 4 {
        Layout::Beside
    } else {
        Layout::Apart
    }
}

// The number of the first word of the twiddles of iteration i, where they stand one iteration after the other.
pub fn first_word(i: usize, r: usize) -> usize
    requires { (0 < r) × (2 * (i * (r - 1)) < 2 ^ 64) }
    ensures { result ≡ 2 * (i * (r - 1)) }
{
    2 * (i * (r - 1))
}

// The words of tw from `from` on, or those fetched.
pub fn lent<'a>(tw: &'a [f32], t: &'a [f32], layout: Layout, from: usize) -> &'a [f32]
    requires { from ≤ length tw.now }
    ensures { (layout ≡ Beside → result.now ≡ drop from tw.now) × (layout ≡ Apart → result.now ≡ t.now) }
{
    match layout {
        Layout::Beside => &tw[from..],
        Layout::Apart => t,
    }
}
