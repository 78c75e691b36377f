// Outputs of iterations in lanes to their cells, some of one block at a time.
ghost use Rattle.std.specs.Prelude.{◌≡◌, ℕ, ◌+◌, ◌-◌, ◌*◌, ◌/◌, ◌%◌, ◌^◌, ◌<◌, ◌≤◌, length};
ghost use Rattle.lanes.specs.Parts.{lane, Paired};
ghost use Rattle.storing.specs.Parts.{Wrote, Done, InBlock, Stored, Batch, Even, Evenly, Placed, Waiting};

use floats::complex::Complex;
use floats::inner::cells::put;
use lanes::inner::lanes::Outputs;

// n cells of the lanes from k on, to the cells from `at` on.
fn row(from: &Outputs, k: usize, dst: &mut [f32], at: usize, n: usize)
    requires { (k + n ≤ 128) × (2 * (at + n) ≤ length dst.old) }
    ensures { Wrote (λ t. lane from.now.re from.now.im (k + t)) at n dst.old dst.new }
{
    for t in 0..n {
        let z = Complex {
            re: from.re[k + t],
            im: from.im[k + t],
        };
        put(dst, at + t, z);
    }
}

// The same for 1, 2 or 4 cells, each written out, so that the compiler makes no loop of it.
fn piece(from: &Outputs, k: usize, dst: &mut [f32], at: usize, n: usize)
    requires { Batch n × (0 < n) × (k + n ≤ 128) × (2 * (at + n) ≤ length dst.old) }
    ensures { Wrote (λ t. lane from.now.re from.now.im (k + t)) at n dst.old dst.new }
{
    match n {
        4 => row(from, k, dst, at, 4),
        2 => row(from, k, dst, at, 2),
        _ => row(from, k, dst, at, 1),
    }
}

// The outputs of the n iterations from i on, which are of one block, from the lanes from j on to their cells, the first at `at`.
pub fn rows(
    from: &Outputs,
    j: usize,
    dst: &mut [f32],
    at: usize,
    i: usize,
    n: usize,
    s: usize,
    r: usize,
)
    requires { InBlock i n s r (length dst.old) × (at ≡ i / s * (s * r) + i % s) × Batch n × (0 < n) × (j + n ≤ 16) }
    ensures { (v : ℕ → ℕ → Complex) → ((t p : ℕ) → t < n → p < r → lane from.now.re from.now.im (16 * p + j + t) ≡ v (i + t) p) → Done s r v dst.old i → Done s r v dst.new (i + n) }
{
    for p in 0..r {
        piece(from, 16 * p + j, dst, at + p * s, n);
    }
}

// How many cells are stored at once where that divides the stride; 0 where it is found anew each time.
pub fn evenly(s: usize) -> usize
    ensures { Batch result × Even result s }
{
    if s % 4 == 0 {
        return 4;
    }
    if s == 2 {
        return 2;
    }
    0
}

// How many are stored at once of a left in the block and b in the lanes.
pub fn batch(even: usize, a: usize, b: usize) -> usize
    requires { Batch even × Even even a × Even even b × (0 < a) × (0 < b) }
    ensures { Batch result × (0 < result) × (result ≤ a) × (result ≤ b) × Even even result }
{
    if even > 0 {
        return even;
    }
    let n = a.min(b);
    if n > 3 {
        return 4;
    }
    if n > 1 {
        return 2;
    }
    1
}

// Where the first output of an iteration goes: the start of its block, and its column there.
#[derive(Clone, Copy)]
pub struct Place {
    pub block: usize,
    pub col: usize,
}

impl Place {
    // The place n iterations on, of the same block or at the start of the next.
    pub fn onward(self, n: usize, s: usize, r: usize) -> Place
        requires { (self.col + n ≤ s) × (self.block + s * r < 2 ^ 64) }
        ensures { (self.col + n < s → (result.block ≡ self.block) × (result.col ≡ self.col + n)) × (self.col + n ≡ s → (result.block ≡ self.block + s * r) × (result.col ≡ 0)) }
    {
        let col = self.col + n;
        if col == s {
            return Place {
                block: self.block + s * r,
                col: 0,
            };
        }
        Place {
            block: self.block,
            col,
        }
    }
}

// The outputs of radix r: each of the two serves some radices only, so that the compiler still sees that its arrays do not escape.
fn pick<'a>(low: &'a Outputs, high: &'a Outputs, r: usize) -> &'a Outputs
    ensures { (r < 7 → result.now ≡ low.now) × (7 ≤ r → result.now ≡ high.now) }
{
    if r < 7 { low } else { high }
}

// How far the outputs of iterations in lanes are stored: the place of the next, and its lane.
#[derive(Clone, Copy)]
pub struct Next {
    pub at: Place,
    pub j: usize,
}

// Iterations in lanes: the len from i on, of the m of a stage of radix r at stride s, of which `even` are stored at once, or 0 where that is found anew.
#[derive(Clone, Copy)]
pub struct Span {
    pub i: usize,
    pub m: usize,
    pub len: usize,
    pub s: usize,
    pub r: usize,
    pub even: usize,
    ghost evenly: { Evenly even len s },
}

// Of the iterations of a span, whose outputs are stored below lane j, some more of one block.
pub fn step<'a>(
    low: &'a Outputs,
    high: &'a Outputs,
    dst: &mut [f32],
    at: Place,
    j: usize,
    span: Span,
) -> Next
    requires { Stored span.i span.m span.len span.s span.r (length dst.old) × Waiting span.even span.i span.len span.s span.r at.block at.col j × (j < span.len) }
    ensures { Waiting span.even span.i span.len span.s span.r result.at.block result.at.col result.j × (j < result.j) × ((v : ℕ → ℕ → Complex) → Paired span.i span.len span.r v low.now.re low.now.im high.now.re high.now.im → Done span.s span.r v dst.old (span.i + j) → Done span.s span.r v dst.new (span.i + result.j)) }
{
    let from = pick(low, high, span.r);
    let n = batch(span.even, span.s - at.col, span.len - j);
    rows(
        from,
        j,
        dst,
        at.block + at.col,
        span.i + j,
        n,
        span.s,
        span.r,
    );
    Next {
        at: at.onward(n, span.s, span.r),
        j: j + n,
    }
}

// The outputs of the iterations of a span, at most N, from the lanes to their cells, some of one block at a time; and the place of the next. Each N
// is an instance of its own, since the compiler makes vectors only of lanes that one function stores.
pub fn store<'a, const N: usize>(
    low: &'a Outputs,
    high: &'a Outputs,
    dst: &mut [f32],
    start: Place,
    span: Span,
) -> Place
    requires { Stored span.i span.m span.len span.s span.r (length dst.old) × (span.len ≤ N) × Placed span.even span.i span.s span.r start.block start.col }
    ensures { Placed span.even (span.i + span.len) span.s span.r result.block result.col × ((v : ℕ → ℕ → Complex) → Paired span.i span.len span.r v low.now.re low.now.im high.now.re high.now.im → Done span.s span.r v dst.old span.i → Done span.s span.r v dst.new (span.i + span.len)) }
{
    // by while: how many are stored at once is found in each step
    let mut next = Next { at: start, j: 0 };
    while next.j < span.len {
        next = step(low, high, dst, next.at, next.j, span);
    }
    next.at
}
