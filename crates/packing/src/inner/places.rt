// The widths, and where a twiddle stands among those of its stage.
ghost use Rattle.std.specs.Prelude.{◌≡◌, ◌<◌, ◌≤◌};
ghost use Rattle.packing.specs.Places.{is_width, place as Places·place};

use crate::inner::packing::Packing;

// Whether twiddles are packed for a width.
#[tactic(auto, unfolding(crate::specs::Places::is_width))]
pub fn is_width(width: usize) -> bool
    ensures { result ≡ is_width width }
{
    matches!(width, 1 | 2 | 4)
}

// The place of twiddle k of iteration i, in a stage of m iterations of radix r packed for a width. It takes the five numbers that a line of crate
// `recorded` has; the stages are filled by a Packing.
pub fn place(m: usize, r: usize, width: usize, i: usize, k: usize) -> usize
    requires { (m ≤ 4096) × (i < 4096) × (0 < r) × (r ≤ 8) × (0 < width) × (width ≤ 4) × (0 < k) × (k ≤ 8) }
    ensures { result ≡ Places·place m r width i k }
{
    let packing = Packing {
        iterations: m,
        radix: r,
        width,
    };
    let lane = packing.lane(i);
    lane.first + (k - 1) * lane.apart
}
