// Twiddles filled from the house table: those of the stages, packed for a width, and those of the ends.
#![tactic(auto)]

pub mod inner;

ghost use Rattle.end_twiddles.specs.declared.inner.ends.Direction.TheVariants.{Forward, Inverse};
ghost use Rattle.twiddle.specs.Calls.{Fills};

use end_twiddles::inner::ends::Direction;
use inner::fill::fill;
use plan::Record;
use refusal::Verdict;

// The twiddles of a plan for the forward transform, packed for a width.
pub fn fill_forward(
    plan: Record,
    width: usize,
    stage_twiddles: &mut [f32],
    end_twiddles: &mut [f32],
) -> Verdict
    ensures { Fills Forward plan width (stage_twiddles.old, end_twiddles.old) result (stage_twiddles.new, end_twiddles.new) }
{
    fill(
        Direction::Forward,
        plan,
        width,
        stage_twiddles,
        end_twiddles,
    )
}

// The same for the inverse transform.
pub fn fill_inverse(
    plan: Record,
    width: usize,
    stage_twiddles: &mut [f32],
    end_twiddles: &mut [f32],
) -> Verdict
    ensures { Fills Inverse plan width (stage_twiddles.old, end_twiddles.old) result (stage_twiddles.new, end_twiddles.new) }
{
    fill(
        Direction::Inverse,
        plan,
        width,
        stage_twiddles,
        end_twiddles,
    )
}
