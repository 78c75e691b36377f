// Filling, in either direction.
ghost use Rattle.twiddle.specs.Calls.{Fills};

use crate::inner::check::lent;
use end_twiddles::inner::ends::{Direction, ends};
use packing::inner::stages::stages;
use plan::Record;
use refusal::Verdict;

// The twiddles of a plan, packed for a width.
pub fn fill(
    direction: Direction,
    plan: Record,
    width: usize,
    stage_twiddles: &mut [f32],
    end_twiddles: &mut [f32],
) -> Verdict
    ensures { Fills direction plan width (stage_twiddles.old, end_twiddles.old) result (stage_twiddles.new, end_twiddles.new) }
{
    lent(plan, width, stage_twiddles.len(), end_twiddles.len())?;
    stages(plan, width, stage_twiddles);
    ends(direction, plan.n, end_twiddles);
    Ok(())
}
