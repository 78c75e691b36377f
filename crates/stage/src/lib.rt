// The float stages of a plan, one by a checked call and all by a driver, equal to the schedule operation by operation.
#![tactic(auto)]

pub mod inner;

ghost use Rattle.stage.specs.Calls.{Stages};

use float_stage::inner::stage::work;
use inner::check::lent;
use plan::Record;
use refusal::Verdict;

// Stage `number` of a plan: what the input makes, with the stage's own twiddles packed for a width, is written to the output.
pub fn stage(
    plan: Record,
    number: usize,
    width: usize,
    input: &[f32],
    output: &mut [f32],
    twiddles: &[f32],
) -> Verdict
    ensures { Stages plan number width input.now output.old twiddles.now result output.new }
{
    lent(plan, number, width, input, output.len(), twiddles)?;
    work(plan, number, width, input, output, twiddles);
    Ok(())
}
