// Which plans, stages, widths, lengths and numbers are taken.
ghost use Rattle.std.specs.Prelude.{◌≡◌};
ghost use Rattle.stage.specs.Calls.{size_verdict, number_verdict, stage_verdict};

use counts::inner::stages::twiddle_count;
use packing::inner::places::is_width;
use plan::Record;
use plan::inner::records::is_planned;
use refusal::{Refusal, Verdict};
use scan::inner::scan::{CEILING, first_unfit};

// Refusals 5, 15, 6 and 8, in this order, of slices of so many words.
fn sizes(
    plan: Record,
    number: usize,
    width: usize,
    input: usize,
    output: usize,
    twiddles: usize,
) -> Verdict
    ensures { result ≡ size_verdict plan number width input output twiddles }
{
    if !is_planned(plan) {
        return Err(Refusal::NotPlanned(0));
    }
    if number >= plan.count {
        return Err(Refusal::Stage);
    }
    if !is_width(width) {
        return Err(Refusal::Width);
    }
    if input != 2 * plan.half {
        return Err(Refusal::Length(0));
    }
    if output != 2 * plan.half {
        return Err(Refusal::Length(1));
    }
    if twiddles != 2 * twiddle_count(plan, number) {
        return Err(Refusal::Length(3));
    }
    Ok(())
}

// Refusals 9 and 10, in this order.
fn numbers(input: &[f32], twiddles: &[f32]) -> Verdict
    ensures { result ≡ number_verdict input.now twiddles.now }
{
    if let Some(large) = first_unfit(input, CEILING) {
        return Err(Refusal::Number(large));
    }
    if let Some(wide) = first_unfit(twiddles, 1.0) {
        return Err(Refusal::Twiddle(wide));
    }
    Ok(())
}

// The verdict of a stage, whose other buffer has so many words.
pub fn lent(
    plan: Record,
    number: usize,
    width: usize,
    input: &[f32],
    output: usize,
    twiddles: &[f32],
) -> Verdict
    ensures { result ≡ stage_verdict plan number width input.now output twiddles.now }
{
    sizes(plan, number, width, input.len(), output, twiddles.len())?;
    numbers(input, twiddles)
}
