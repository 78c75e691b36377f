// Which plans, widths and lengths are taken.
ghost use Rattle.std.specs.Prelude.{◌≡◌};
ghost use Rattle.twiddle.specs.Calls.{fill_verdict};

use counts::inner::stages::{end_count, twiddle_start};
use packing::inner::places::is_width;
use plan::Record;
use plan::inner::records::is_planned;
use refusal::{Refusal, Verdict};
use turn::inner::lookup::is_housed;

// Refusals 5, 6, 7 and 8, in this order, of slices of so many words.
pub fn lent(plan: Record, width: usize, stage: usize, end: usize) -> Verdict
    ensures { result ≡ fill_verdict plan width stage end }
{
    if !is_planned(plan) {
        return Err(Refusal::NotPlanned(0));
    }
    if !is_width(width) {
        return Err(Refusal::Width);
    }
    if !is_housed(plan.n) {
        return Err(Refusal::NotHoused);
    }
    if stage != 2 * twiddle_start(plan, plan.count) {
        return Err(Refusal::Length(3));
    }
    if end != 2 * end_count(plan.n) {
        return Err(Refusal::Length(4));
    }
    Ok(())
}
