// Spectra of real samples: forward and inverse.
#![tactic(auto)]

pub mod inner;

ghost use Rattle.spectrum.specs.Calls.{Forwards, Inverts};

use inner::check::{is_bins, lent, lent_samples};
use refusal::Verdict;
use scan::inner::scan::CEILING;
pub use transform::Tables;
use transform::inner::directions;

// The spectrum of n samples: bins 0 to n / 2.
pub fn forward(tables: Tables, input: &[f32], output: &mut [f32], scratch: &mut [f32]) -> Verdict
    ensures { Forwards tables.entry.plan tables.entry.width tables.entry.stage_twiddles.now tables.entry.end_twiddles.now input.now (output.old, scratch.old) result (output.new, scratch.new) }
{
    lent_samples(tables, input, output.len(), scratch.len())?;
    directions::forward(tables, input, output, scratch);
    Ok(())
}

// The n samples of a spectrum, times n, and +0 beyond.
pub fn inverse(tables: Tables, input: &[f32], output: &mut [f32], scratch: &mut [f32]) -> Verdict
    ensures { Inverts tables.entry.plan tables.entry.width tables.entry.stage_twiddles.now tables.entry.end_twiddles.now input.now (output.old, scratch.old) result (output.new, scratch.new) }
{
    let is_input = is_bins(input.len(), tables.plan.half);
    let is_output = !(output.len() < tables.plan.n);
    lent(tables, is_input, is_output, scratch.len(), CEILING, input)?;
    directions::inverse(tables, input, output, scratch);
    Ok(())
}
