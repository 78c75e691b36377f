// The power of bins of a spectrum.
#![tactic(auto)]

pub mod inner;

ghost use Rattle.power.specs.Power.{Powers};

use inner::check::lent_bins;
use inner::sum::sum;
use refusal::Refusal;

// The power of bins lo to hi of a spectrum, or the refusal.
pub fn power(spectrum: &[f32], lo: usize, hi: usize) -> Result<f32, Refusal>
    ensures { Powers spectrum.now lo hi result }
{
    lent_bins(spectrum, lo, hi)?;
    Ok(sum(spectrum, lo, hi + 1 - lo))
}
