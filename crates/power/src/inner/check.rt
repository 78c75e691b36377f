// Which lengths, bins and numbers a sum of power takes.
ghost use Rattle.std.specs.Prelude.{◌≡◌};
ghost use Rattle.power.specs.Power.{power_verdict};

use refusal::{Refusal, Verdict};
use scan::inner::scan::{CEILING, first_unfit};

// Refusals 8, 14 and 9 of a sum of power, in this order.
pub fn lent_bins(spectrum: &[f32], lo: usize, hi: usize) -> Verdict
    ensures { result ≡ power_verdict spectrum.now lo hi }
{
    let words = spectrum.len();
    if words % 2 != 0 {
        return Err(Refusal::Length(0));
    }
    if words < 4 {
        return Err(Refusal::Length(0));
    }
    if words > 8194 {
        return Err(Refusal::Length(0));
    }
    if hi < lo {
        return Err(Refusal::Bins);
    }
    if hi >= words / 2 {
        return Err(Refusal::Bins);
    }
    if let Some(large) = first_unfit(spectrum, CEILING) {
        return Err(Refusal::Number(large));
    }
    Ok(())
}
