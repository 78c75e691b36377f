// What is heard in a block, and what its bins add to a mean spectrum.
ghost use Rattle.std.specs.Prelude.{◌≡◌, ◌+◌, ◌*◌, ◌≤◌, length};
ghost use Rattle.listening.specs.Block.{Listens, full_scale, besides};

use crate::inner::window::weigh;
use crate::{Band, Block};
use hear::{Decision, hear};
use power::inner::sum::sum;
use spectrum::Tables;

// The power of a tone of full scale in blocks of n samples.
pub fn full_scale(n: usize) -> f32
    requires { n ≤ 6720 }
    ensures { result ≡ full_scale n }
{
    let long = n as f32;
    long * long * 0.09375
}

// Hears a block: its samples are weighed in place; the power in the band and outside it, bin 0 apart, and whether the bees fan.
pub fn listen(
    tables: Tables,
    samples: &mut [f32],
    weights: &[f32],
    spectrum: &mut [f32],
    scratch: &mut [f32],
    band: Band,
    threshold: f32,
) -> Block
    ensures { Listens tables.entry.plan tables.entry.width samples.old weights.now tables.entry.stage_twiddles.now tables.entry.end_twiddles.now band.lo band.hi threshold (spectrum.old, scratch.old) result samples.new (spectrum.new, scratch.new) }
{
    weigh(samples, weights);
    let heard = hear(
        tables, samples, spectrum, scratch, band.lo, band.hi, threshold,
    );
    match heard.verdict {
        Ok(()) => Block {
            verdict: Ok(()),
            band: heard.power,
            outside: beside(spectrum, band, tables.plan.half),
            decision: heard.decision,
        },
        Err(why) => Block {
            verdict: Err(why),
            band: 0.0,
            outside: 0.0,
            decision: Decision::Fanning,
        },
    }
}

// The power of the bins from 1 on that are not in the band.
fn beside(spectrum: &[f32], band: Band, half: usize) -> f32
    requires { (band.lo ≤ band.hi) × (band.hi ≤ half) × (2 * (half + 1) ≤ length spectrum.now) × (length spectrum.now ≤ 8194) }
    ensures { result ≡ besides spectrum.now band.lo band.hi half }
{
    let above = sum(spectrum, band.hi + 1, half - band.hi);
    if band.lo == 0 {
        return above;
    }
    sum(spectrum, 1, band.lo - 1) + above
}

// Adds the power of each bin to the sum of its bin, as far as there are both.
pub fn gather(spectrum: &[f32], sums: &mut [f64]) {
    if spectrum.len() > 8194 {
        return;
    }
    for k in 0..sums.len().min(spectrum.len() / 2) {
        sums[k] += std::num::f32_to_f64_with_nan(sum(spectrum, k, 1));
    }
}
