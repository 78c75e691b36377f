// Whether the bees fan: the power of a band of a block's spectrum, held against a threshold.
#![tactic(auto)]

ghost use Rattle.std.specs.Prelude.{◌≡◌};
ghost use Rattle.hear.specs.Hear.{NumbersDecision, decided, hear_verdict, Hears};

use power::inner::sum::sum;
use refusal::{Refusal, Verdict};
use spectrum::Tables;
use spectrum::inner::check::lent_samples;
use transform::inner::directions::forward;

// What a block says of the bees.
#[derive(Clone, Copy)]
pub enum Decision {
    Fanning,
    Quiet,
}

// What a block that is heard answers. The verdict stands beside the decision, and is no Result of it: a refused block brakes too (`refused_brakes`).
#[derive(Clone, Copy)]
pub struct Heard {
    pub verdict: Verdict,
    pub power: f32,
    pub decision: Decision,
}

impl Decision {
    // The number of a decision: 0 for fanning, 1 for quiet.
    pub fn number(self) -> u32
        ensures { NumbersDecision self result }
    {
        match self {
            Decision::Fanning => 0,
            Decision::Quiet => 1,
        }
    }
}

// Fanning unless the power is below the threshold.
fn decide(power: f32, threshold: f32) -> Decision
    ensures { result ≡ decided power threshold }
{
    if power < threshold {
        Decision::Quiet
    } else {
        Decision::Fanning
    }
}

// The refusals of forward, and then that of a band that is none.
fn lent_band(
    tables: Tables,
    input: &[f32],
    output: usize,
    scratch: usize,
    lo: usize,
    hi: usize,
) -> Verdict
    ensures { result ≡ hear_verdict tables.entry.plan tables.entry.width input.now output scratch tables.entry.stage_twiddles.now tables.entry.end_twiddles.now lo hi }
{
    lent_samples(tables, input, output, scratch)?;
    if hi < lo {
        return Err(Refusal::Bins);
    }
    if hi > tables.plan.half {
        return Err(Refusal::Bins);
    }
    Ok(())
}

// The spectrum of n samples, the power of its bins lo to hi, and whether that is below the threshold.
pub fn hear(
    tables: Tables,
    input: &[f32],
    output: &mut [f32],
    scratch: &mut [f32],
    lo: usize,
    hi: usize,
    threshold: f32,
) -> Heard
    ensures { Hears tables.entry.plan tables.entry.width tables.entry.stage_twiddles.now tables.entry.end_twiddles.now input.now lo hi threshold (output.old, scratch.old) result (output.new, scratch.new) }
{
    match lent_band(tables, input, output.len(), scratch.len(), lo, hi) {
        Ok(()) => {
            forward(tables, input, output, scratch);
            let power = sum(output, lo, hi + 1 - lo);
            Heard {
                verdict: Ok(()),
                power,
                decision: decide(power, threshold),
            }
        }
        Err(why) => Heard {
            verdict: Err(why),
            power: 0.0,
            decision: Decision::Fanning,
        },
    }
}
