// The stages in remainders modulo m, where w turns by one of h parts of a circle.
#![tactic(auto)]

pub mod inner;

ghost use Rattle.remainder.specs.Calls.{Stages, Runs};

use inner::check::lent;
use plan::Record;
use plan::inner::records::is_planned;
use refusal::{Refusal, Verdict};
use residues::inner::drive::all;
use residues::inner::stage::work;

// Stage `number` of a plan in remainders modulo m: what the input makes is written to the other buffer.
pub fn stage(
    plan: Record,
    number: usize,
    m: u32,
    w: u32,
    input: &[u32],
    other: &mut [u32],
) -> Verdict
    ensures { Stages plan number m w input.now other.old result other.new }
{
    if !is_planned(plan) {
        return Err(Refusal::NotPlanned(0));
    }
    if number >= plan.count {
        return Err(Refusal::Stage);
    }
    lent(plan.half, m, w, input, other.len())?;
    work(plan, number, m as u64, w as u64, input, other);
    Ok(())
}

// A run of a plan in remainders modulo m: the stages in turn from Data to the scratchpad and back, a single radix copied back.
pub fn run(plan: Record, m: u32, w: u32, data: &mut [u32], scratch: &mut [u32]) -> Verdict
    ensures { Runs plan m w («data».old, scratch.old) result («data».new, scratch.new) }
{
    if !is_planned(plan) {
        return Err(Refusal::NotPlanned(0));
    }
    lent(plan.half, m, w, data, scratch.len())?;
    all(plan, m as u64, w as u64, data, scratch);
    Ok(())
}
