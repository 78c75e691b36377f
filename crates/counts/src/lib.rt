// Counts of a plan: its twiddles, and the buffer with the result of a run.
#![tactic(auto)]

pub mod inner;

ghost use Rattle.counts.specs.Counts.{NumbersBuffer, CountsStage, CountsEnd, Locates};

use inner::stages::{end_count, result_in, twiddle_start};
use plan::Record;
use plan::inner::records::is_planned;
use refusal::Refusal;

// One of the two buffers of a run.
#[derive(Clone, Copy, PartialEq, Eq)]
pub enum Buffer {
    Data,
    Scratchpad,
}

impl Buffer {
    // The number of a buffer: 0 for Data, 1 for Scratchpad.
    pub fn number(self) -> u32
        ensures { NumbersBuffer self result }
    {
        match self {
            Buffer::Data => 0,
            Buffer::Scratchpad => 1,
        }
    }
}

// How many twiddles the stages of a plan have together.
pub fn stage_twiddles(plan: Record) -> Result<usize, Refusal>
    ensures { CountsStage plan result }
{
    if !is_planned(plan) {
        return Err(Refusal::NotPlanned(0));
    }
    Ok(twiddle_start(plan, plan.count))
}

// How many end twiddles a plan has.
pub fn end_twiddles(plan: Record) -> Result<usize, Refusal>
    ensures { CountsEnd plan result }
{
    if !is_planned(plan) {
        return Err(Refusal::NotPlanned(0));
    }
    Ok(end_count(plan.n))
}

// Which buffer holds the result of a run of a plan.
pub fn result(plan: Record) -> Result<Buffer, Refusal>
    ensures { Locates plan result }
{
    if !is_planned(plan) {
        return Err(Refusal::NotPlanned(0));
    }
    Ok(result_in(plan.count))
}
