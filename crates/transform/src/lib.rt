// Both directions of the transform on whatever numbers are lent: the stages of a plan, and the steps at their ends.
#![tactic(auto)]

pub mod inner;

use plan::Record;

// What a transform goes by: its plan, and the twiddles of its stages and ends, packed for a width.
#[derive(Clone, Copy)]
pub struct Tables<'a> {
    pub plan: Record,
    pub width: usize,
    pub stage_twiddles: &'a [f32],
    pub end_twiddles: &'a [f32],
}
