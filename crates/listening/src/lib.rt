// A block of samples listened to: which lengths are served, the bins of a band, the window, and what is heard.
#![tactic(auto)]

pub mod inner;

use hear::Decision;
use refusal::Verdict;

// What a block answers: the power in the band and outside it, and whether the bees fan, which holds on a refusal too (`refused_fans`).
#[derive(Clone, Copy)]
pub struct Block {
    pub verdict: Verdict,
    pub band: f32,
    pub outside: f32,
    pub decision: Decision,
}

// The bins of a band, both included.
#[derive(Clone, Copy)]
pub struct Band {
    pub lo: usize,
    pub hi: usize,
}
