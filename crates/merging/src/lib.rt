// The merging of radices.
#![tactic(auto)]

pub mod inner;

// The merges that led to a plan, by their letters, unused entries 0. No heap, so they stand in an array with their count.
#[repr(C)]
#[derive(Clone, Copy)]
pub struct Merges {
    pub count: usize,
    pub letters: [u8; 13],
}
