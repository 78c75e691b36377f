// Lists of radices.
#![tactic(auto)]

pub mod inner;

// A list of radices, unused entries 0. It crosses to C: an array with its count.
#[repr(C)]
#[derive(Clone, Copy)]
pub struct Radices {
    pub count: usize,
    pub entries: [u8; 13],
}
