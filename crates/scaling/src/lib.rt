// Scaling of two base lists.
#![tactic(auto)]

pub mod inner;

ghost use Rattle.scaling.specs.Scaling.{Scales};

use inner::scaling::scale_to;
use radices::Radices;
use refusal::Refusal;

// What scaling answers of lists that are accepted: the power of two, both scaled products and both scaled lists.
#[derive(Clone, Copy)]
pub struct Scaled {
    pub p: usize,
    pub in_product: usize,
    pub out_product: usize,
    pub in_list: Radices,
    pub out_list: Radices,
}

// Both base lists scaled so that the in-list's product is at least 512.
pub fn scale(in_list: &[u8], out_list: &[u8]) -> Result<Scaled, Refusal>
    ensures { Scales in_list.now out_list.now result }
{
    scale_to(512, in_list, out_list)
}
