// Which records planning gives.
ghost use Rattle.std.specs.Prelude.{◌≡◌, ◌≤◌, eqb, length};
ghost use Rattle.radices.specs.Lists.{product, first_bad};
ghost use Rattle.plan.specs.Record.{in_order, is_planned};

use crate::Record;
use merging::inner::merging::Tally;
use radices::inner::lists::running_product;

// Whether the first entries are sorted and merged radices and the others 0.
fn in_order(count: usize, radices: [u8; 13]) -> bool
    ensures { result ≡ in_order count radices }
{
    if count > 13 {
        return false;
    }
    let tally = Tally::of(&radices[..count]);
    if tally.size() != count {
        return false;
    }
    if tally.twos + tally.fours > 1 {
        return false;
    }
    radices == tally.ascending()
}

// Whether the product of a list of radices is half.
fn makes(list: &[u8], half: usize) -> bool
    requires { (first_bad list.now ≡ length list.now) × (half ≤ 4096) }
    ensures { result ≡ eqb (product list.now) half }
{
    match running_product(list) {
        Ok(product) => product == half,
        Err(_) => false,
    }
}

// Whether planning gives the record.
pub fn is_planned(plan: Record) -> bool
    ensures { result ≡ is_planned plan }
{
    let count = plan.count;
    let radices = plan.radices;
    if !in_order(count, radices) {
        return false;
    }
    if plan.n > 8192 {
        return false;
    }
    if plan.half > 4096 {
        return false;
    }
    if plan.n != 2 * plan.half {
        return false;
    }
    makes(&radices[..count], plan.half)
}
