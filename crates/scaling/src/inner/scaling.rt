// Scaling of two base lists to a target.
ghost use Rattle.std.specs.Prelude.{◌≡◌, ◌+◌, ◌*◌, ◌^◌, ◌≤◌, ◌<◌, length, ◌++◌};
ghost use Rattle.radices.specs.Lists.{listed};
ghost use Rattle.scaling.specs.Parts.{Scalable};
ghost use Rattle.scaling.specs.Scaling.{gain, gained, list_rows, scaled};
ghost use Rattle.refusal.specs.Refusal.{verdict};

use crate::Scaled;
use radices::Radices;
use radices::inner::lists::{first_bad, product, running_product};
use refusal::{Refusal, Verdict};

// The smallest g with 2 ^ g times the base at least the target. No `for`: it is doubled until it is reached.
pub fn gain(target: usize, base: usize) -> usize
    requires { (target ≤ 4096) × ((0 < base) × (base ≤ 8192)) }
    ensures { result ≡ gain target base }
{
    let mut reached = base;
    let mut g = 0;
    while reached < target {
        reached *= 2;
        g += 1;
    }
    g
}

// 2 ^ g.
fn power(g: usize) -> usize
    requires { g ≤ 13 }
    ensures { result ≡ 2 ^ g }
{
    1 << g
}

// A base list, then an 8 for each three of g, then a 2 or 4 for one or two over.
pub fn grown(list: &[u8], g: usize) -> Radices
    requires { length (list.now ++ gained g) ≤ 13 }
    ensures { result ≡ listed (list.now ++ gained g) }
{
    let mut all = Radices::of(list);
    all.push_times(8, g / 3);
    match g % 3 {
        0 => {}
        1 => all.push(2),
        _ => all.push(4),
    }
    all
}

// Refusals 2 and 3 over a list, with indices that run on from `from`.
fn check(from: usize, list: &[u8]) -> Verdict
    requires { from + length list.now < 2 ^ 64 }
    ensures { result ≡ verdict (list_rows from list.now) }
{
    if let Some(bad) = first_bad(list) {
        return Err(Refusal::NoRadix(from + bad));
    }
    if let Err(over) = running_product(list) {
        return Err(Refusal::TooLarge(from + over.at));
    }
    Ok(())
}

// Two lists of radices scaled, with their products.
fn scaled_lists(target: usize, in_list: &[u8], out_list: &[u8]) -> Result<Scaled, Refusal>
    requires { Scalable target in_list.now out_list.now }
    ensures { result ≡ scaled target in_list.now out_list.now }
{
    let in_product = product(in_list);
    let out_product = product(out_list);
    let g = gain(target, in_product);
    let p = power(g);
    if p * out_product > 8192 {
        return Err(Refusal::TooLarge(in_list.len() + out_list.len()));
    }
    let grown_in = grown(in_list, g);
    let grown_out = grown(out_list, g);
    Ok(Scaled {
        p,
        in_product: p * in_product,
        out_product: p * out_product,
        in_list: grown_in,
        out_list: grown_out,
    })
}

// Both lists scaled so that the in-list's product is at least the target.
pub fn scale_to(target: usize, in_list: &[u8], out_list: &[u8]) -> Result<Scaled, Refusal>
    requires { target ≤ 4096 }
    ensures { result ≡ scaled target in_list.now out_list.now }
{
    check(0, in_list)?;
    check(in_list.len(), out_list)?;
    scaled_lists(target, in_list, out_list)
}
