// Planning: from a list of radices to the plan record.
#![tactic(auto)]

pub mod inner;

ghost use Rattle.std.specs.Prelude.{◌≡◌};
ghost use Rattle.refusal.specs.Refusal.{Accepted};
ghost use Rattle.plan.specs.Record.{plan_verdict, accepted_plan, Plans, Accepts};
ghost use Rattle.radices.specs.Lists.{product};

use halving::inner::halving::half_list;
use merging::Merges;
use merging::inner::merging::Tally;
use radices::inner::lists::{first_bad, running_product};
use refusal::Refusal;

// A plan: the length, its half, and the radices of the stages in ascending order, unused entries 0.
#[repr(C)]
#[derive(Clone, Copy)]
pub struct Record {
    pub n: usize,
    pub half: usize,
    pub count: usize,
    pub radices: [u8; 13],
}

// What planning an accepted list answers: the plan, and the merges that led to it.
#[derive(Clone, Copy)]
pub struct Planned {
    pub plan: Record,
    pub merges: Merges,
}

// The plan of a list of radices, or the refusal.
pub fn plan(list: &[u8]) -> Result<Planned, Refusal>
    ensures { Plans list.now result }
{
    if list.is_empty() {
        return Err(Refusal::Empty);
    }
    if let Some(bad) = first_bad(list) {
        return Err(Refusal::NoRadix(bad));
    }
    let n = match running_product(list) {
        Ok(n) => n,
        Err(over) => return Err(Refusal::TooLarge(over.at)),
    };
    if n % 2 == 1 {
        return Err(Refusal::Odd);
    }
    Ok(accepted(list, n))
}

// Whether some list plans to this record.
pub fn accepts(plan: Record) -> bool
    ensures { Accepts plan result }
{
    inner::records::is_planned(plan)
}

// The answer of planning for an accepted list of product n.
fn accepted(list: &[u8], n: usize) -> Planned
    requires { (plan_verdict list.now ≡ Accepted) × (n ≡ product list.now) }
    ensures { result ≡ accepted_plan list.now }
{
    let half = half_list(list);
    let entries = half.entries;
    let count = half.count;
    let merged = Tally::of(&entries[..count]).merge_all();
    let tally = merged.tally;
    let merges = merged.merges;
    Planned {
        plan: Record {
            n,
            half: n / 2,
            count: tally.size(),
            radices: tally.ascending(),
        },
        merges,
    }
}
