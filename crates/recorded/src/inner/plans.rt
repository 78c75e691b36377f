// The plan of a record's list, and its half list.
ghost use Rattle.std.specs.Prelude.{◌≤◌};

use crate::inner::text::{Base, lent, number};
use halving::inner::halving::half_list;
use plan::Record;
use radices::Radices;

// What a list asks: its plan, and how many twiddles the stages and the ends of the plan have, all 0
// for a list that is refused.
#[derive(Clone, Copy)]
pub struct Question {
    pub plan: Record,
    pub stages: usize,
    pub ends: usize,
}

// What stands for the plan of a list that is refused.
const NO_PLAN: Record = Record {
    n: 0,
    half: 0,
    count: 0,
    radices: [0; 13],
};

// What the list in a column asks.
pub fn asked(column: &[u8]) -> Question
    ensures { (result.stages ≤ 20000) × (result.ends ≤ 20000) }
{
    let list = lent(column);
    let plan = match plan::plan(list.items()) {
        Ok(made) => made.plan,
        Err(_) => NO_PLAN,
    };
    Question {
        plan,
        stages: counts::stage_twiddles(plan).unwrap_or(0).min(20000),
        ends: counts::end_twiddles(plan).unwrap_or(0).min(20000),
    }
}

// Whether the half list of a planning record is not the library's.
pub fn half_differs(line: [u8; 97]) -> bool {
    let list = lent(&line[0..16]);
    let half = halved(list.items());
    let entries = half.entries;
    number(&line[67..69], Base::Decimal) != Some(half.count) || !holds(&line[70..83], entries)
}

// The half list of a list, and none where it is refused.
fn halved(list: &[u8]) -> Radices {
    if plan::plan(list).is_err() || list.len() > 13 {
        return Radices {
            count: 0,
            entries: [0u8; 13],
        };
    }
    half_list(list)
}

// Whether a column shows the entries of an array.
fn holds(text: &[u8], entries: [u8; 13]) -> bool {
    text.len() == entries.len()
        && text
            .iter()
            .zip(&entries)
            .all(|(c, byte)| *c == entry(*byte))
}

// The character of an entry: a radix as its digit, and 0 as the place with no entry.
fn entry(byte: u8) -> u8 {
    match byte {
        0 => b'.',
        2..=8 => b'0' + byte,
        _ => b'?',
    }
}
