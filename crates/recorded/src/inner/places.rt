// Where the twiddles of all stages stand: by a checksum, place by place, and in a row of words that is packed for a width.
ghost use Rattle.std.specs.Prelude.{◌≡◌, ◌+◌, ◌-◌, ◌≤◌, ◌<◌, length, IfSome};
ghost use Rattle.std.specs.Iterator.{at_most};

use crate::inner::plans::asked;
use crate::inner::text::{Base, Line, number, read_line};
use crate::inner::words::mixed;
use floats::inner::words::paste;
use packing::inner::places::place;
use plan::Record;
use std::io::Read;

// What a checksum takes for the place of a twiddle that stands nowhere.
const NOWHERE: usize = 99999;

// More twiddles than any plan has.
const MANY: usize = 40000;

// A twiddle: its stage, how many twiddles stand before the stage's, the stage's iterations and radix, its own iteration and number, and how many
// twiddles stand before it.
#[derive(Clone, Copy)]
struct Twiddle {
    stage: usize,
    start: usize,
    iterations: usize,
    radix: usize,
    iteration: usize,
    number: usize,
    at: usize,
}

impl Twiddle {
    // The first twiddle of a stage; its radix is 0 behind the last stage.
    fn first_of(plan: Record, stage: usize, start: usize) -> Twiddle {
        let radix = plan.radices.get(stage).map_or(0, |r| *r as usize);
        Twiddle {
            stage,
            start,
            iterations: plan.half.checked_div(radix).unwrap_or(0),
            radix,
            iteration: 0,
            number: 1,
            at: start,
        }
    }

    // The twiddle after this one, by stages, iterations and numbers.
    fn next_of(self, plan: Record) -> Twiddle {
        let at = self.at.saturating_add(1);
        let number = self.number.saturating_add(1);
        let iteration = self.iteration.saturating_add(1);
        if number < self.radix {
            Twiddle { number, at, ..self }
        } else if iteration < self.iterations {
            Twiddle {
                iteration,
                number: 1,
                at,
                ..self
            }
        } else {
            Twiddle::first_of(plan, self.stage.saturating_add(1), at)
        }
    }

    // Where a twiddle of the same stage stands by the library, if the stage has one of that iteration and number.
    fn place_of(self, width: usize, iteration: usize, number: usize) -> Option<usize> {
        if self.iterations > 4096
            || self.radix > 8
            || iteration >= self.iterations
            || number == 0
            || number >= self.radix
            || width == 0
            || width > 4
        {
            return None;
        }
        Some(place(self.iterations, self.radix, width, iteration, number))
    }

    // Where its words begin among so many that are packed for a width, if they are there.
    fn words_at(self, width: usize, many: usize) -> Option<usize>
        ensures { IfSome result (λ x. x + 2 ≤ many) }
    {
        let at = self
            .start
            .checked_add(self.place_of(width, self.iteration, self.number)?)?;
        let x = at.checked_mul(2)?;
        (x < many && many - x > 1).then_some(x)
    }
}

// The twiddles of a plan, one after the other.
#[derive(Drop)]
struct Twiddles {
    plan: Record,
    next: Twiddle,
    left: usize,
}

impl Twiddles {
    fn of(plan: Record) -> Twiddles {
        Twiddles {
            plan,
            next: Twiddle::first_of(plan, 1, 0),
            left: MANY,
        }
    }
}

impl Iterator for Twiddles {
    type Item = Twiddle;

    ghost remaining = { λ s. at_most s.left };

    fn next(&mut self) -> Option<Twiddle> {
        let twiddle = self.next;
        if self.left == 0 || twiddle.radix == 0 {
            return None;
        }
        self.left -= 1;
        self.next = twiddle.next_of(self.plan);
        Some(twiddle)
    }
}

// Whether the library packs a list otherwise than a layout says, by a checksum of where each twiddle stands.
pub fn layout_differs(line: [u8; 97]) -> bool {
    let question = asked(&line[0..16]);
    let plan = question.plan;
    let count = question.stages;
    let width = number(&line[17..18], Base::Decimal);
    let mut sum: usize = 0;
    for t in Twiddles::of(plan) {
        let place = width.and_then(|width| t.place_of(width, t.iteration, t.number));
        sum = mixed(sum, place.unwrap_or(NOWHERE));
    }
    plan.n == 0
        || number(&line[19..24], Base::Decimal) != Some(count)
        || number(&line[25..35], Base::Decimal) != Some(sum)
}

// The same by the lines that follow, each with the iteration and the number of the twiddle at the next place, and all read.
pub fn places_differ<R: Read>(line: [u8; 97], from: &mut R) -> bool {
    let question = asked(&line[0..16]);
    let plan = question.plan;
    let count = question.stages;
    let width = number(&line[17..18], Base::Decimal);
    let mut are_same = plan.n > 0 && number(&line[19..24], Base::Decimal) == Some(count);
    for t in Twiddles::of(plan) {
        if named(t, width, from) != Some(t.at) {
            are_same = false;
        }
    }
    !are_same
}

// How many twiddles stand before the one of a stage that the next line names, packed for a width.
fn named<R: Read>(t: Twiddle, width: Option<usize>, from: &mut R) -> Option<usize> {
    let mut line = [0u8; 7];
    let read = read_line(from, &mut line);
    let i = number(&line[0..4], Base::Decimal)?;
    let k = number(&line[5..6], Base::Decimal)?;
    if read != Line::Whole || line[4] != b' ' {
        return None;
    }
    t.start.checked_add(t.place_of(width?, i, k)?)
}

// Twiddles as packed for width 1, packed for a width; the words behind those of the stages stay where they are.
pub fn pack(plan: Record, width: usize, from: &[f32], to: &mut [f32])
    ensures { length to.new ≡ length to.old }
{
    if from.len() > to.len() {
        return;
    }
    paste(from, to, 0);
    for t in Twiddles::of(plan) {
        if let (Some(x), Some(y)) = (t.words_at(1, from.len()), t.words_at(width, to.len())) {
            to[y] = from[x];
            to[y + 1] = from[x + 1];
        }
    }
}
