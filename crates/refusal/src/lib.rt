// The table of refusals: a case for each row, its number and its place, and the verdict of a call.
#![tactic(auto)]

ghost use Rattle.refusal.specs.Refusal.{Numbers, Places, NumbersIn, PlacesIn};

// Why a call is refused. A case holds its place where the table names one.
#[derive(Clone, Copy, PartialEq, Eq)]
pub enum Refusal {
    // 1: the list is empty.
    Empty,
    // 2: a byte is no radix; its index.
    NoRadix(usize),
    // 3: the product is above 8,192; the first index where the running product is.
    TooLarge(usize),
    // 4: the product is odd.
    Odd,
    // 5: the plan record is not one that planning gives.
    NotPlanned(usize),
    // 6: the width is not 1, 2 or 4.
    Width,
    // 7: the house table does not serve the length.
    NotHoused,
    // 8: a slice's length is wrong; which slice.
    Length(usize),
    // 9: a number is not finite or too large in magnitude; its index.
    Number(usize),
    // 10: a twiddle's number is not finite or above 1 in magnitude; its index.
    Twiddle(usize),
    // 11: the modulus is below 2.
    Modulus,
    // 12: the base is not below the modulus, or its power does not leave 1.
    Base,
    // 13: a remainder is not below the modulus; its index.
    Remainder(usize),
    // 14: the bins asked for are not a range of bins.
    Bins,
    // 15: the plan has no such stage.
    Stage,
    // 17: a file is not a recording as described; the first byte of the field at fault, or the file's length.
    Wav(usize),
}

// What a call answers of its arguments: nothing but that they are accepted, or why it is refused.
pub type Verdict = Result<(), Refusal>;

impl Refusal {
    // The row of the table.
    pub fn number(self) -> u32
        ensures { Numbers self result }
    {
        match self {
            Refusal::Empty => 1,
            Refusal::NoRadix(_) => 2,
            Refusal::TooLarge(_) => 3,
            Refusal::Odd => 4,
            Refusal::NotPlanned(_) => 5,
            Refusal::Width => 6,
            Refusal::NotHoused => 7,
            Refusal::Length(_) => 8,
            Refusal::Number(_) => 9,
            Refusal::Twiddle(_) => 10,
            Refusal::Modulus => 11,
            Refusal::Base => 12,
            Refusal::Remainder(_) => 13,
            Refusal::Bins => 14,
            Refusal::Stage => 15,
            Refusal::Wav(_) => 17,
        }
    }

    // The place, 0 where the table names none.
    pub fn place(self) -> usize
        ensures { Places self result }
    {
        match self {
            Refusal::Empty => 0,
            Refusal::NoRadix(at) => at,
            Refusal::TooLarge(at) => at,
            Refusal::Odd => 0,
            Refusal::NotPlanned(at) => at,
            Refusal::Width => 0,
            Refusal::NotHoused => 0,
            Refusal::Length(at) => at,
            Refusal::Number(at) => at,
            Refusal::Twiddle(at) => at,
            Refusal::Modulus => 0,
            Refusal::Base => 0,
            Refusal::Remainder(at) => at,
            Refusal::Bins => 0,
            Refusal::Stage => 0,
            Refusal::Wav(at) => at,
        }
    }
}

// The number of a verdict's refusal, and 0 for an accepted call.
pub fn number(verdict: Verdict) -> u32
    ensures { NumbersIn verdict result }
{
    match verdict {
        Ok(()) => 0,
        Err(why) => why.number(),
    }
}

// The place of a verdict's refusal, and 0 for an accepted call.
pub fn place(verdict: Verdict) -> usize
    ensures { PlacesIn verdict result }
{
    match verdict {
        Ok(()) => 0,
        Err(why) => why.place(),
    }
}
