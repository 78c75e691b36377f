// A turn, (cos, -sin) of t/L of a circle, from the house table.
#![tactic(auto)]

pub mod inner;

ghost use Rattle.turn.specs.Calls.{Turns};

use inner::lookup::{is_housed, looked};
use refusal::Refusal;

// Whole quarters of a circle carry no numbers, any other turn its two.
#[derive(Clone, Copy)]
pub enum Turn {
    Zero,
    Quarter,
    Half,
    ThreeQuarter,
    General(f32, f32),
}

// The turn by t of l parts of a circle, or the refusal.
pub fn turn_of(t: u32, l: u32) -> Result<Turn, Refusal>
    ensures { Turns t l result }
{
    if !is_housed(l as usize) {
        return Err(Refusal::NotHoused);
    }
    Ok(looked((t % l) as usize, l as usize))
}
