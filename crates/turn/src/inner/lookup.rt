// The lookup of a turn in the house table.
ghost use Rattle.std.specs.Prelude.{◌≡◌, ◌<◌};
ghost use Rattle.turn.specs.Calls.{Known, part};
ghost use Rattle.turn.specs.Turns.{housed, turn_at, turn_of, quarters as quartersOf};

use crate::Turn;
use house::inner::entries::unrounded;
use house::inner::rounding::nearest;

// Whether l divides 6,720, so that the table has its turns.
#[tactic(auto, unfolding(crate::specs::Turns::housed))]
pub fn is_housed(l: usize) -> bool
    ensures { result ≡ housed l }
{
    l != 0 && 6720 % l == 0
}

// A turn of so many whole quarters.
pub fn quarters(n: usize) -> Turn
    ensures { result ≡ quartersOf n }
{
    match n {
        0 => Turn::Zero,
        1 => Turn::Quarter,
        2 => Turn::Half,
        _ => Turn::ThreeQuarter,
    }
}

// The turn at an index, in parts of 1/6,720 of a circle.
pub fn at(index: usize) -> Turn
    requires { index < 6720 }
    ensures { result ≡ turn_at index }
{
    if index % 1680 == 0 {
        return quarters(index / 1680);
    }
    let e = unrounded(index);
    let c = nearest(e.cosine);
    let s = nearest(e.sine);
    match e.quarter {
        0 => Turn::General(c, -s),
        1 => Turn::General(-s, -c),
        2 => Turn::General(-c, s),
        _ => Turn::General(s, c),
    }
}

// The turn by t of l parts of a circle, t below l.
pub fn looked(t: usize, l: usize) -> Turn
    requires { Known t l }
    ensures { result ≡ turn_of (part t l) }
{
    at(t * (6720 / l))
}
