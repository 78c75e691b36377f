// The turns of the kernels, with their numbers in the text.
ghost use Rattle.std.specs.Prelude.{◌≡◌};
ghost use Rattle.turn.specs.Calls.{KernelPart, part};
ghost use Rattle.turn.specs.Turns.{turn_of};

use crate::Turn;
use crate::inner::lookup::quarters;

// The turn by t of r parts of a circle, for a radix r: a call with literals folds to its numbers.
pub fn kernel_turn(t: usize, r: usize) -> Turn
    requires { KernelPart t r }
    ensures { result ≡ turn_of (part t r) }
{
    match (r, t) {
        (3, 1) => Turn::General(-0.5, -0.8660253882408142),
        (3, 2) => Turn::General(-0.5, 0.8660253882408142),
        (5, 1) => Turn::General(0.30901700258255005, -0.9510565400123596),
        (5, 2) => Turn::General(-0.80901700258255, -0.5877852439880371),
        (5, 3) => Turn::General(-0.80901700258255, 0.5877852439880371),
        (5, 4) => Turn::General(0.30901700258255005, 0.9510565400123596),
        (7, 1) => Turn::General(0.6234897971153259, -0.7818315029144287),
        (7, 2) => Turn::General(-0.22252093255519867, -0.9749279022216797),
        (7, 3) => Turn::General(-0.9009688496589661, -0.4338837265968323),
        (7, 4) => Turn::General(-0.9009688496589661, 0.4338837265968323),
        (7, 5) => Turn::General(-0.22252093255519867, 0.9749279022216797),
        (7, 6) => Turn::General(0.6234897971153259, 0.7818315029144287),
        (8, 1) => Turn::General(0.7071067690849304, -0.7071067690849304),
        (8, 3) => Turn::General(-0.7071067690849304, -0.7071067690849304),
        (8, 5) => Turn::General(-0.7071067690849304, 0.7071067690849304),
        (8, 7) => Turn::General(0.7071067690849304, 0.7071067690849304),
        _ => quarters(4 * t / r),
    }
}
