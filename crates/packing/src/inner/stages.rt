// The twiddles of the stages, packed for a width.
ghost use Rattle.std.specs.Prelude.{◌≡◌, ◌+◌, ◌-◌, ◌*◌, length};
ghost use Rattle.schedule.specs.Plans.{in_use};
ghost use Rattle.packing.specs.Places.{packed};
ghost use Rattle.packing.specs.Twiddles.{twiddle, stages_words};
ghost use Rattle.packing.specs.Parts.{Turnable, Turned, Fillable, Packable};

use crate::inner::packing::{Lane, Packing};
use counts::inner::stages::{stride, twiddle_start};
use floats::complex::Complex;
use floats::inner::cells::put;
use plan::Record;
use turn::inner::lookup::at;

// So many twiddles of an iteration, each turned on from the last.
fn iteration(lane: Lane, turn: usize, each: usize, out: &mut [f32])
    requires { Turnable turn each lane.first lane.apart (length out.old) }
    ensures { Turned turn lane.first lane.apart each out.old out.new }
{
    for k in 0..each {
        put(
            out,
            lane.first + k * lane.apart,
            Complex::from(at((k + 1) * turn)),
        );
    }
}

// The twiddles of a stage at stride s.
fn stage(packing: Packing, s: usize, out: &mut [f32])
    requires { Fillable packing.iterations s packing.radix (length out.old) }
    ensures { out.new ≡ packed packing.iterations packing.radix packing.width (twiddle s packing.radix) }
{
    let step = 6720 / (s * packing.radix);
    for i in 0..packing.iterations {
        iteration(packing.lane(i), i % s * step, packing.radix - 1, out);
    }
}

// The twiddles of all stages of an accepted plan: the first stage has none.
#[tactic(auto, using(crate::proofs::Stages::part_bounds))]
pub fn stages(plan: Record, width: usize, out: &mut [f32])
    requires { Packable plan width (length out.old) }
    ensures { out.new ≡ stages_words plan.half (in_use plan) width plan.count }
{
    for j in 1..plan.count {
        let s = stride(plan, j);
        let radix = plan.radices[j] as usize;
        let from = 2 * twiddle_start(plan, j);
        let to = 2 * twiddle_start(plan, j + 1);
        let packing = Packing {
            iterations: plan.half / radix,
            radix,
            width,
        };
        stage(packing, s, &mut out[from..to]);
    }
}
