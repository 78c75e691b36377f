// Hann's window, and samples weighed by it.
ghost use Rattle.std.specs.Prelude.{◌≡◌, true, length};
ghost use Rattle.listening.specs.Block.{hann, weighed};
ghost use Rattle.turn.specs.Turns.{housed};

use floats::complex::Complex;
use turn::inner::lookup::looked;

// The weights of a block, as many as the slice is long.
pub fn window(out: &mut [f32])
    requires { housed (length out.old) ≡ true }
    ensures { out.new ≡ hann (length out.old) }
{
    let n = out.len();
    for (i, weight) in out.iter_mut().enumerate() {
        let turned = Complex::from(looked(i, n));
        *weight = 0.5 - 0.5 * turned.re;
    }
}

// Each sample times its weight; samples that have none stay.
pub fn weigh(samples: &mut [f32], weights: &[f32])
    ensures { samples.new ≡ weighed samples.old weights.now }
{
    for i in 0..samples.len().min(weights.len()) {
        samples[i] *= weights[i];
    }
}
