// The end twiddles of either direction.
ghost use Rattle.std.specs.Prelude.{◌≡◌, length};
ghost use Rattle.end_twiddles.specs.Ends.{directed as directedOf, end_words};
ghost use Rattle.end_twiddles.specs.Parts.{Endable};

use counts::inner::stages::end_count;
use floats::complex::Complex;
use floats::inner::cells::put;
use turn::inner::lookup::at;

// The direction of a transform.
#[derive(Clone, Copy)]
pub enum Direction {
    Forward,
    Inverse,
}

// An end twiddle from the words of its turn: forward half of them, inverse with the sine negated.
fn directed(direction: Direction, w: Complex) -> Complex
    ensures { (result.re, result.im) ≡ directedOf direction (w.re, w.im) }
{
    match direction {
        Direction::Forward => Complex {
            re: 0.5 * w.re,
            im: 0.5 * w.im,
        },
        Direction::Inverse => w.conj(),
    }
}

// The end twiddles of a length, k from 1 on.
pub fn ends(direction: Direction, n: usize, out: &mut [f32])
    requires { Endable n (length out.old) }
    ensures { out.new ≡ end_words direction n }
{
    let step = 6720 / n;
    for k in 0..end_count(n) {
        let words = Complex::from(at((k + 1) * step));
        put(out, k, directed(direction, words));
    }
}
