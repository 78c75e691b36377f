// The steps from bins to cells, which are conjugated.
ghost use Rattle.mixing.specs.Parts.{conjugating};
ghost use Rattle.mixing.specs.Steps.{ifft_steps};

use crate::inner::pairs::mix;
use crate::inner::steps::Direction;
use floats::complex::Complex;

// From bins to samples.
pub struct Inverse;

impl Direction for Inverse {
    ghost steps = { conjugating ifft_steps };

    fn first(x: Complex, y: Complex) -> Complex {
        let s = x + y;
        let d = x - y;
        Complex {
            re: s.re - s.im,
            im: -(d.re - d.im),
        }
    }

    fn last(_x: Complex, y: Complex) -> Complex {
        y
    }

    fn near(a: Complex, b: Complex, t: Complex) -> Complex {
        let s = a + b;
        let d = a - b;
        let m = mix(s, d, t);
        Complex {
            re: s.re - m.re,
            im: -(d.im - m.im),
        }
    }

    fn far(a: Complex, b: Complex, t: Complex) -> Complex {
        let s = a + b;
        let d = a - b;
        let m = mix(s, d, t);
        Complex {
            re: s.re + m.re,
            im: -(-m.im - d.im),
        }
    }

    #[tactic(auto, using(floats::proofs::Signs::conjugate_twice))]
    fn centre(c: Complex) -> Complex {
        c + c
    }
}
