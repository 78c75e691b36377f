// The steps from cells to bins.
ghost use Rattle.mixing.specs.Steps.{fft_steps};

use crate::inner::pairs::mix;
use crate::inner::steps::Direction;
use floats::complex::Complex;

// From samples to bins.
pub struct Forward;

impl Direction for Forward {
    ghost steps = { fft_steps };

    fn first(x: Complex, _y: Complex) -> Complex {
        Complex {
            re: x.re + x.im,
            im: 0.0,
        }
    }

    fn last(x: Complex, _y: Complex) -> Complex {
        Complex {
            re: x.re - x.im,
            im: 0.0,
        }
    }

    fn near(a: Complex, b: Complex, t: Complex) -> Complex {
        let s = a + b;
        let d = a - b;
        let m = mix(s, d, t);
        Complex {
            re: 0.5 * s.re + m.re,
            im: 0.5 * d.im + m.im,
        }
    }

    fn far(a: Complex, b: Complex, t: Complex) -> Complex {
        let s = a + b;
        let d = a - b;
        let m = mix(s, d, t);
        Complex {
            re: 0.5 * s.re - m.re,
            im: m.im - 0.5 * d.im,
        }
    }

    fn centre(c: Complex) -> Complex {
        c.conj()
    }
}
