// What both directions make of a pair of cells.
ghost use Rattle.std.specs.Prelude.{◌≡◌};
ghost use Rattle.mixing.specs.Steps.{mixed};

use floats::complex::Complex;

// The sum and the difference of a pair, mixed by its twiddle.
pub(crate) fn mix(s: Complex, d: Complex, t: Complex) -> Complex
    ensures { result ≡ mixed s d t }
{
    Complex {
        re: s.im * t.re + d.re * t.im,
        im: s.im * t.im - d.re * t.re,
    }
}
