// The steps at the ends of a row, of either direction.
ghost use Rattle.std.specs.Prelude.{◌≡◌};
ghost use Rattle.mixing.specs.Steps.{Steps};

use floats::complex::Complex;

// A direction: what becomes of cells 0 and h, of a pair of cells k and h - k with its end twiddle, and of cell h / 2.
pub trait Direction {
    ghost steps: { Steps };

    // Cell 0, from cells 0 and h.
    fn first(x: Complex, y: Complex) -> Complex
        ensures { result ≡ steps.first x y };

    // Cell h, from the same.
    fn last(x: Complex, y: Complex) -> Complex
        ensures { result ≡ steps.last x y };

    // Cell k of a pair.
    fn near(a: Complex, b: Complex, t: Complex) -> Complex
        ensures { result ≡ steps.near a b t };

    // Cell h - k of a pair.
    fn far(a: Complex, b: Complex, t: Complex) -> Complex
        ensures { result ≡ steps.far a b t };

    // Cell h / 2.
    fn centre(c: Complex) -> Complex
        ensures { result ≡ steps.centre c };
}
