// Cells of a slice of f32: cell i is words 2 * i and 2 * i + 1.
ghost use Rattle.std.specs.Prelude.{◌≡◌, ◌+◌, ◌*◌, ◌<◌, length};
ghost use Rattle.floats.specs.Complexes.{cell, put_cell};

use crate::complex::Complex;

// Cell i.
pub fn get(xs: &[f32], i: usize) -> Complex
    requires { 2 * i + 1 < length xs.now }
    ensures { result ≡ cell xs.now i }
{
    let j = 2 * i;
    Complex {
        re: xs[j],
        im: xs[j + 1],
    }
}

// Cell i, written.
pub fn put(xs: &mut [f32], i: usize, z: Complex)
    requires { 2 * i + 1 < length xs.old }
    ensures { xs.new ≡ put_cell xs.old i z }
{
    let j = 2 * i;
    xs[j] = z.re;
    xs[j + 1] = z.im;
}
