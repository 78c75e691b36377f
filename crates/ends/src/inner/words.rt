// Rows of words: conjugated cell by cell, and cleared.
ghost use Rattle.std.specs.Prelude.{◌≡◌, ◌*◌, ◌≤◌, length};
ghost use Rattle.ends.specs.Ends.{conjugated, zeros};

use floats::inner::cells::{get, put};

// Each of h cells is conjugated.
pub fn conjugate(cells: &mut [f32], h: usize)
    requires { (h ≤ 4096) × (length cells.old ≡ 2 * h) }
    ensures { cells.new ≡ conjugated h cells.old }
{
    for i in 0..h {
        let z = get(cells, i);
        put(cells, i, z.conj());
    }
}

// Every word is +0.
pub fn clear(words: &mut [f32])
    ensures { words.new ≡ zeros (length words.old) }
{
    words.fill(0.0);
}
