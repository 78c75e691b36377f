// The result of the stages, conjugated where it stands and copied to Data, to the Scratchpad and to the output.
ghost use Rattle.std.specs.Prelude.{◌≡◌, cond, ◌++◌, ◌+◌, ◌*◌, ◌≤◌, length, drop};
ghost use Rattle.sequences.specs.Lists.{pasted};
ghost use Rattle.ends.specs.Ends.{conjugated};
ghost use Rattle.scratch.specs.Scratch.{data_of, pad_of, with_both};

use ends::inner::words::conjugate;
use floats::inner::words::paste;

// The first h cells of a row are conjugated.
fn conjugate_front(row: &mut [f32], h: usize)
    requires { (h ≤ 4096) × (2 * h ≤ length row.old) }
    ensures { row.new ≡ conjugated h (data_of h row.old) ++ drop (2 * h) row.old }
{
    let words = 2 * h;
    conjugate(&mut row[..words], h);
}

// The first h cells of a row, to another from word `at` on.
fn copy_front(from: &[f32], to: &mut [f32], at: usize, h: usize)
    requires { (h ≤ 4096) × (2 * h ≤ length from.now) × (at + 2 * h ≤ length to.old) }
    ensures { to.new ≡ pasted to.old at (data_of h from.now) }
{
    let words = 2 * h;
    paste(&from[..words], to, at);
}

// What the other buffer holds, to the Scratchpad, if stages ran.
fn keep_pad(scratch: &mut [f32], other: &[f32], h: usize, ran: bool)
    requires { (h ≤ 4096) × (4 * h ≤ length scratch.old) × (2 * h ≤ length other.now) }
    ensures { scratch.new ≡ with_both h (data_of h scratch.old, cond ran (data_of h other.now) (pad_of h scratch.old)) scratch.old }
{
    if ran {
        copy_front(other, scratch, 2 * h, h);
    }
}

// The result in Data is conjugated there and copied to the output.
pub fn from_data(scratch: &mut [f32], output: &mut [f32], h: usize, ran: bool)
    requires { (h ≤ 4096) × (4 * h ≤ length scratch.old) × (2 * h ≤ length output.old) }
    ensures scratch_after { scratch.new ≡ with_both h (conjugated h (data_of h scratch.old), cond ran (data_of h output.old) (pad_of h scratch.old)) scratch.old }
    ensures output_after { output.new ≡ conjugated h (data_of h scratch.old) ++ drop (2 * h) output.old }
{
    keep_pad(scratch, output, h, ran);
    conjugate_front(scratch, h);
    copy_front(scratch, output, 0, h);
}

// The result, still in the output, is conjugated there and copied to Data and to the Scratchpad.
pub fn from_pad(scratch: &mut [f32], output: &mut [f32], h: usize)
    requires { (h ≤ 4096) × (4 * h ≤ length scratch.old) × (2 * h ≤ length output.old) }
    ensures scratch_after { scratch.new ≡ with_both h (conjugated h (data_of h output.old), conjugated h (data_of h output.old)) scratch.old }
    ensures output_after { output.new ≡ conjugated h (data_of h output.old) ++ drop (2 * h) output.old }
{
    conjugate_front(output, h);
    copy_front(output, scratch, 0, h);
    copy_front(output, scratch, 2 * h, h);
}
