// Both directions on whatever numbers are lent, for callers that have looked at them.
ghost use Rattle.std.specs.Prelude.{◌≡◌, length};
ghost use Rattle.transform.specs.Parts.{Forwardable, Invertible};
ghost use Rattle.transform.specs.Transforms.{forward_of, inverse_of};

use crate::Tables;
use crate::inner::stages::{finish, invert, prepare, stages_from};
use ends::inner::words::clear;

// From n samples to h + 1 bins.
pub fn forward(tables: Tables, input: &[f32], output: &mut [f32], scratch: &mut [f32])
    requires { Forwardable tables.plan tables.width (length input.now) (length output.old) (length scratch.old) (length tables.stage_twiddles.now) (length tables.end_twiddles.now) }
    ensures output_after { output.new ≡ (forward_of tables.entry.plan tables.entry.width tables.entry.stage_twiddles.now tables.entry.end_twiddles.now input.now scratch.old).0 }
    ensures scratch_after { scratch.new ≡ (forward_of tables.entry.plan tables.entry.width tables.entry.stage_twiddles.now tables.entry.end_twiddles.now input.now scratch.old).1 }
{
    let which = stages_from(tables, input, scratch, output);
    finish(tables, which, scratch, output);
}

// From h + 1 bins to n samples, times n, and +0 beyond.
pub fn inverse(tables: Tables, input: &[f32], output: &mut [f32], scratch: &mut [f32])
    requires { Invertible tables.plan tables.width (length input.now) (length output.old) (length scratch.old) (length tables.stage_twiddles.now) (length tables.end_twiddles.now) }
    ensures output_after { output.new ≡ (inverse_of tables.entry.plan tables.entry.width tables.entry.stage_twiddles.now tables.entry.end_twiddles.now input.now scratch.old (length output.old)).0 }
    ensures scratch_after { scratch.new ≡ (inverse_of tables.entry.plan tables.entry.width tables.entry.stage_twiddles.now tables.entry.end_twiddles.now input.now scratch.old (length output.old)).1 }
{
    prepare(tables, input, scratch);
    invert(tables, scratch, output);
    let words = 2 * tables.plan.half;
    clear(&mut output[words..]);
}
