// The stages of a plan on a scratch, and what comes before and after them. Data and Scratchpad are parts of one slice, so the stages alternate
// between Data and the first words of another buffer, which are then copied.
ghost use Rattle.std.specs.Prelude.{◌≡◌, ◌++◌, ◌+◌, ◌*◌, ◌≤◌, length, drop};
ghost use Rattle.counts.specs.Counts.{result_in};
ghost use Rattle.schedule.specs.Buffers.{held_in};
ghost use Rattle.stage.specs.Runs.{run_of};
ghost use Rattle.ends.specs.Ends.{postprocess_fft, conjugated};
ghost use Rattle.ends.specs.Parts.{Endable};
ghost use Rattle.scratch.specs.Scratch.{data_of, pad_of, with_both};
ghost use Rattle.transform.specs.Parts.{Staged};
ghost use Rattle.transform.specs.Transforms.{prepared_of, restored};

use crate::Tables;
use counts::Buffer;
use ends::inner::cells::{postprocess_fft, preprocess_ifft};
use floats::inner::words::paste;
use scratch::inner::restoring::{from_data, from_pad};
use stage::inner::drive::{Stages, held};

// All stages, with what the first one reads lent apart, as if Data held it, and what they leave in Data and in the Scratchpad; answers which of
// them holds the result.
pub fn stages_from(tables: Tables, input: &[f32], scratch: &mut [f32], other: &mut [f32]) -> Buffer
    requires { Staged tables.plan tables.width (length scratch.old) (length other.old) (length tables.stage_twiddles.now) × (length input.now ≡ 2 * tables.plan.half) }
    ensures value { result ≡ result_in tables.entry.plan.count }
    ensures scratch_after { scratch.new ≡ with_both tables.entry.plan.half (run_of tables.entry.plan tables.entry.width tables.entry.stage_twiddles.now (input.now, pad_of tables.entry.plan.half scratch.old)) scratch.old }
{
    let words = 2 * tables.plan.half;
    let stages = Stages {
        plan: tables.plan,
        width: tables.width,
        twiddles: tables.stage_twiddles,
    };
    let which = stages.all_from(input, &mut scratch[..words], &mut other[..words]);
    if tables.plan.count > 0 {
        paste(&other[..words], scratch, words);
    }
    which
}

// The part of a scratch that the buffer so named is.
fn part<'a>(which: Buffer, scratch: &'a [f32], h: usize) -> &'a [f32]
    requires { (h ≤ 4096) × (4 * h ≤ length scratch.now) }
    ensures { result.now ≡ held_in which (data_of h scratch.now, pad_of h scratch.now) }
{
    let words = 2 * h;
    held(&scratch[..words], &scratch[words..2 * words], which)
}

// From the buffer so named to bins.
pub fn finish(tables: Tables, which: Buffer, scratch: &[f32], output: &mut [f32])
    requires { Endable tables.plan.half (length output.old) (length tables.end_twiddles.now) × (4 * tables.plan.half ≤ length scratch.now) }
    ensures { output.new ≡ postprocess_fft tables.entry.plan.half tables.entry.end_twiddles.now (held_in which (data_of tables.entry.plan.half scratch.now, pad_of tables.entry.plan.half scratch.now)) }
{
    let h = tables.plan.half;
    postprocess_fft(part(which, scratch, h), tables.end_twiddles, output, h);
}

// Bins prepared in the scratch, and conjugated.
pub fn prepare(tables: Tables, input: &[f32], scratch: &mut [f32])
    requires { Endable tables.plan.half (length input.now) (length tables.end_twiddles.now) × (4 * tables.plan.half ≤ length scratch.old) }
    ensures { scratch.new ≡ conjugated tables.entry.plan.half (data_of tables.entry.plan.half (prepared_of tables.entry.plan.half tables.entry.end_twiddles.now input.now scratch.old)) ++ drop (2 * tables.entry.plan.half) (prepared_of tables.entry.plan.half tables.entry.end_twiddles.now input.now scratch.old) }
{
    let h = tables.plan.half;
    let bins = 2 * (h + 1);
    preprocess_ifft(input, tables.end_twiddles, &mut scratch[..bins], h);
}

// All stages on what Data holds, and their result conjugated where it stands and copied to Data and to the first words of the output.
pub fn invert(tables: Tables, scratch: &mut [f32], output: &mut [f32])
    requires { Staged tables.plan tables.width (length scratch.old) (length output.old) (length tables.stage_twiddles.now) }
    ensures scratch_after { scratch.new ≡ with_both tables.entry.plan.half (restored tables.entry.plan.half (result_in tables.entry.plan.count) (run_of tables.entry.plan tables.entry.width tables.entry.stage_twiddles.now (data_of tables.entry.plan.half scratch.old, pad_of tables.entry.plan.half scratch.old))) scratch.old }
    ensures output_after { output.new ≡ (restored tables.entry.plan.half (result_in tables.entry.plan.count) (run_of tables.entry.plan tables.entry.width tables.entry.stage_twiddles.now (data_of tables.entry.plan.half scratch.old, pad_of tables.entry.plan.half scratch.old))).0 ++ drop (2 * tables.entry.plan.half) output.old }
{
    let words = 2 * tables.plan.half;
    let stages = Stages {
        plan: tables.plan,
        width: tables.width,
        twiddles: tables.stage_twiddles,
    };
    match stages.all(&mut scratch[..words], &mut output[..words]) {
        Buffer::Data => from_data(scratch, output, tables.plan.half, tables.plan.count > 0),
        Buffer::Scratchpad => from_pad(scratch, output, tables.plan.half),
    }
}
