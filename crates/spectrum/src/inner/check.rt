// Which plans, widths, lengths and numbers are taken.
ghost use Rattle.std.specs.Prelude.{◌≡◌, ℕ, ◌+◌, ◌*◌, eqb, length};
ghost use Rattle.scan.specs.Scan.{bound};
ghost use Rattle.spectrum.specs.Calls.{size_verdict, number_verdict, lent_verdict, forward_verdict};

use counts::inner::stages::{end_count, twiddle_start};
use packing::inner::places::is_width;
use plan::inner::records::is_planned;
use refusal::{Refusal, Verdict};
use scan::inner::scan::first_unfit;
use transform::Tables;

// 2^32: samples are at most this.
pub const LOUDEST: f32 = 4294967296.0;

// Whether so many words are those of h + 1 bins.
pub fn is_bins(words: usize, h: usize) -> bool
    ensures { result ≡ eqb words (2 * (h + 1)) }
{
    if words < 2 {
        return false;
    }
    if words % 2 != 0 {
        return false;
    }
    words / 2 - 1 == h
}

// Refusals 5, 6 and 8, in this order: whether input and output have their lengths, and how many words the scratch has.
fn sizes(tables: Tables, input: bool, output: bool, scratch: usize) -> Verdict
    ensures { result ≡ size_verdict tables.entry.plan tables.entry.width input output scratch (length tables.entry.stage_twiddles.now) (length tables.entry.end_twiddles.now) }
{
    let plan = tables.plan;
    if !is_planned(plan) {
        return Err(Refusal::NotPlanned(0));
    }
    if !is_width(tables.width) {
        return Err(Refusal::Width);
    }
    if !input {
        return Err(Refusal::Length(0));
    }
    if !output {
        return Err(Refusal::Length(1));
    }
    if scratch < 6 * plan.n {
        return Err(Refusal::Length(2));
    }
    if tables.stage_twiddles.len() != 2 * twiddle_start(plan, plan.count) {
        return Err(Refusal::Length(3));
    }
    if tables.end_twiddles.len() != 2 * end_count(plan.n) {
        return Err(Refusal::Length(4));
    }
    Ok(())
}

// Refusals 9 and 10, in this order, with so large a bound for the input.
fn numbers(tables: Tables, input: &[f32], most: f32) -> Verdict
    ensures { (k : ℕ) → most ≡ bound k → result ≡ number_verdict k input.now tables.entry.stage_twiddles.now tables.entry.end_twiddles.now }
{
    if let Some(large) = first_unfit(input, most) {
        return Err(Refusal::Number(large));
    }
    if let Some(wide) = first_unfit(tables.stage_twiddles, 1.0) {
        return Err(Refusal::Twiddle(wide));
    }
    if let Some(last) = first_unfit(tables.end_twiddles, 1.0) {
        return Err(Refusal::Twiddle(tables.stage_twiddles.len() + last));
    }
    Ok(())
}

// The verdict of a transform.
pub fn lent(
    tables: Tables,
    is_input: bool,
    is_output: bool,
    scratch: usize,
    most: f32,
    input: &[f32],
) -> Verdict
    ensures { (k : ℕ) → most ≡ bound k → result ≡ lent_verdict tables.entry.plan tables.entry.width is_input is_output scratch k input.now tables.entry.stage_twiddles.now tables.entry.end_twiddles.now }
{
    sizes(tables, is_input, is_output, scratch)?;
    numbers(tables, input, most)
}

// The verdict of `forward`, for callers that go on where it accepts: n samples of at most 2^32, and room for so many words.
pub fn lent_samples(tables: Tables, input: &[f32], output: usize, scratch: usize) -> Verdict
    ensures { result ≡ forward_verdict tables.entry.plan tables.entry.width input.now output scratch tables.entry.stage_twiddles.now tables.entry.end_twiddles.now }
{
    let is_input = input.len() == tables.plan.n;
    let is_output = is_bins(output, tables.plan.half);
    lent(tables, is_input, is_output, scratch, LOUDEST, input)
}
