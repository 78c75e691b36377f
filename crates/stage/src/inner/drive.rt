// All stages of a run, from one buffer to the other and back.
ghost use Rattle.std.specs.Prelude.{◌≡◌, true, List, ◌*◌, ◌<◌, Float, length};
ghost use Rattle.counts.specs.Counts.{result_in, stage_twiddles};
ghost use Rattle.plan.specs.Record.{is_planned};
ghost use Rattle.packing.specs.Places.{is_width};
ghost use Rattle.schedule.specs.Buffers.{held_in};
ghost use Rattle.stage.specs.Runs.{stage_in, run_of, Drivable, Steppable};

use counts::Buffer;
use counts::inner::stages::{result_in, twiddle_count};
use float_stage::inner::stage::work;
use floats::inner::words::paste;
use plan::Record;

// The stages of an accepted plan, and the twiddles of them all, packed for a width.
#[derive(Clone, Copy)]
pub struct Stages<'a> {
    pub plan: Record,
    pub width: usize,
    pub twiddles: &'a [f32],
    ghost planned: { is_planned plan ≡ true },
    ghost packed: { is_width width ≡ true },
    ghost lent: { length twiddles.now ≡ 2 * stage_twiddles plan },
}

impl<'a> Stages<'a> {
    // Stage k, whose twiddles start at `start` among those of all, from src into dst.
    fn one(self, k: usize, src: &[f32], dst: &mut [f32], start: usize)
        requires { Steppable self.plan k (length src.now) (length dst.old) start }
        ensures { dst.new ≡ stage_in self.entry.plan self.entry.width self.entry.twiddles.now k src.now }
    {
        let from = 2 * start;
        let to = from + 2 * twiddle_count(self.plan, k);
        work(self.plan, k, self.width, src, dst, &self.twiddles[from..to]);
    }

    // The stages after the first, which has written to `scratch` what it made of xs, in turn, each to the other buffer; and a single one copied back.
    fn later(self, data: &mut [f32], scratch: &mut [f32])
        requires { Drivable self.plan (length «data».old) (length scratch.old) × (0 < self.plan.count) }
        ensures { (xs ys : List Float) → scratch.old ≡ stage_in self.entry.plan self.entry.width self.entry.twiddles.now 0 xs → («data».new ≡ (run_of self.entry.plan self.entry.width self.entry.twiddles.now (xs, ys)).0) × (scratch.new ≡ (run_of self.entry.plan self.entry.width self.entry.twiddles.now (xs, ys)).1) }
    {
        let count = self.plan.count;
        if count == 1 {
            paste(scratch, data, 0);
            return;
        }
        let mut start = twiddle_count(self.plan, 0);
        for k in 1..count {
            if k % 2 == 0 {
                self.one(k, data, scratch, start);
            } else {
                self.one(k, scratch, data, start);
            }
            start += twiddle_count(self.plan, k);
        }
    }

    // A run: the stages in turn, and a single one copied back. Answers which buffer holds the result.
    pub fn all(self, data: &mut [f32], scratch: &mut [f32]) -> Buffer
        requires { Drivable self.plan (length «data».old) (length scratch.old) }
        ensures data_after { «data».new ≡ (run_of self.entry.plan self.entry.width self.entry.twiddles.now («data».old, scratch.old)).0 }
        ensures scratch_after { scratch.new ≡ (run_of self.entry.plan self.entry.width self.entry.twiddles.now («data».old, scratch.old)).1 }
        ensures value { result ≡ result_in self.entry.plan.count }
    {
        if self.plan.count > 0 {
            self.one(0, data, scratch, 0);
            self.later(data, scratch);
        }
        result_in(self.plan.count)
    }

    // The same with what the first stage reads lent apart, as if `data` held it.
    pub fn all_from(self, input: &[f32], data: &mut [f32], scratch: &mut [f32]) -> Buffer
        requires { Drivable self.plan (length input.now) (length scratch.old) × (length «data».old ≡ length input.now) }
        ensures data_after { «data».new ≡ (run_of self.entry.plan self.entry.width self.entry.twiddles.now (input.now, scratch.old)).0 }
        ensures scratch_after { scratch.new ≡ (run_of self.entry.plan self.entry.width self.entry.twiddles.now (input.now, scratch.old)).1 }
        ensures value { result ≡ result_in self.entry.plan.count }
    {
        if self.plan.count > 0 {
            self.one(0, input, scratch, 0);
            self.later(data, scratch);
        } else {
            paste(input, data, 0);
        }
        result_in(self.plan.count)
    }
}

// The buffer so named, of the two that a run has left.
pub fn held<'a>(data: &'a [f32], scratch: &'a [f32], which: Buffer) -> &'a [f32]
    ensures { result.now ≡ held_in which («data».now, scratch.now) }
{
    match which {
        Buffer::Data => data,
        Buffer::Scratchpad => scratch,
    }
}
