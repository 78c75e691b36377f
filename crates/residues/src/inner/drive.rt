// All stages of a run, from one buffer to the other and back.
ghost use Rattle.std.specs.Prelude.{◌≡◌, length};
ghost use Rattle.schedule.specs.Buffers.{alternated};
ghost use Rattle.residues.specs.Parts.{Workable};
ghost use Rattle.residues.specs.Residues.{stage_of, run_of};

use crate::inner::stage::work;
use plan::Record;

// The stages of an accepted plan in turn, each written to the other buffer.
fn drive(plan: Record, m: u64, w: u64, data: &mut [u32], scratch: &mut [u32])
    requires { Workable plan m w «data».old (length scratch.old) }
    ensures data_after { «data».new ≡ (alternated (λ j. stage_of plan j m w) plan.count («data».old, scratch.old)).0 }
    ensures scratch_after { scratch.new ≡ (alternated (λ j. stage_of plan j m w) plan.count («data».old, scratch.old)).1 }
{
    for k in 0..plan.count {
        if k % 2 == 0 {
            work(plan, k, m, w, data, scratch);
        } else {
            work(plan, k, m, w, scratch, data);
        }
    }
}

// A copy of numbers. By copy_from_slice the library would want memmove of its host.
fn copy(src: &[u32], dst: &mut [u32])
    requires { length dst.old ≡ length src.now }
    ensures { dst.new ≡ src.now }
{
    for i in 0..src.len() {
        dst[i] = src[i];
    }
}

// A run of an accepted plan: its stages in turn, and a single one copied back.
pub fn all(plan: Record, m: u64, w: u64, data: &mut [u32], scratch: &mut [u32])
    requires { Workable plan m w «data».old (length scratch.old) }
    ensures data_after { «data».new ≡ (run_of plan m w («data».old, scratch.old)).0 }
    ensures scratch_after { scratch.new ≡ (run_of plan m w («data».old, scratch.old)).1 }
{
    drive(plan, m, w, data, scratch);
    if plan.count == 1 {
        copy(scratch, data);
    }
}
