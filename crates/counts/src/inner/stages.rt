// Of each stage of an accepted plan: its stride, how many twiddles it has and where they start.
ghost use Rattle.std.specs.Prelude.{◌≡◌, true, ◌≤◌, ◌<◌};
ghost use Rattle.plan.specs.Record.{is_planned};
ghost use Rattle.counts.specs.Counts.{stride, twiddle_count, twiddle_start, end_count, result_in};

use crate::Buffer;
use plan::Record;
use radices::inner::lists::product;

// The product of the radices before stage j.
pub fn stride(plan: Record, j: usize) -> usize
    requires { (is_planned plan ≡ true) × (j ≤ plan.count) }
    ensures { result ≡ stride plan.radices j }
{
    product(&plan.radices[..j])
}

// How many twiddles stage j has.
pub fn twiddle_count(plan: Record, j: usize) -> usize
    requires { (is_planned plan ≡ true) × (j < plan.count) }
    ensures { result ≡ twiddle_count plan.half plan.radices j }
{
    if j == 0 {
        return 0;
    }
    let r = plan.radices[j] as usize;
    plan.half / r * (r - 1)
}

// How many twiddles the stages before stage j have together.
pub fn twiddle_start(plan: Record, j: usize) -> usize
    requires { (is_planned plan ≡ true) × (j ≤ plan.count) }
    ensures { result ≡ twiddle_start plan.half plan.radices j }
{
    let mut sum: usize = 0;
    for i in 0..j {
        sum += twiddle_count(plan, i);
    }
    sum
}

// How many end twiddles a length has.
pub fn end_count(n: usize) -> usize
    requires { 0 < n }
    ensures { result ≡ end_count n }
{
    if n % 4 == 0 { n / 4 - 1 } else { n / 4 }
}

// Which buffer holds the result after that many stages.
pub fn result_in(count: usize) -> Buffer
    ensures { result ≡ result_in count }
{
    if count == 1 {
        return Buffer::Data;
    }
    if count % 2 == 0 {
        Buffer::Data
    } else {
        Buffer::Scratchpad
    }
}
