// The plot: the mean power of the bins, in rows that widen with the frequency.
ghost use Rattle.std.specs.Prelude.{◌<◌, ◌≤◌, length};

use crate::setup::Setup;
use levels::inner::levels::level_of;
use listen_input::inner::told::{Unwritten, print_line};
use listen_text::inner::plot::row_line;
use listening::Band;
use std::io::Print;

// Draws the sums of so many blocks, a row for each bin up to 9 and for a fifth more from then on; the band's bins stand in rows of their own.
pub fn draw(rt: &HostRuntime, setup: &Setup, sums: &[f64], blocks: usize) -> Result<(), Unwritten>
    requires { length sums.now ≤ 3361 }
{
    if blocks == 0 {
        return Ok(());
    }
    let _ = rt.write_all(
        b"mean spectrum, the band in #\n        Hz     dB  -90       -75       -60       -45       -30       -15       0\n",
    );
    // Rows widen, so no range steps over them.
    let mut at: usize = 1;
    while at < sums.len() {
        let next = row_end(at, setup.band, sums.len());
        let level = level_of(setup.full, step(mean(&sums[at..next], blocks)));
        print_line(
            rt,
            row_line(
                hertz(setup, at),
                level,
                setup.band.lo <= at && at <= setup.band.hi,
            ),
        )?;
        at = next;
    }
    Ok(())
}

// The frequency of a bin, to nearest.
fn hertz(setup: &Setup, bin: usize) -> usize
    requires { bin ≤ 3361 }
{
    (bin * setup.rate + setup.plan.n / 2) / setup.plan.n
}

// The bin behind a row that begins at a bin.
fn row_end(at: usize, band: Band, bins: usize) -> usize
    requires { (at < bins) × (bins ≤ 3361) }
    ensures { (at < result) × (result ≤ bins) }
{
    let next = wide_end(at, bins);
    if at < band.lo {
        next.min(band.lo)
    } else if at <= band.hi && band.hi < bins {
        next.min(band.hi + 1)
    } else {
        next
    }
}

// The same, but for the band: a row has a bin, and from bin 10 on a fifth of its frequency.
fn wide_end(at: usize, bins: usize) -> usize
    requires { (at < bins) × (bins ≤ 3361) }
    ensures { (at < result) × (result ≤ bins) }
{
    if at < 10 {
        return at + 1;
    }
    (at + at / 5).min(bins)
}

// The mean over blocks of the power of bins.
fn mean(sums: &[f64], blocks: usize) -> f64 {
    let mut sum: f64 = 0.0;
    for power in sums {
        sum = sum + *power;
    }
    sum / std::num::nearest_u64_to_f64(blocks as u64)
}

// The step of a power that is an f64, as an f32 of that power has it.
fn step(power: f64) -> u16 {
    if power >= 1.1754943508222875e-38 {
        let whole = f64::to_bits(power) / 35184372088832;
        return whole.saturating_sub(114688).min(65535) as u16;
    }
    0
}
