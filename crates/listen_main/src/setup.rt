// How the hearing of blocks is set up, as the options ask.
ghost use Rattle.std.specs.Prelude.{◌≡◌, ◌+◌, ◌*◌, ◌<◌, ◌≤◌, true, IfOk};
ghost use Rattle.turn.specs.Turns.{housed};

use crate::fault::Fault;
use levels::inner::levels::{least_step, lowest_above, power_at, step_of};
use listen_input::inner::options::Options;
use listening::Band;
use listening::inner::block::full_scale;
use listening::inner::lengths::{band, factors, is_served, most_feigned, nearest_served};
use plan::Record;
use radices::Radices;

// The plan of blocks, how many twiddles its stages and its end have, the rate, the bins of the band, the step of full scale, the threshold, and
// whether the spectrum is drawn. Blocks, twiddles and sums have room in the buffers, and the house table has the turns of a block.
#[derive(Clone, Copy)]
pub struct Setup {
    pub plan: Record,
    pub stages: usize,
    pub ends: usize,
    pub rate: usize,
    pub band: Band,
    pub full: u16,
    pub threshold: f32,
    pub plot: bool,
    pub ghost block_some: { 0 < plan.n },
    pub ghost block_few: { plan.n ≤ 6720 },
    pub ghost block_turns: { housed plan.n ≡ true },
    pub ghost half_few: { plan.half ≤ 3360 },
    pub ghost stages_few: { stages ≤ 11028 },
    pub ghost ends_few: { ends ≤ 1679 },
    pub ghost rate_some: { 0 < rate },
    pub ghost rate_few: { rate ≤ 192000 },
}

// The highest frequency that a word can say.
const HERTZ: usize = 999999999;

impl Setup {
    // What the options ask for, of samples at a rate, or why it cannot be.
    pub fn of(options: Options, rate: usize) -> Result<Setup, Fault>
        requires { (0 < rate) × (rate ≤ 192000) }
    {
        let plan = planned(options.block)?;
        let band = bins(options, rate, plan)?;
        let full = step_of(full_scale(plan.n));
        let feigned = most_feigned(plan.count, plan.half, band.hi + 1 - band.lo);
        let threshold = threshold(options.level, full, feigned)?;
        let stages = counts::stage_twiddles(plan).unwrap_or(0);
        let ends = counts::end_twiddles(plan).unwrap_or(0);
        if stages > 11028 || ends > 1679 {
            return Err(Fault::NoPlan);
        }
        Ok(Setup {
            plan,
            stages,
            ends,
            rate,
            band,
            full,
            threshold,
            plot: options.plot,
        })
    }

    // How many samples so many blocks have.
    pub fn samples_in(&self, blocks: usize) -> usize
        requires { blocks ≤ 1099511627776 }
        ensures { result ≤ 7388718138654720 }
    {
        blocks * self.plan.n
    }

    // How many milliseconds so many blocks take.
    pub fn milliseconds(&self, blocks: usize) -> usize
        requires { blocks ≤ 1099511627776 }
    {
        self.samples_in(blocks) * 1000 / self.rate
    }
}

// The plan of a block's length, if that is served.
fn planned(block: usize) -> Result<Record, Fault>
    ensures { IfOk result (λ p. (0 < p.n) × (p.n ≤ 6720) × (housed p.n ≡ true) × (p.half ≤ 3360) × (p.count ≤ 13)) }
{
    if !is_served(block) {
        return Err(Fault::NoBlock {
            asked: block,
            nearest: nearest_served(block.min(6720)),
        });
    }
    let list: Radices = factors(block);
    let entries = list.entries;
    let plan = plan_of(&entries, list.count)?;
    if plan.n != block || plan.half > 3360 || plan.count > 13 {
        return Err(Fault::NoPlan);
    }
    Ok(plan)
}

// The plan of the first so many of a list's radices.
fn plan_of(entries: &[u8; 13], count: usize) -> Result<Record, Fault>
    requires { count ≤ 13 }
{
    let all: &[u8] = entries;
    match plan::plan(&all[0..count]) {
        Ok(made) => Ok(made.plan),
        Err(_) => Err(Fault::NoPlan),
    }
}

// The bins of the band that the options ask for.
fn bins(options: Options, rate: usize, plan: Record) -> Result<Band, Fault>
    requires { (0 < rate) × (rate ≤ 192000) × (0 < plan.n) × (plan.n ≤ 6720) }
    ensures { IfOk result (λ b. (b.lo ≤ b.hi) × (b.hi ≤ plan.half)) }
{
    let bins = band(plan.n, rate, options.lo.min(HERTZ), options.hi.min(HERTZ));
    if options.hi > rate / 2 || bins.lo > bins.hi || bins.hi > plan.half {
        return Err(Fault::NoBand {
            highest: rate / 2,
            lowest: rate / plan.n + 1,
        });
    }
    Ok(bins)
}

// The power of the threshold of a level, which rounding alone must not reach.
fn threshold(level: usize, full: u16, feigned: usize) -> Result<f32, Fault> {
    if level > 16000 {
        return Err(Fault::AboveFull);
    }
    let lowest = lowest_above(full, level, feigned);
    if lowest != level {
        return Err(Fault::TooLow {
            tenths: 16000 - lowest,
        });
    }
    Ok(power_at(least_step(full, level)))
}
