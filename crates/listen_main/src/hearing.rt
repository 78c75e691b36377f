// The blocks: each one read, heard and told.
ghost use Rattle.std.specs.Prelude.{◌≡◌, ◌+◌, ◌*◌, ◌<◌, ◌≤◌, length};

use crate::drawing::draw;
use crate::fault::Fault;
use crate::progress::Progress;
use crate::setup::Setup;
use hear::Decision;
use input_rows::inner::rows::{count, fill};
use listen_input::inner::options::Options;
use listen_input::inner::source::{Source, Start, skip};
use listen_input::inner::told::{print_line, tell};
use listen_text::inner::lines::{block_line, left_line, whole_line};
use listening::inner::block::{gather, listen};
use listening::inner::window::window;
use pcm::inner::samples::read_samples;
use spectrum::Tables;
use twiddle::fill_forward;

// What a transform at width 1 goes by and the window, and room for the bytes of a block, its samples, its spectrum, what is left of a transform, and
// the power of the bins, summed.
#[derive(Drop)]
struct Room<'a> {
    tables: Tables<'a>,
    weights: &'a [f32],
    bytes: &'a mut [u8],
    samples: &'a mut [f32],
    spectrum: &'a mut [f32],
    scratch: &'a mut [f32],
    sums: &'a mut [f64],
}

// What was heard: blocks, those that fan, and the bytes of a last block that is short.
#[derive(Clone, Copy)]
struct Heard {
    blocks: usize,
    fanning: usize,
    last: usize,
    ghost few: { blocks ≤ 1099511627776 },
    ghost some_fan: { fanning ≤ blocks },
    ghost last_short: { last ≤ 13440 },
}

// The most blocks that are heard, in thousands of years.
const MOST: usize = 1099511627776;

// Hears samples as the options ask, tells each block and the whole, or says why that cannot be.
pub fn hear(
    rt: &HostRuntime,
    source: &mut Source,
    options: Options,
    start: Start,
) -> Result<(), Fault>
    requires { (0 < start.rate) × (start.rate ≤ 192000) }
{
    let setup = Setup::of(options, start.rate)?;
    hear_as(rt, source, &setup, start)
}

// Hears samples as it is set up, with room for the longest blocks. Apart, so that a call that is refused takes no such room.
#[inline(never)]
fn hear_as(
    rt: &HostRuntime,
    source: &mut Source,
    setup: &Setup,
    start: Start,
) -> Result<(), Fault> {
    let n = setup.plan.n;
    let mut stage = [0f32; 22056];
    let mut end = [0f32; 3358];
    let mut weights = [0f32; 6720];
    let mut bytes = [0u8; 13440];
    let mut samples = [0f32; 6720];
    let mut spectrum = [0f32; 6722];
    let mut scratch = [0f32; 40320];
    let mut sums = [0f64; 3361];
    window(&mut weights[..n]);
    let filled = fill_forward(
        setup.plan,
        1,
        &mut stage[..2 * setup.stages],
        &mut end[..2 * setup.ends],
    );
    filled.map_err(Fault::NoTwiddles)?;
    let progress = Progress::of(rt);
    let room = Room {
        tables: Tables {
            plan: setup.plan,
            width: 1,
            stage_twiddles: &stage[..2 * setup.stages],
            end_twiddles: &end[..2 * setup.ends],
        },
        weights: &weights[..n],
        bytes: &mut bytes[..2 * n],
        samples: &mut samples[..n],
        spectrum: &mut spectrum[..n + 2],
        scratch: &mut scratch[..6 * n],
        sums: &mut sums[..setup.plan.half + 1],
    };
    match hear_blocks(rt, source, start.samples, setup, progress, room) {
        Ok(heard) => {
            progress.wipe(rt);
            finish(
                rt,
                source,
                start,
                setup,
                heard,
                &sums[..setup.plan.half + 1],
            )
        }
        Err(fault) => {
            tell(rt, fault);
            progress.wipe(rt);
            Ok(())
        }
    }
}

// Hears block after block, of so many samples, and tells each.
fn hear_blocks(
    rt: &HostRuntime,
    source: &mut Source,
    whole: usize,
    setup: &Setup,
    progress: Progress,
    room: Room<'_>,
) -> Result<Heard, Fault>
    requires { (room.tables.width ≡ 1) × (length room.bytes.now ≡ 2 * setup.now.plan.n) × (length room.samples.now ≡ setup.now.plan.n) }
{
    // Apart, since the check does not cover two fields lent at once behind a reference.
    let Room {
        tables,
        weights,
        bytes,
        samples,
        spectrum,
        scratch,
        sums,
    } = room;
    let mut left = whole;
    let mut fanning: usize = 0;
    for blocks in 0..MOST {
        let last = fill(source, &mut bytes[..2 * setup.plan.n.min(left)])?;
        if last < 2 * setup.plan.n {
            return Ok(Heard {
                blocks,
                fanning,
                last,
            });
        }
        read_samples(bytes, 0, samples);
        let block = listen(
            tables,
            samples,
            weights,
            spectrum,
            scratch,
            setup.band,
            setup.threshold,
        );
        block.verdict.map_err(Fault::Unheard)?;
        if setup.plot {
            gather(spectrum, sums);
        }
        let milliseconds = setup.milliseconds(blocks);
        print_line(rt, block_line(milliseconds, setup.full, block))?;
        if blocks % 64 == 0 {
            progress.tell(rt, milliseconds / 1000);
        }
        fanning += fans(block.decision);
        left -= setup.plan.n.min(left);
    }
    Ok(Heard {
        blocks: MOST,
        fanning,
        last: 0,
    })
}

// Tells what is left, the whole and its spectrum, and whether a file was as long as it says.
fn finish(
    rt: &HostRuntime,
    source: &mut Source,
    start: Start,
    setup: &Setup,
    heard: Heard,
    sums: &[f64],
) -> Result<(), Fault>
    requires { length sums.now ≤ 3361 }
{
    if heard.last > 1 {
        print_line(
            rt,
            left_line(setup.milliseconds(heard.blocks), heard.last / 2),
        )?;
    }
    print_line(rt, whole_line(heard.blocks, heard.fanning))?;
    if setup.plot {
        if let Err(fault) = draw(rt, setup, sums, heard.blocks) {
            tell(rt, fault);
        }
    }
    measured(
        source,
        start,
        2 * setup.samples_in(heard.blocks) + heard.last,
    )
}

// 1 for fanning, 0 for quiet.
fn fans(decision: Decision) -> usize
    ensures { result ≤ 1 }
{
    match decision {
        Decision::Fanning => 1,
        Decision::Quiet => 0,
    }
}

// Holds the bytes that came of a WAV file's samples against what it says.
fn measured(source: &mut Source, start: Start, heard: usize) -> Result<(), Fault>
    requires { heard ≤ 14777436277322880 }
{
    let Some(total) = start.total else {
        return Ok(());
    };
    if start.at > 9223372036854775807 {
        return Ok(());
    }
    let came = start.at + heard;
    match source {
        Source::Stream(_) => {
            let came = came + count(skip(source, 4611686018427387904));
            if came == total {
                Ok(())
            } else {
                Err(Fault::OtherSize { total, came })
            }
        }
        Source::Named(_) => {
            if heard / 2 < start.samples {
                Err(Fault::Ended { came })
            } else {
                Ok(())
            }
        }
    }
}
