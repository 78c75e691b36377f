// The functions that a host written in C links: the version; planning, its refusals, counts and scaling, on lists of radices; a single turn; the
// filling of twiddles; a stage in floats; both transforms, the power of bins and whether the bees fan; recordings as WAV files; and the stages in
// remainders, on a plan and buffers of whole numbers.
#![tactic(auto)]

ghost use Rattle.std.specs.Prelude.{◌≡◌, get_or};
ghost use Rattle.ladlespindle.specs.Exports.{GivesVersion, GivesInterface, GivesPlanned, GivesPlan, GivesNumber, GivesPlace, GivesLength, GivesHalf, GivesStages, GivesMerges, GivesRadix, GivesLetter, GivesStageTwiddles, GivesEndTwiddles, GivesResult, GivesAcceptance, GivesScaling, planned_or_none, scaling_as};
ghost use Rattle.refusal.specs.Refusal.{left};
ghost use Rattle.counts.specs.Counts.{result_in, buffer_number};
ghost use Rattle.ladlespindle.specs.Calls.{Answers, GivesTurn, GivesForward, GivesInverse, GivesStage, GivesSpectrum, GivesSamples, GivesPower, GivesHeard, Crosses, GivesMeasured, GivesRead, GivesWritten, GivesRemainderStage, GivesRemainderRun};

use counts::inner::stages::result_in;
use floats::complex::Complex;
use merging::Merges;
use plan::Record;
use radices::Radices;
use refusal::{Refusal, Verdict, number, place};
use scaling::Scaled;
use spectrum::Tables;

// What planning answers, with the refusal as two numbers.
#[repr(C)]
#[derive(Clone, Copy)]
pub struct Planned {
    pub number: u32,
    pub place: usize,
    pub plan: Record,
}

// What scaling answers, with the refusal as two numbers.
#[repr(C)]
#[derive(Clone, Copy)]
pub struct Scaling {
    pub number: u32,
    pub place: usize,
    pub p: usize,
    pub in_product: usize,
    pub out_product: usize,
    pub in_list: Radices,
    pub out_list: Radices,
}

// Why a call is refused, as two numbers; 0 and 0 for one that is accepted.
#[repr(C)]
#[derive(Clone, Copy)]
pub struct Answer {
    pub number: u32,
    pub place: usize,
}

// The same of a single turn, with its two words, +0 on a refusal.
#[repr(C)]
#[derive(Clone, Copy)]
pub struct TurnWords {
    pub number: u32,
    pub place: usize,
    pub re: f32,
    pub im: f32,
}

// The same of a sum of power, with the sum, +0 on a refusal.
#[repr(C)]
#[derive(Clone, Copy)]
pub struct Summed {
    pub number: u32,
    pub place: usize,
    pub power: f32,
}

// The same of a block that is heard, with the power of the band, +0 on a refusal, and the decision: 0 for fanning and on a refusal, 1 for quiet.
#[repr(C)]
#[derive(Clone, Copy)]
pub struct Heard {
    pub number: u32,
    pub place: usize,
    pub power: f32,
    pub decision: u32,
}

// The same of a recording, with its rate and how many samples it holds, 0 on a refusal.
#[repr(C)]
#[derive(Clone, Copy)]
pub struct Wav {
    pub number: u32,
    pub place: usize,
    pub rate: u32,
    pub samples: usize,
}

// The same of a run, with the buffer that holds the result: 0 for Data and on a refusal, 1 for Scratchpad.
#[repr(C)]
#[derive(Clone, Copy)]
pub struct Ran {
    pub number: u32,
    pub place: usize,
    pub buffer: u32,
}

impl From<Verdict> for Answer {
    ghost from_gives = { Answers };

    fn from(verdict: Verdict) -> Answer {
        Answer {
            number: number(verdict),
            place: place(verdict),
        }
    }
}

// What a recording answers, with the refusal as two numbers.
impl From<Result<wav::Wav, Refusal>> for Wav {
    ghost from_gives = { Crosses };

    fn from(found: Result<wav::Wav, Refusal>) -> Wav {
        match found {
            Ok(wav) => Wav {
                number: 0,
                place: 0,
                rate: wav.rate,
                samples: wav.samples,
            },
            Err(why) => Wav {
                number: why.number(),
                place: why.place(),
                rate: 0,
                samples: 0,
            },
        }
    }
}

// What stands for the plan and the merges of a list that is refused.
const NO_PLAN: plan::Planned = plan::Planned {
    plan: Record {
        n: 0,
        half: 0,
        count: 0,
        radices: [0; 13],
    },
    merges: Merges {
        count: 0,
        letters: [0; 13],
    },
};

// What stands for the scaling of lists that are refused.
const NO_SCALING: Scaled = Scaled {
    p: 0,
    in_product: 0,
    out_product: 0,
    in_list: Radices {
        count: 0,
        entries: [0; 13],
    },
    out_list: Radices {
        count: 0,
        entries: [0; 13],
    },
};

// The version: 10000 * major + 100 * minor + patch.
#[unsafe(no_mangle)]
pub extern "C" fn ladlespindle_version() -> u32
    ensures { GivesVersion result }
{
    1100
}

// The number of the interface, raised whenever a struct, a signature or the meaning of an answer changes.
#[unsafe(no_mangle)]
pub extern "C" fn ladlespindle_interface() -> u32
    ensures { GivesInterface result }
{
    1
}

// The plan of a list with its refusal, every number of the plan 0 on a refusal.
#[unsafe(no_mangle)]
pub extern "C" fn ladlespindle_plan_list(list: &[u8]) -> Planned
    ensures { GivesPlanned list.now result }
{
    match plan::plan(list) {
        Ok(made) => Planned {
            number: 0,
            place: 0,
            plan: made.plan,
        },
        Err(why) => Planned {
            number: why.number(),
            place: why.place(),
            plan: NO_PLAN.plan,
        },
    }
}

// The plan of a list, every number 0 on a refusal.
#[unsafe(no_mangle)]
pub extern "C" fn ladlespindle_plan(list: &[u8]) -> Record
    ensures { GivesPlan list.now result }
{
    made_of(list).plan
}

// The number of a list's refusal, 0 for an accepted list.
#[unsafe(no_mangle)]
pub extern "C" fn ladlespindle_refusal_number(list: &[u8]) -> u32
    ensures { GivesNumber list.now result }
{
    match plan::plan(list) {
        Ok(_) => 0,
        Err(why) => why.number(),
    }
}

// The place of a list's refusal, 0 for an accepted list.
#[unsafe(no_mangle)]
pub extern "C" fn ladlespindle_refusal_place(list: &[u8]) -> usize
    ensures { GivesPlace list.now result }
{
    match plan::plan(list) {
        Ok(_) => 0,
        Err(why) => why.place(),
    }
}

// The length n of a list's plan, 0 on a refusal.
#[unsafe(no_mangle)]
pub extern "C" fn ladlespindle_n(list: &[u8]) -> usize
    ensures { GivesLength list.now result }
{
    made_of(list).plan.n
}

// Half of that length, 0 on a refusal.
#[unsafe(no_mangle)]
pub extern "C" fn ladlespindle_half(list: &[u8]) -> usize
    ensures { GivesHalf list.now result }
{
    made_of(list).plan.half
}

// How many stages a list's plan has, 0 on a refusal.
#[unsafe(no_mangle)]
pub extern "C" fn ladlespindle_stages(list: &[u8]) -> usize
    ensures { GivesStages list.now result }
{
    made_of(list).plan.count
}

// The radix of a stage, counted from 0; 0 past the last stage and on a refusal.
#[unsafe(no_mangle)]
pub extern "C" fn ladlespindle_radix(list: &[u8], stage: usize) -> u8
    ensures { GivesRadix list.now stage result }
{
    entry(made_of(list).plan.radices, stage)
}

// How many merges led to a list's plan, 0 on a refusal.
#[unsafe(no_mangle)]
pub extern "C" fn ladlespindle_merges(list: &[u8]) -> usize
    ensures { GivesMerges list.now result }
{
    made_of(list).merges.count
}

// The letter of a merge, counted from 0; 0 past the last merge and on a refusal.
#[unsafe(no_mangle)]
pub extern "C" fn ladlespindle_merge_letter(list: &[u8], index: usize) -> u8
    ensures { GivesLetter list.now index result }
{
    entry(made_of(list).merges.letters, index)
}

// How many twiddles the stages of a list's plan have together, 0 on a refusal.
#[unsafe(no_mangle)]
pub extern "C" fn ladlespindle_stage_twiddles(list: &[u8]) -> usize
    ensures { GivesStageTwiddles list.now result }
{
    counts::stage_twiddles(made_of(list).plan).unwrap_or(0)
}

// How many end twiddles a list's plan has, 0 on a refusal.
#[unsafe(no_mangle)]
pub extern "C" fn ladlespindle_end_twiddles(list: &[u8]) -> usize
    ensures { GivesEndTwiddles list.now result }
{
    counts::end_twiddles(made_of(list).plan).unwrap_or(0)
}

// The buffer that holds the result of a run: 0 for Data and on a refusal, 1 for Scratchpad.
#[unsafe(no_mangle)]
pub extern "C" fn ladlespindle_result(list: &[u8]) -> u32
    ensures { GivesResult list.now result }
{
    match counts::result(made_of(list).plan) {
        Ok(buffer) => buffer.number(),
        Err(_) => 0,
    }
}

// Whether some list plans to this record: 1 or 0.
#[unsafe(no_mangle)]
pub extern "C" fn ladlespindle_accepts(plan: Record) -> u32
    ensures { GivesAcceptance plan result }
{
    if plan::accepts(plan) { 1 } else { 0 }
}

// Both base lists scaled so that the in-list's product is at least 512, or the refusal and every other number 0.
#[unsafe(no_mangle)]
pub extern "C" fn ladlespindle_scale(in_list: &[u8], out_list: &[u8]) -> Scaling
    ensures { GivesScaling in_list.now out_list.now result }
{
    match scaling::scale(in_list, out_list) {
        Ok(scaled) => scaling_as(0, 0, scaled),
        Err(why) => scaling_as(why.number(), why.place(), NO_SCALING),
    }
}

// The words of the turn by t of l parts of a circle: its cosine and its negated sine.
#[unsafe(no_mangle)]
pub extern "C" fn ladlespindle_turn(t: u32, l: u32) -> TurnWords
    ensures { GivesTurn t l result }
{
    match turn::turn_of(t, l) {
        Ok(turn) => {
            let words = Complex::from(turn);
            TurnWords {
                number: 0,
                place: 0,
                re: words.re,
                im: words.im,
            }
        }
        Err(why) => TurnWords {
            number: why.number(),
            place: why.place(),
            re: 0.0,
            im: 0.0,
        },
    }
}

// The twiddles of a plan for the forward transform, packed for a width.
#[unsafe(no_mangle)]
pub extern "C" fn ladlespindle_fill_forward(
    plan: Record,
    width: usize,
    stage_twiddles: &mut [f32],
    end_twiddles: &mut [f32],
) -> Answer
    ensures { GivesForward plan width (stage_twiddles.old, end_twiddles.old) result (stage_twiddles.new, end_twiddles.new) }
{
    Answer::from(twiddle::fill_forward(plan, width, stage_twiddles, end_twiddles))
}

// The same for the inverse transform.
#[unsafe(no_mangle)]
pub extern "C" fn ladlespindle_fill_inverse(
    plan: Record,
    width: usize,
    stage_twiddles: &mut [f32],
    end_twiddles: &mut [f32],
) -> Answer
    ensures { GivesInverse plan width (stage_twiddles.old, end_twiddles.old) result (stage_twiddles.new, end_twiddles.new) }
{
    Answer::from(twiddle::fill_inverse(plan, width, stage_twiddles, end_twiddles))
}

// Stage `number` of a plan in floats, with its own twiddles packed for a width.
#[unsafe(no_mangle)]
pub extern "C" fn ladlespindle_stage(
    plan: Record,
    number: usize,
    width: usize,
    input: &[f32],
    output: &mut [f32],
    twiddles: &[f32],
) -> Answer
    ensures { GivesStage plan number width input.now output.old twiddles.now result output.new }
{
    Answer::from(stage::stage(plan, number, width, input, output, twiddles))
}

// The spectrum of n samples.
#[unsafe(no_mangle)]
pub extern "C" fn ladlespindle_forward(
    plan: Record,
    width: usize,
    input: &[f32],
    output: &mut [f32],
    scratch: &mut [f32],
    stage_twiddles: &[f32],
    end_twiddles: &[f32],
) -> Answer
    ensures { GivesSpectrum plan width stage_twiddles.now end_twiddles.now input.now (output.old, scratch.old) result (output.new, scratch.new) }
{
    let tables = Tables {
        plan,
        width,
        stage_twiddles,
        end_twiddles,
    };
    Answer::from(spectrum::forward(tables, input, output, scratch))
}

// The n samples of a spectrum, times n.
#[unsafe(no_mangle)]
pub extern "C" fn ladlespindle_inverse(
    plan: Record,
    width: usize,
    input: &[f32],
    output: &mut [f32],
    scratch: &mut [f32],
    stage_twiddles: &[f32],
    end_twiddles: &[f32],
) -> Answer
    ensures { GivesSamples plan width stage_twiddles.now end_twiddles.now input.now (output.old, scratch.old) result (output.new, scratch.new) }
{
    let tables = Tables {
        plan,
        width,
        stage_twiddles,
        end_twiddles,
    };
    Answer::from(spectrum::inverse(tables, input, output, scratch))
}

// The power of bins lo to hi of a spectrum.
#[unsafe(no_mangle)]
pub extern "C" fn ladlespindle_power(spectrum: &[f32], lo: usize, hi: usize) -> Summed
    ensures { GivesPower spectrum.now lo hi result }
{
    match power::power(spectrum, lo, hi) {
        Ok(power) => Summed {
            number: 0,
            place: 0,
            power,
        },
        Err(why) => Summed {
            number: why.number(),
            place: why.place(),
            power: 0.0,
        },
    }
}

// Whether the bees fan: the spectrum of n samples, and the power of its bins lo to hi held against a threshold.
#[unsafe(no_mangle)]
pub extern "C" fn ladlespindle_hear(
    plan: Record,
    width: usize,
    input: &[f32],
    output: &mut [f32],
    scratch: &mut [f32],
    stage_twiddles: &[f32],
    end_twiddles: &[f32],
    lo: usize,
    hi: usize,
    threshold: f32,
) -> Heard
    ensures { GivesHeard plan width stage_twiddles.now end_twiddles.now input.now lo hi threshold (output.old, scratch.old) result (output.new, scratch.new) }
{
    let tables = Tables {
        plan,
        width,
        stage_twiddles,
        end_twiddles,
    };
    let heard = hear::hear(tables, input, output, scratch, lo, hi, threshold);
    Heard {
        number: number(heard.verdict),
        place: place(heard.verdict),
        power: heard.power,
        decision: heard.decision.number(),
    }
}

// The rate of a recording, and how many samples it holds.
#[unsafe(no_mangle)]
pub extern "C" fn ladlespindle_wav_measure(file: &[u8]) -> Wav
    ensures { GivesMeasured file.now result }
{
    Wav::from(wav::measure(file))
}

// The samples of a recording.
#[unsafe(no_mangle)]
pub extern "C" fn ladlespindle_wav_read(file: &[u8], output: &mut [f32]) -> Wav
    ensures { GivesRead file.now output.old result output.new }
{
    Wav::from(wav::read(file, output))
}

// A recording of samples.
#[unsafe(no_mangle)]
pub extern "C" fn ladlespindle_wav_write(rate: u32, samples: &[f32], file: &mut [u8]) -> Answer
    ensures { GivesWritten rate samples.now file.old result file.new }
{
    Answer::from(wav::write(rate, samples, file))
}

// Stage `number` of a plan in remainders modulo m, written to the other buffer.
#[unsafe(no_mangle)]
pub extern "C" fn ladlespindle_remainder_stage(
    plan: Record,
    number: usize,
    m: u32,
    w: u32,
    input: &[u32],
    other: &mut [u32],
) -> Answer
    ensures { GivesRemainderStage plan number m w input.now other.old result other.new }
{
    Answer::from(remainder::stage(plan, number, m, w, input, other))
}

// A run of a plan in remainders modulo m, and the buffer that holds its result.
#[unsafe(no_mangle)]
pub extern "C" fn ladlespindle_remainder_run(
    plan: Record,
    m: u32,
    w: u32,
    data: &mut [u32],
    scratch: &mut [u32],
) -> Ran
    ensures { GivesRemainderRun plan m w («data».old, scratch.old) result («data».new, scratch.new) }
{
    let verdict = remainder::run(plan, m, w, data, scratch);
    Ran {
        number: number(verdict),
        place: place(verdict),
        buffer: holder(verdict, plan.count),
    }
}

// The plan of a list and the merges that led to it, every number 0 on a refusal.
fn made_of(list: &[u8]) -> plan::Planned
    ensures { result ≡ planned_or_none list.now }
{
    plan::plan(list).unwrap_or(NO_PLAN)
}

// Scaling's answer beside a verdict's two numbers.
fn scaling_as(number: u32, place: usize, scaled: Scaled) -> Scaling
    ensures { result ≡ scaling_as number place scaled }
{
    Scaling {
        number,
        place,
        p: scaled.p,
        in_product: scaled.in_product,
        out_product: scaled.out_product,
        in_list: scaled.in_list,
        out_list: scaled.out_list,
    }
}

// The number of the buffer with the result of a run of so many stages, 0 on a refusal.
fn holder(verdict: Verdict, count: usize) -> u32
    ensures { result ≡ left verdict (buffer_number (result_in count)) 0 }
{
    match verdict {
        Ok(()) => result_in(count).number(),
        Err(_) => 0,
    }
}

// An entry of an array, 0 past its end.
fn entry(entries: [u8; 13], at: usize) -> u8
    ensures { result ≡ get_or entries at 0 }
{
    if at < 13 { entries[at] } else { 0 }
}
