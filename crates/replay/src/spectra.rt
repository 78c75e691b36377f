// The cases of a length: whose twiddles are lent, the kind of what is read, a seed, and checksums of what is left. The steps at the ends
// alone are asked once each, and inverse transforms, by the unguarded core, at every width.
ghost use Rattle.std.specs.Prelude.{◌≤◌, length};

use counts::inner::stages::{end_count, twiddle_start};
use ends::inner::cells::{postprocess_fft, preprocess_ifft};
use ends::inner::words::conjugate;
use packing::inner::places::is_width;
use plan::Record;
use plan::inner::records::is_planned;
use recorded::inner::places::pack;
use recorded::inner::plans::asked;
use recorded::inner::text::{Base, Line, number, read_line};
use recorded::inner::words::{fill, read, summed};
use std::io::Read;
use transform::Tables;
use transform::inner::directions::inverse;

// What a record asks for of each of its cases: the step at an end alone, of the forward transform or of the inverse one, or the inverse transform.
#[derive(Clone, Copy, PartialEq, Eq)]
enum Task {
    Postprocess,
    Preprocess,
    Inverse,
}

// A case of a length: whether its twiddles are drawn, the kind of what is read, the seed, how many words more than are needed are lent, and the
// checksums of what is left in output and, of a transform, in scratch.
#[derive(Clone, Copy)]
struct Case {
    is_drawn: bool,
    kind: u8,
    seed: usize,
    more: Option<usize>,
    output: Option<usize>,
    scratch: Option<usize>,
}

// Room for the packed twiddles and for the words of a transform. Each function takes it apart, since the check does not cover two fields lent at
// once behind a reference.
#[derive(Drop)]
struct Room<'a> {
    packed: &'a mut [f32],
    input: &'a mut [f32],
    output: &'a mut [f32],
    scratch: &'a mut [f32],
}

// How many cases a length has.
const CASES: u64 = 42;

// As many words as the scratch of the longest plan has, and some more.
const WORDS: usize = 49184;

// What is drawn from where a line names no seed.
const NO_SEED: usize = 100000000000000;

// How many answers of a record of the steps at an end are not the library's.
pub fn ends_differ<R: Read>(line: [u8; 97], from: &mut R) -> u64
    ensures { result ≤ 126 }
{
    let question = asked(&line[0..16]);
    let lent = 2 * question.ends;
    if number(&line[19..23], Base::Decimal) != Some(lent) {
        return CASES;
    }
    match line[17] {
        b'F' => differing(question.plan, Task::Postprocess, lent, from),
        b'I' => differing(question.plan, Task::Preprocess, lent, from),
        _ => CASES,
    }
}

// How many answers of a record of inverse transforms are not the library's.
pub fn inverses_differ<R: Read>(line: [u8; 97], from: &mut R) -> u64
    ensures { result ≤ 126 }
{
    let question = asked(&line[0..16]);
    let stages = 2 * question.stages;
    let ends = 2 * question.ends;
    if number(&line[17..22], Base::Decimal) != Some(stages)
        || number(&line[23..27], Base::Decimal) != Some(ends)
    {
        return 3 * CASES;
    }
    differing(question.plan, Task::Inverse, stages + ends, from)
}

// How many answers of the lines that follow are not the library's, which is lent so many words of twiddles.
fn differing<R: Read>(plan: Record, task: Task, lent: usize, from: &mut R) -> u64
    ensures { result ≤ 126 }
{
    if lent > WORDS {
        return CASES;
    }
    let mut own = [0f32; WORDS];
    let mut drawn = [0f32; WORDS];
    let mut packed = [0f32; WORDS];
    let mut input = [0f32; WORDS];
    let mut output = [0f32; WORDS];
    let mut scratch = [0f32; WORDS];
    let are_words = read(from, &mut own[..lent]);
    let mut differ: u64 = 0;
    for _ in 0..CASES {
        let Some(case) = Case::read(task, from) else {
            differ += 1;
            continue;
        };
        let mut seed = case.seed;
        if case.is_drawn {
            seed = fill(&mut drawn[..lent], b'T', seed);
        }
        for width in task.widths() {
            let room = Room {
                packed: &mut packed[..lent],
                input: &mut input,
                output: &mut output,
                scratch: &mut scratch,
            };
            let twiddles = if case.is_drawn {
                &drawn[..lent]
            } else {
                &own[..lent]
            };
            differ += u64::from(differs(plan, task, case, *width, seed, twiddles, room));
        }
    }
    if are_words { differ } else { CASES }
}

impl Task {
    // The widths at which it is asked.
    fn widths(self) -> &'static [usize]
        ensures { length result.now ≤ 3 }
    {
        match self {
            Task::Inverse => &[1, 2, 4],
            Task::Postprocess | Task::Preprocess => &[1],
        }
    }
}

impl Case {
    // The case in the next line.
    fn read<R: Read>(task: Task, from: &mut R) -> Option<Case> {
        let mut line = [0u8; 37];
        let size = if task == Task::Inverse { 37 } else { 24 };
        if read_line(from, &mut line[..size]) != Line::Whole {
            return None;
        }
        let is_drawn = match line[0] {
            b'R' => false,
            b'D' => true,
            _ => return None,
        };
        let seed = number(&line[4..12], Base::Hexadecimal).unwrap_or(NO_SEED);
        let kind = line[2];
        if task == Task::Inverse {
            return Some(Case {
                is_drawn,
                kind,
                seed,
                more: number(&line[13..14], Base::Decimal),
                output: number(&line[15..25], Base::Decimal),
                scratch: number(&line[26..36], Base::Decimal),
            });
        }
        Some(Case {
            is_drawn,
            kind,
            seed,
            more: Some(0),
            output: number(&line[13..23], Base::Decimal),
            scratch: None,
        })
    }
}

// Whether the library does not leave at a width what a case shows.
fn differs(
    plan: Record,
    task: Task,
    case: Case,
    width: usize,
    seed: usize,
    lent: &[f32],
    room: Room<'_>,
) -> bool {
    let Room {
        packed,
        input,
        output,
        scratch,
    } = room;
    let Some(more) = case.more else {
        return true;
    };
    if plan.half > 4096 || plan.n > 8192 || more > 9 {
        return true;
    }
    let reads = 2 * plan.half + 2;
    let writes = if task == Task::Inverse {
        plan.n + more
    } else {
        reads
    };
    let rest = 6 * plan.n + 2 * more;
    if reads > input.len() || writes > output.len() || rest > scratch.len() {
        return true;
    }
    let room = Room {
        packed,
        input: &mut input[..reads],
        output: &mut output[..writes],
        scratch: &mut scratch[..rest],
    };
    !leaves(plan, task, case, width, seed, lent, room)
}

// Whether it leaves that, with as many words as the transform or the step takes.
fn leaves(
    plan: Record,
    task: Task,
    case: Case,
    width: usize,
    seed: usize,
    lent: &[f32],
    room: Room<'_>,
) -> bool {
    let Room {
        packed,
        input,
        output,
        scratch,
    } = room;
    let x = fill(input, case.kind, seed);
    let y = fill(output, b'N', x);
    fill(scratch, b'N', y);
    match task {
        Task::Postprocess | Task::Preprocess => stepped(plan.half, task, input, lent, output)
            && case.output == Some(summed(output)),
        Task::Inverse => {
            pack(plan, width, lent, packed);
            parted(plan, width, input, output, scratch, packed)
                && case.output == Some(summed(output))
                && case.scratch == Some(summed(scratch))
        }
    }
}

// Whether the inverse transform can be done, which is then done, lent the twiddles of the stages and then those of the end.
fn parted(
    plan: Record,
    width: usize,
    input: &[f32],
    output: &mut [f32],
    scratch: &mut [f32],
    twiddles: &[f32],
) -> bool {
    let counted = counts::stage_twiddles(plan).unwrap_or(0);
    if counted > 20000 {
        return false;
    }
    let stages = 2 * counted;
    if stages > twiddles.len() {
        return false;
    }
    let (stage_twiddles, end_twiddles) = twiddles.split_at(stages);
    let tables = Tables {
        plan,
        width,
        stage_twiddles,
        end_twiddles,
    };
    inverted(tables, input, output, scratch)
}

// Whether the inverse transform can be done, which is then done by the unguarded core.
fn inverted(tables: Tables, input: &[f32], output: &mut [f32], scratch: &mut [f32]) -> bool {
    let plan = tables.plan;
    if !is_width(tables.width) || plan.n == 0 || plan.half > 4096 || !is_planned(plan) {
        return false;
    }
    let stages = twiddle_start(plan, plan.count);
    let ends = end_count(plan.n);
    if stages > 20000 || ends > 20000 {
        return false;
    }
    if input.len() != 2 * (plan.half + 1)
        || output.len() < plan.n
        || scratch.len() < 4 * plan.half
    {
        return false;
    }
    if tables.stage_twiddles.len() != 2 * stages || tables.end_twiddles.len() != 2 * ends {
        return false;
    }
    inverse(tables, input, output, scratch);
    true
}

// Whether the step at an end can be done, which is then done, from h + 1 cells to others.
fn stepped(h: usize, task: Task, cells: &[f32], twiddles: &[f32], made: &mut [f32]) -> bool {
    if h == 0
        || h > 4096
        || cells.len() != 2 * (h + 1)
        || made.len() != cells.len()
        || twiddles.len() < 2 * ((h - 1) / 2)
    {
        return false;
    }
    match task {
        Task::Postprocess => postprocess_fft(cells, twiddles, made, h),
        Task::Preprocess | Task::Inverse => {
            preprocess_ifft(cells, twiddles, made, h);
            conjugate(&mut made[..2 * h], h);
        }
    }
    true
}
