// The lines of a block, of samples that are left over, and of the whole.
ghost use Rattle.std.specs.Prelude.{◌+◌, ◌≤◌, ◌<◌, [], ◌∷◌, length};
ghost use Rattle.text.specs.Growing.{Adds, Holds};
ghost use Rattle.listen_text.specs.Lines.{digit, time_text, tenths_text, level_text, decision_text, block_line, left_line, whole_line};

use hear::Decision;
use levels::inner::levels::{level_of, step_of};
use listening::Block;
use text::Text;

// A digit.
fn push_digit(text: &mut Text, n: usize)
    requires { (length text.old < 256) × (n < 10) }
    ensures { Adds text.old (digit n ∷ []) 1 text.new }
{
    text.push(b'0' + n as u8);
}

// A time in seconds, to the millisecond.
fn push_time(text: &mut Text, ms: usize)
    requires { length text.old + 26 ≤ 256 }
    ensures { Adds text.old (time_text ms) 26 text.new }
{
    text.push_right(ms / 1000, 6);
    text.push(b'.');
    push_digit(text, ms / 100 % 10);
    push_digit(text, ms / 10 % 10);
    push_digit(text, ms % 10);
    text.extend_from_slice(b" s");
}

// So many tenths of a decibel behind a sign.
fn push_tenths(text: &mut Text, sign: u8, tenths: usize)
    requires { length text.old + 26 ≤ 256 }
    ensures { Adds text.old (tenths_text sign tenths) 26 text.new }
{
    let whole = tenths / 10;
    text.push_indent(whole, 3);
    text.push(sign);
    text.push_decimal(whole);
    text.push(b'.');
    push_digit(text, tenths % 10);
}

// A level, in decibels.
pub fn push_level(text: &mut Text, level: usize)
    requires { length text.old + 26 ≤ 256 }
    ensures { Adds text.old (level_text level) 26 text.new }
{
    if level == 0 {
        text.extend_from_slice(b"  -inf");
        return;
    }
    if level < 16000 {
        push_tenths(text, b'-', 16000 - level);
        return;
    }
    push_tenths(text, b' ', level - 16000);
}

// Whether the bees fan.
fn push_decision(text: &mut Text, decision: Decision)
    requires { length text.old + 8 ≤ 256 }
    ensures { Adds text.old (decision_text decision) 8 text.new }
{
    match decision {
        Decision::Fanning => text.extend_from_slice(b"fanning\n"),
        Decision::Quiet => text.extend_from_slice(b"quiet\n"),
    }
}

// The line of a block that begins at a time, against the step of full scale.
pub fn block_line(ms: usize, full: u16, block: Block) -> Text
    ensures { Holds (block_line ms full block) result }
{
    let mut text = Text::new();
    push_time(&mut text, ms);
    text.extend_from_slice(b"   band ");
    push_level(&mut text, level_of(full, step_of(block.band)));
    text.extend_from_slice(b" dB   outside ");
    push_level(&mut text, level_of(full, step_of(block.outside)));
    text.extend_from_slice(b" dB   ");
    push_decision(&mut text, block.decision);
    text
}

// The line of samples at the end that make no block.
pub fn left_line(ms: usize, samples: usize) -> Text
    ensures { Holds (left_line ms samples) result }
{
    let mut text = Text::new();
    push_time(&mut text, ms);
    text.extend_from_slice(b"   ");
    text.push_decimal(samples);
    text.extend_from_slice(b" samples are left, too few for a block: not heard\n");
    text
}

// The line of the whole: how many blocks, and how many of them fan.
pub fn whole_line(blocks: usize, fanning: usize) -> Text
    requires { fanning ≤ blocks }
    ensures { Holds (whole_line blocks fanning) result }
{
    let mut text = Text::new();
    text.push_decimal(blocks);
    text.extend_from_slice(b" blocks heard: ");
    text.push_decimal(fanning);
    text.extend_from_slice(b" fanning, ");
    text.push_decimal(blocks - fanning);
    text.extend_from_slice(b" quiet\n");
    text
}
