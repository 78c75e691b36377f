// The lines that tell of a plan or of a refusal.
ghost use Rattle.std.specs.Prelude.{◌≡◌, true, [], ◌∷◌, map, ◌+◌, ◌*◌, ◌≤◌, length};
ghost use Rattle.plan.specs.Record.{is_planned};
ghost use Rattle.text.specs.Lines.{decimal, spaced, line};
ghost use Rattle.text.specs.Growing.{line_of, Adds, Holds};
ghost use Rattle.plan_text.specs.Report.{factor_words, buffer_name, plan_lines, refusal_line};

use counts::Buffer;
use counts::inner::stages::{end_count, result_in, twiddle_start};
use merging::Merges;
use plan::Record;
use refusal::Refusal;
use text::Text;

// A line with a number.
fn number_line(text: &mut Text, name: &[u8], n: usize)
    requires { length text.old + (length name.now + 22) ≤ 256 }
    ensures { Adds text.old (line_of name.now (decimal n ∷ [])) (length name.now + 22) text.new }
{
    text.extend_from_slice(name);
    text.push_number(n);
    text.push(b'\n');
}

// The radices, each after a blank.
fn spaced_radices(text: &mut Text, radices: &[u8])
    requires { length text.old + 4 * length radices.now ≤ 256 }
    ensures { Adds text.old (spaced (map decimal radices.now)) (4 * length radices.now) text.new }
{
    for &radix in radices {
        text.push_radix(radix);
    }
}

// The words of the line of factors.
fn factor_words(text: &mut Text, radices: &[u8])
    requires { (length radices.now ≤ 13) × (length text.old + 52 ≤ 256) }
    ensures { Adds text.old (spaced (factor_words radices.now)) 52 text.new }
{
    if radices.is_empty() {
        text.extend_from_slice(b" -");
        return;
    }
    spaced_radices(text, radices);
}

// The line of factors.
fn factors_line(text: &mut Text, radices: &[u8])
    requires { (length radices.now ≤ 13) × (length text.old + 60 ≤ 256) }
    ensures { Adds text.old (line "factors" (factor_words radices.now)) 60 text.new }
{
    text.extend_from_slice(b"factors");
    factor_words(text, radices);
    text.push(b'\n');
}

// The line of the buffer with the result.
fn result_line(text: &mut Text, buffer: Buffer)
    requires { length text.old + 18 ≤ 256 }
    ensures { Adds text.old (line "result" (buffer_name buffer ∷ [])) 18 text.new }
{
    match buffer {
        Buffer::Data => text.extend_from_slice(b"result data\n"),
        Buffer::Scratchpad => text.extend_from_slice(b"result scratchpad\n"),
    }
}

// A plan, in seven lines.
pub fn plan_lines(plan: Record, merges: Merges) -> Text
    requires { is_planned plan ≡ true }
    ensures { Holds (plan_lines plan merges) result }
{
    let mut text = Text::new();
    number_line(&mut text, b"n", plan.n);
    number_line(&mut text, b"half", plan.half);
    factors_line(&mut text, &plan.radices[..plan.count]);
    number_line(&mut text, b"merges", merges.count);
    number_line(&mut text, b"stage", twiddle_start(plan, plan.count));
    number_line(&mut text, b"end", end_count(plan.n));
    result_line(&mut text, result_in(plan.count));
    text
}

// A refusal, in one line.
pub fn refusal_line(why: Refusal) -> Text
    ensures { Holds (refusal_line why) result }
{
    let mut text = Text::new();
    text.extend_from_slice(b"refused");
    text.push_number(why.number() as usize);
    text.push_number(why.place());
    text.push(b'\n');
    text
}
