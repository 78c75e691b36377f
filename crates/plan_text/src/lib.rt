// The text that the plan program prints for the bytes that it read.
#![tactic(auto)]

pub mod inner;

ghost use Rattle.plan_text.specs.Report.{Reports};

use inner::lines::{plan_lines, refusal_line};
use text::Text;
use tokens::inner::tokens::read_radices;

// What the plan program prints for an input, of which the first 4,096 bytes count.
pub fn report(input: &[u8]) -> Text
    ensures { Reports input.now result }
{
    let read = input.len().min(4096);
    let tokens = read_radices(&input[..read]);
    let list = tokens.list;
    let count = tokens.count;
    match plan::plan(&list[..count]) {
        Ok(made) => plan_lines(made.plan, made.merges),
        Err(why) => refusal_line(why),
    }
}
