// The plan program: reads a list of radices and prints its plan, or the refusal.
// The first 4,096 bytes of standard input count. Radices are parted by blanks and line ends: echo 3 2 2 | ./ladlespindle plan
#![tactic(auto)]

use input_rows::inner::rows::fill;
use std::io::{Eprint, Input, Print};
use text::Text;

// Prints what the report says of the first 4,096 bytes of the input; where a read fails it says so and prints no plan.
fn main(rt: HostRuntime) {
    let mut input = [0u8; 4096];
    match fill(&mut rt.reader(), &mut input) {
        Ok(n) => print(&rt, &input[..n]),
        Err(_) => say(&rt, "plan: standard input cannot be read\n"),
    }
}

// Prints the report on an input.
fn print(rt: &(impl Print + Eprint), input: &[u8]) {
    let text: Text = plan_text::report(input);
    if rt.write_all(text.as_bytes()).is_err() {
        say(rt, "plan: standard output cannot be written\n");
    }
}

// Says a sentence on standard error, where that can be written.
fn say(rt: &impl Eprint, sentence: &str) {
    let _ = rt.eprint(sentence);
}
