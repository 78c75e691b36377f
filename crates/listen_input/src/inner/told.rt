// What is told on standard error, and lines on standard output.
use std::fmt;
use std::fmt::Display;
use std::io::{Eprint, Print};
use text::Text;

// What standard output does not take.
#[derive(Clone, Copy)]
pub struct Unwritten;

impl Display for Unwritten {
    fn fmt<W: fmt::Write>(&self, f: &mut fmt::Formatter<W>) -> fmt::Result {
        f.write_str("standard output cannot be written")
    }
}

// Tells what is wrong, in a line on standard error, where that can be written.
pub fn tell<D: Display + Drop>(rt: &HostRuntime, what: D) {
    let _ = eprintln!(rt; "listen: {what}");
}

// Prints a line.
pub fn print_line(rt: &HostRuntime, line: Text) -> Result<(), Unwritten> {
    rt.write_all(line.as_bytes()).map_err(|_| Unwritten)
}
