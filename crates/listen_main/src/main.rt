// The listen program: hears a recording block by block and says of each whether the bees fan.
// ./ladlespindle listen FILE        a WAV file of one channel and 16 bits; - is standard input, line by line as the blocks end
//     --block N        samples in a block: an even divisor of 6,720; 1680 if it is not said
//     --band LO HI     the band in hertz, whole numbers; 200 300
//     --threshold DB   the level of the band from which a block is fanning, in decibels against a tone of full scale; -30.1, a tone of 1/32
//     --raw RATE       bare samples of 16 bits, lowest byte first, so many a second, in place of a WAV file
//     --plot           draws the mean spectrum behind the last line
#![tactic(auto)]

mod drawing;
mod fault;
mod hearing;
mod progress;
mod setup;

use crate::fault::Fault;
use listen_input::inner::options::{Call, Options, chosen, opened};
use listen_input::inner::source::{Source, Start, bare, found};
use listen_input::inner::told::tell;

fn main(rt: HostRuntime) {
    let Some(call) = chosen(&rt) else {
        return;
    };
    let Some(mut source) = opened(&rt, call.input) else {
        return;
    };
    if let Err(fault) = heard(&rt, &mut source, call) {
        tell(&rt, fault);
    }
}

// Hears what was opened.
fn heard(rt: &HostRuntime, source: &mut Source, call: Call) -> Result<(), Fault> {
    let start = start_of(source, call.options)?;
    if start.rate == 0 || start.rate > 192000 {
        return Ok(());
    }
    hearing::hear(rt, source, call.options, start)
}

// Where the samples begin.
fn start_of(source: &mut Source, options: Options) -> Result<Start, Fault> {
    match options.raw {
        Some(rate) => Ok(bare(rate)),
        None => Ok(found(source)?),
    }
}
