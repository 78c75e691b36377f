// Replays what inner functions alone show: puts each record's question to the library and counts the answers that differ.
// The records are in the files `planning`, `layouts`, `places`, `ends` and `inverse`, or in the five files that the arguments
// name; oracle/src/text.rs says what stands in a record, and tests/replay.c replays what public calls show.
#![tactic(auto)]

mod spectra;

ghost use Rattle.std.specs.Prelude.{◌≤◌, ◌<◌};

use recorded::inner::text::{Line, read_line};
use recorded::inner::{places, plans};
use std::env::FillError;
use std::io::{BufReader, Print, Read};
use std::rt::{Env, Files};
use std::{fs, io};

// Which answers a file records: half lists, where twiddles stand, by a checksum and place by place, the steps at the ends
// alone, and inverse transforms by the unguarded core.
#[derive(Clone, Copy)]
enum Kind {
    Halves,
    Layouts,
    Places,
    Ends,
    Inverses,
}

impl Kind {
    // The name of the answers.
    fn name(self) -> &'static str {
        match self {
            Kind::Halves => "halves",
            Kind::Layouts => "layouts",
            Kind::Places => "places",
            Kind::Ends => "ends",
            Kind::Inverses => "inverses",
        }
    }

    // The file that records them.
    fn file(self) -> &'static str {
        match self {
            Kind::Halves => "planning",
            Kind::Layouts => "layouts",
            Kind::Places => "places",
            Kind::Ends => "ends",
            Kind::Inverses => "inverse",
        }
    }

    // Which argument names another file.
    fn argument(self) -> usize {
        match self {
            Kind::Halves => 1,
            Kind::Layouts => 2,
            Kind::Places => 3,
            Kind::Ends => 4,
            Kind::Inverses => 5,
        }
    }

    // How many bytes the line has that a record starts with.
    fn size(self) -> usize
        ensures { (0 < result) × (result ≤ 97) }
    {
        match self {
            Kind::Halves => 97,
            Kind::Layouts => 36,
            Kind::Places => 25,
            Kind::Ends => 24,
            Kind::Inverses => 28,
        }
    }

    // How many answers a record has.
    fn answers(self) -> u64
        ensures { result ≤ 126 }
    {
        match self {
            Kind::Halves | Kind::Layouts | Kind::Places => 1,
            Kind::Ends => 42,
            Kind::Inverses => 126,
        }
    }
}

// How many answers of a file were compared and how many of them differ, and whether the file ended after a record.
#[derive(Clone, Copy)]
struct Tally {
    answers: u64,
    differ: u64,
    is_whole: bool,
}

// The tally of a file with no record.
const NONE: Tally = Tally {
    answers: 0,
    differ: 0,
    is_whole: false,
};

// How many records of one file are read at most.
const MOST: u64 = 1000000;

fn main(rt: HostRuntime) {
    for kind in [
        Kind::Halves,
        Kind::Layouts,
        Kind::Places,
        Kind::Ends,
        Kind::Inverses,
    ] {
        replay(&rt, kind);
    }
}

// Replays a file, and writes how it went.
fn replay<R: Files + Env + Print + Alloc>(rt: &R, kind: Kind) {
    let tally = match opened(rt, kind) {
        Ok(mut from) => tallied(rt, kind, &mut from),
        Err(_) => NONE,
    };
    let name = kind.name();
    let answers = tally.answers;
    let differ = tally.differ;
    let _ = if tally.is_whole && answers > 0 {
        print!(rt; "{name} {answers} answers, {differ} differ\n")
    } else {
        print!(rt;
            "{name}: the file is not there, is cut or has no record, after {answers} answers\n"
        )
    };
}

// Opens the file that an argument names, or where there are no arguments the one so named, whose bytes are read many at a time.
fn opened<R: Files + Env + Alloc>(rt: &R, kind: Kind) -> io::Result<BufReader<R::File, R::A>> {
    let mut path = [0u8; 4096];
    if let Err(FillError::NotPresent) = rt.arg(1, &mut path) {
        return BufReader::new(rt.alloc(), fs::open(rt, kind.file())?);
    }
    let length = rt.arg(kind.argument(), &mut path).unwrap_or(0);
    let name = str::from_utf8(&path[..length]).unwrap_or("");
    BufReader::new(rt.alloc(), fs::open(rt, name)?)
}

// Reads a file to its end and counts.
fn tallied<P: Print, R: Read>(rt: &P, kind: Kind, from: &mut R) -> Tally {
    let mut tally = NONE;
    for i in 0..MOST {
        let mut line = [0u8; 97];
        match read_line(from, &mut line[..kind.size()]) {
            Line::Whole => {}
            Line::End => {
                tally.is_whole = true;
                return tally;
            }
            Line::Cut => return tally,
        }
        let differ = differing(kind, line, from);
        if differ > 0 {
            let name = kind.name();
            let record = i + 1;
            let _ = print!(rt; "{name} record {record} differs\n");
        }
        tally.answers += kind.answers();
        tally.differ += differ;
    }
    tally
}

// How many answers of a record are not the library's.
fn differing<R: Read>(kind: Kind, line: [u8; 97], from: &mut R) -> u64
    ensures { result ≤ 126 }
{
    match kind {
        Kind::Halves => u64::from(plans::half_differs(line)),
        Kind::Layouts => u64::from(places::layout_differs(line)),
        Kind::Places => u64::from(places::places_differ(line, from)),
        Kind::Ends => spectra::ends_differ(line, from),
        Kind::Inverses => spectra::inverses_differ(line, from),
    }
}
