// Where the samples come from. The chunks of a WAV file are walked over as they are read, and nothing is kept of them.
ghost use Rattle.std.specs.Prelude.{◌≡◌, ◌+◌, ◌-◌, ◌^◌, ◌≤◌, ◌<◌, length, IfOk, IfSome, IfErr};

use chunks::inner::walk::{Walk, begin, step};
use fields::inner::view::View;
use input_rows::inner::rows::{Broken, fill};
use little::inner::numbers::four;
use refusal::Refusal;
use std::fmt::Display;
use std::fs::File;
use std::io::{Read, Seek, SeekFrom, Stdin};
use std::{fmt, io};

// What is read: standard input, or a file that was opened.
#[derive(Drop)]
pub enum Source {
    Stream(Stdin),
    Named(File),
}

impl Read for Source {
    fn read(&mut self, buffer: &mut [u8]) -> io::Result<usize> {
        match self {
            Source::Stream(input) => input.read(buffer),
            Source::Named(file) => file.read(buffer),
        }
    }
}

// Where the samples begin: their rate, how many there are, how many bytes stand before them, and how many bytes there are in all, where that is said.
#[derive(Clone, Copy)]
pub struct Start {
    pub rate: usize,
    pub samples: usize,
    pub at: usize,
    pub total: Option<usize>,
}

// Why there is nothing to hear: a read failed, or a file is refused.
#[derive(Clone, Copy)]
pub enum Fault {
    Unread,
    Refused { refusal: Refusal, why: Why },
}

// What is wrong with a file that is refused.
#[derive(Clone, Copy)]
pub enum Why {
    EndsEarly,
    NoRiff,
    OtherSize,
    OtherRiff,
    NoWav,
    NoFormat,
    ChunkSize,
    NoPcm,
    Channels,
    Rate,
    Bits,
}

impl Display for Fault {
    fn fmt<W: fmt::Write>(&self, f: &mut fmt::Formatter<W>) -> fmt::Result {
        match self {
            Fault::Unread => f.write_str("the input cannot be read"),
            Fault::Refused { refusal, why } => {
                write!(
                    f,
                    "refused {} at {}: {why}",
                    refusal.number(),
                    refusal.place()
                )
            }
        }
    }
}

impl Display for Why {
    fn fmt<W: fmt::Write>(&self, f: &mut fmt::Formatter<W>) -> fmt::Result {
        f.write_str(match self {
            Why::EndsEarly => "the file ends early: copy it again, whole",
            Why::NoRiff =>
                "this is no WAV file, since it does not begin with RIFF: bare samples are heard with --raw RATE",
            Why::OtherSize =>
                "the file is cut, or has bytes behind its end: its RIFF size is not its length; copy it again, whole",
            Why::OtherRiff => "this is no WAV file, though it begins with RIFF",
            Why::NoWav => "this is no WAV file that can be read",
            Why::NoFormat => "the samples stand before their format: save the file anew",
            Why::ChunkSize =>
                "a size is none of plain samples of 16 bits: save the file as plain PCM",
            Why::NoPcm => "the samples are no plain PCM: save the file as that",
            Why::Channels => "there is more than one channel, or none: save the file with one",
            Why::Rate =>
                "the rate is not from 1 to 192,000 samples a second: save the file with such a rate",
            Why::Bits => "the samples do not have 16 bits: save the file with 16, in one channel",
        })
    }
}

impl From<Broken> for Fault {
    fn from(_: Broken) -> Fault {
        Fault::Unread
    }
}

// Bare samples, to whose number there is no end.
pub fn bare(rate: usize) -> Start {
    Start {
        rate,
        samples: 9007199254740992,
        at: 0,
        total: None,
    }
}

// Reads so many bytes, or all that there are, keeps none, and answers how many came. A read brings as many as it likes, so the loop counts them.
pub fn skip(source: &mut Source, count: usize) -> Result<usize, Broken>
    ensures came { IfOk result (λ n. n ≤ count) }
    ensures broken { IfErr result (λ e. e.after ≤ count) }
{
    let mut done: usize = 0;
    while done < count {
        match skip_some(source, count - done) {
            Ok(0) => return Ok(done),
            Err(Broken { after: 0 }) => return Err(Broken { after: done }),
            Ok(more) | Err(Broken { after: more }) => done += more,
        }
    }
    Ok(done)
}

// Reads so many bytes, 4,096 at most, and keeps none.
fn skip_some(source: &mut Source, count: usize) -> Result<usize, Broken>
    ensures came { IfOk result (λ n. n ≤ count) }
    ensures broken { IfErr result (λ e. e.after ≤ count) }
{
    let mut room = [0u8; 4096];
    fill(source, &mut room[..count.min(4096)])
}

// How many bytes a file has; none where that cannot be told, and of a file that says it has none.
fn size_of(source: &mut Source) -> Option<usize>
    ensures { IfSome result (λ n. n ≤ 9223372036854775807) }
{
    match source {
        Source::Stream(_) => None,
        Source::Named(file) => length_by_seeking(file),
    }
}

// The same of a file, which stands at its start again.
fn length_by_seeking(file: &mut File) -> Option<usize>
    ensures { IfSome result (λ n. n ≤ 9223372036854775807) }
{
    let end = file.seek(SeekFrom::End(0)).ok()?;
    if end == 0 || end > 9223372036854775807 {
        return None;
    }
    match file.seek(SeekFrom::Start(0)) {
        Ok(0) => Some(end as usize),
        _ => None,
    }
}

// Walks to the samples of a WAV file. A stream is taken to be as long as its RIFF size says.
pub fn found(source: &mut Source) -> Result<Start, Fault> {
    let mut mark = [0u8; 24];
    let size = size_of(source);
    let came = fill(source, &mut mark[..12])?;
    let total = match size {
        Some(size) => size,
        None => length_of(&mark, came),
    };
    match begin(&mark, total) {
        Ok(_) => walked(source, total),
        Err(refusal) => Err(refused(refusal, 0, total)),
    }
}

// How long a stream is to be that began with so many bytes: what its RIFF size says, or what came where that is not 12 bytes.
fn length_of(mark: &[u8], came: usize) -> usize
    requires { (length mark.now ≡ 24) × (came ≤ 12) }
    ensures { result ≤ 4294967303 }
{
    if came < 12 {
        return came;
    }
    four(mark, 4) + 8
}

// Walks over the chunks behind the mark.
fn walked(source: &mut Source, total: usize) -> Result<Start, Fault>
    requires { 12 ≤ total }
{
    let mut at: usize = 12;
    let mut rate = None;
    // No `for`: each chunk says where the next begins.
    loop {
        let mut window = [0u8; 24];
        let read = at + shown(source, &mut window, rate, at, total)?;
        let chunk = View {
            window: &window,
            at,
            total,
        };
        match step(chunk, rate) {
            Ok(
                Walk::Chunk {
                    at: next,
                    rate: next_rate,
                },
            ) => {
                at = next;
                rate = next_rate;
            }
            Ok(Walk::End(samples)) => {
                return Ok(Start {
                    rate: samples.rate as usize,
                    samples: samples.count,
                    at: samples.at,
                    total: Some(total),
                });
            }
            Err(refusal) => return Err(refused(refusal, at, total)),
        }
        let between = at - at.min(read);
        all_came(skip(source, between), between, read)?;
    }
}

// Nothing to hear, since the file ends early, at a place.
fn ended(place: usize) -> Fault {
    Fault::Refused {
        refusal: Refusal::Wav(place),
        why: Why::EndsEarly,
    }
}

// Whether all bytes came that are to stand from a place of the file on.
fn all_came(came: Result<usize, Broken>, wanted: usize, place: usize) -> Result<(), Fault>
    requires { place + wanted < 2 ^ 64 }
{
    let came = came?;
    if came < wanted {
        return Err(ended(place + came));
    }
    Ok(())
}

// Reads what the chunk at a place begins with, its name and size, and the fields of the first format, and answers how many bytes that is.
fn shown(
    source: &mut Source,
    window: &mut [u8],
    rate: Option<u32>,
    at: usize,
    total: usize,
) -> Result<usize, Fault>
    requires { (length window.old ≡ 24) × (at ≤ total) }
    ensures { IfOk result (λ n. (n ≤ 24) × (n ≤ total - at)) }
{
    let left = total - at;
    let first = left.min(8);
    all_came(fill(source, &mut window[..first]), first, at)?;
    if first < 8 || rate.is_some() || four(window, 0) != four(b"fmt ", 0) {
        return Ok(first);
    }
    let all = left.min(24);
    all_came(fill(source, &mut window[8..all]), all - 8, at + 8)?;
    Ok(all)
}

// A file of so many bytes that is refused, at the chunk that begins at a place.
fn refused(refusal: Refusal, at: usize, total: usize) -> Fault {
    let place = refusal.place();
    let why = if place >= total {
        Why::EndsEarly
    } else if at == 0 {
        why_no_mark(place)
    } else if place < at {
        Why::NoWav
    } else {
        why_no_chunk(place - at)
    };
    Fault::Refused { refusal, why }
}

// What is wrong with a file's mark, by the field.
fn why_no_mark(field: usize) -> Why {
    match field {
        0 => Why::NoRiff,
        4 => Why::OtherSize,
        _ => Why::OtherRiff,
    }
}

// What is wrong with a chunk, by the field.
fn why_no_chunk(field: usize) -> Why {
    match field {
        0 => Why::NoFormat,
        4 => Why::ChunkSize,
        8 => Why::NoPcm,
        10 => Why::Channels,
        12 => Why::Rate,
        _ => Why::Bits,
    }
}
