// The words of the call: what is to be heard, and how.
ghost use Rattle.std.specs.Prelude.{◌+◌, ◌≤◌, ◌<◌, OnSome};

use crate::inner::source::Source;
use listen_words::inner::words::{level_of, number_of};
use std::env::FillError;
use std::fmt::Display;
use std::fs::File;
use std::io::Write;
use std::rt::Env;
use std::{fmt, fs, io};

// What is to be heard: standard input, or the file that a word of the call names.
#[derive(Clone, Copy)]
pub enum Input {
    Stream,
    Named(usize),
}

// How it is to be heard: the length of blocks, the band, the level of the threshold, 16,000 at full scale, the rate of bare samples, none for a
// WAV file, and whether its spectrum is drawn.
#[derive(Clone, Copy)]
pub struct Options {
    pub block: usize,
    pub lo: usize,
    pub hi: usize,
    pub level: usize,
    pub raw: Option<usize>,
    pub plot: bool,
}

// What the words of a call ask for.
#[derive(Clone, Copy)]
pub struct Call {
    pub input: Input,
    pub options: Options,
}

// What is wrong with the words of a call; where a word of its own is, its place.
#[derive(Clone, Copy)]
enum Fault {
    TooMany,
    TooLong,
    NoInput,
    NoBlock,
    NoRate,
    OtherRate,
    NoBand,
    NoLevel,
    NoOption(usize),
    SecondInput(usize),
}

impl Fault {
    // The word that ends the sentence.
    fn word(self) -> Option<usize> {
        match self {
            Fault::NoOption(place) | Fault::SecondInput(place) => Some(place),
            _ => None,
        }
    }
}

impl Display for Fault {
    fn fmt<W: fmt::Write>(&self, f: &mut fmt::Formatter<W>) -> fmt::Result {
        f.write_str(match self {
            Fault::TooMany => "there are too many words",
            Fault::TooLong => "a word is too long",
            Fault::NoInput => "which file? - is standard input",
            Fault::NoBlock => "--block wants a number of samples, as in --block 1680",
            Fault::NoRate => "--raw wants samples a second, as in --raw 16000",
            Fault::OtherRate => "--raw wants 1 to 192000 samples a second",
            Fault::NoBand => "--band wants two numbers of hertz, as in --band 200 300",
            Fault::NoLevel =>
                "--threshold wants decibels with at most one decimal, as in --threshold -30.1",
            Fault::NoOption(_) => "there is no option ",
            Fault::SecondInput(_) => "one file at a time, and not also ",
        })
    }
}

// The most words that are read.
const WORDS: usize = 64;

// The words that are still to be read: the place of the next one, and how many they are.
#[derive(Clone, Copy)]
struct Words {
    next: usize,
    left: usize,
    ghost few: { next + left ≤ 65 },
}

impl Words {
    // The words behind the program's name; none where there are more than are read.
    fn of_call(rt: &HostRuntime) -> Option<Words> {
        let mut nothing = [0u8; 0];
        for i in 0..WORDS + 1 {
            if let Err(FillError::NotPresent) = rt.arg(i, &mut nothing) {
                return Some(Words {
                    next: 1,
                    left: i.saturating_sub(1),
                });
            }
        }
        None
    }

    // The place of the next word.
    fn next(&mut self) -> Option<usize>
        ensures left { self.new.left ≤ self.old.left }
        ensures some { OnSome result (self.new.left < self.old.left) }
    {
        if self.left == 0 {
            return None;
        }
        let place = self.next;
        self.next += 1;
        self.left -= 1;
        Some(place)
    }

    // What the next word says.
    fn value<F: FnOnce(&[u8]) -> Option<usize>>(
        &mut self,
        rt: &HostRuntime,
        read: F,
    ) -> Option<usize>
        requires { F.IsAlwaysCallable read }
        ensures { self.new.left ≤ self.old.left }
    {
        // No heap: words and paths are read into arrays.
        let mut word = [0u8; 4096];
        let length = rt.arg(self.next()?, &mut word).ok()?;
        read(&word[..length])
    }
}

// What the words read so far ask for.
#[derive(Clone, Copy)]
struct Asked {
    input: Option<Input>,
    options: Options,
}

impl Asked {
    // Takes the word at a place, and what belongs to it.
    fn take(&mut self, rt: &HostRuntime, place: usize, words: &mut Words) -> Result<(), Fault>
        ensures { words.new.left ≤ words.old.left }
    {
        let mut word = [0u8; 4096];
        let length = rt.arg(place, &mut word).map_err(|_| Fault::TooLong)?;
        match &word[..length] {
            b"--plot" => self.options.plot = true,
            b"--block" => self.options.block = words.value(rt, number_of).ok_or(Fault::NoBlock)?,
            b"--raw" => self.options.raw = Some(rate(
                words.value(rt, number_of).ok_or(Fault::NoRate)?,
            )?),
            b"--band" => {
                self.options.lo = words.value(rt, number_of).ok_or(Fault::NoBand)?;
                self.options.hi = words.value(rt, number_of).ok_or(Fault::NoBand)?;
            }
            b"--threshold" => self.options.level = words.value(rt, level_of).ok_or(Fault::NoLevel)?,
            b"-" => self.hear(Input::Stream, place)?,
            [b'-', ..] => return Err(Fault::NoOption(place)),
            _ => self.hear(Input::Named(place), place)?,
        }
        Ok(())
    }

    // Takes the word that says what is to be heard.
    fn hear(&mut self, input: Input, place: usize) -> Result<(), Fault> {
        if self.input.is_some() {
            return Err(Fault::SecondInput(place));
        }
        self.input = Some(input);
        Ok(())
    }
}

// A rate of bare samples.
fn rate(asked: usize) -> Result<usize, Fault> {
    if asked == 0 || asked > 192000 {
        return Err(Fault::OtherRate);
    }
    Ok(asked)
}

// What the words ask for.
fn call_of(rt: &HostRuntime) -> Result<Call, Fault> {
    let mut words = Words::of_call(rt).ok_or(Fault::TooMany)?;
    let mut asked = Asked {
        input: None,
        options: Options {
            block: 1680,
            lo: 200,
            hi: 300,
            level: 15699,
            raw: None,
            plot: false,
        },
    };
    while let Some(place) = words.next() {
        asked.take(rt, place, &mut words)?;
    }
    Ok(Call {
        input: asked.input.ok_or(Fault::NoInput)?,
        options: asked.options,
    })
}

// What the words ask for, or none, with what is wrong with them told, and how to call.
pub fn chosen(rt: &HostRuntime) -> Option<Call> {
    match call_of(rt) {
        Ok(call) => Some(call),
        Err(fault) => {
            tell_words(rt, fault);
            None
        }
    }
}

// Tells what is wrong with the words.
fn tell_words(rt: &HostRuntime, fault: Fault) {
    let mut word = [0u8; 4096];
    let length = match fault.word() {
        Some(place) => rt.arg(place, &mut word).unwrap_or(0),
        None => 0,
    };
    let mut errors = rt.stderr();
    let _ = write!(errors, "listen: {fault}");
    let _ = errors.write_all(&word[..length]);
    let _ = errors.write_all(
        b"\nusage: ladlespindle listen FILE [--block N] [--band LO HI] [--threshold DB] [--raw RATE] [--plot]\n",
    );
}

// Opens what is to be heard, or tells why it cannot be opened.
pub fn opened(rt: &HostRuntime, input: Input) -> Option<Source> {
    let place = match input {
        Input::Stream => return Some(Source::Stream(rt.stdin())),
        Input::Named(place) => place,
    };
    let mut path = [0u8; 4096];
    let length = rt.arg(place, &mut path).unwrap_or(0);
    match file_at(rt, &path[..length]) {
        Ok(file) => Some(Source::Named(file)),
        Err(why) => {
            tell_unopened(rt, &path[..length], why);
            None
        }
    }
}

// Opens the file that a word names, which has to be text.
fn file_at(rt: &HostRuntime, path: &[u8]) -> io::Result<File> {
    match str::from_utf8(path) {
        Ok(name) => fs::open(rt, name),
        Err(_) => Err(io::Error::other("the name is no UTF-8")),
    }
}

// Tells that a file cannot be opened, by an error's text without the number that the system gives it.
fn tell_unopened(rt: &HostRuntime, path: &[u8], why: io::Error) {
    let mut errors = rt.stderr();
    let _ = errors.write_all(b"listen: cannot open ");
    let _ = errors.write_all(path);
    let _ = errors.write_all(b": ");
    if let Ok(text) = format!(in rt.alloc(); "{why}") {
        let words = text
            .split_once(" (os error ")
            .map_or(text.as_str(), |(words, _)| words);
        let _ = errors.write_all(words.as_bytes());
    }
    let _ = errors.write_all(b"\n");
}
