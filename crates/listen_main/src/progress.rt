// How far the hearing is, told now and then where somebody waits for it.
use std::fs::File;
use std::io;
use std::io::{IsTerminal, Write};

// Where progress is told: nowhere, at descriptor 4, which the launcher sees to, or on standard error.
#[derive(Clone, Copy)]
pub enum Progress {
    Nowhere,
    Launcher,
    Errors,
}

impl Progress {
    // On descriptor 4 where that is a terminal, or on standard error where that is one and standard output is none, on which lines would be told
    // beside it.
    pub fn of(rt: &HostRuntime) -> Progress {
        if is_launched(rt) {
            Progress::Launcher
        } else if !rt.stdout().is_terminal() && rt.stderr().is_terminal() {
            Progress::Errors
        } else {
            Progress::Nowhere
        }
    }

    // Tells how many seconds were heard.
    pub fn tell(self, rt: &HostRuntime, seconds: usize) {
        match self {
            Progress::Nowhere => {}
            Progress::Launcher => {
                if let Ok(mut file) = launcher(rt) {
                    tell_seconds(&mut file, seconds);
                }
            }
            Progress::Errors => tell_seconds(&mut rt.stderr(), seconds),
        }
    }

    // Wipes what was told.
    pub fn wipe(self, rt: &HostRuntime) {
        match self {
            Progress::Nowhere => {}
            Progress::Launcher => {
                if let Ok(mut file) = launcher(rt) {
                    wipe_line(&mut file);
                }
            }
            Progress::Errors => wipe_line(&mut rt.stderr()),
        }
    }
}

// Whether descriptor 4 is a terminal.
fn is_launched(rt: &HostRuntime) -> bool {
    match launcher(rt) {
        Ok(file) => file.is_terminal(),
        Err(_) => false,
    }
}

// What is open at descriptor 4, opened anew to be written to.
fn launcher(rt: &HostRuntime) -> io::Result<File> {
    File::options().write(true).open(rt, "/dev/fd/4")
}

// Tells how many seconds were heard.
fn tell_seconds<W: Write>(to: &mut W, seconds: usize) {
    let _ = write!(to, "\rlisten: {seconds} seconds heard");
}

// Wipes a line.
fn wipe_line<W: Write>(to: &mut W) {
    let _ = to.write_all(b"\r                                        \r");
}
