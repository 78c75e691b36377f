// Why samples cannot be heard as the options ask, or no further.
use input_rows::inner::rows::Broken;
use listen_input::inner::source;
use listen_input::inner::told::Unwritten;
use refusal::Refusal;
use std::fmt;
use std::fmt::Display;

#[derive(Clone, Copy)]
pub enum Fault {
    Input(source::Fault),
    Output(Unwritten),
    // no block of so many samples is served, and the nearest that is
    NoBlock { asked: usize, nearest: usize },
    NoPlan,
    // the highest frequency of a band, and the lowest
    NoBand { highest: usize, lowest: usize },
    AboveFull,
    // the lowest threshold, in tenths of a decibel below full scale
    TooLow { tenths: usize },
    NoTwiddles(Refusal),
    Unheard(Refusal),
    // a file ended behind so many bytes
    Ended { came: usize },
    // what a stream's RIFF size says, and how many bytes came
    OtherSize { total: usize, came: usize },
}

impl Fault {
    // The row of the table of refusals, and the place, where it is one.
    fn refusal(self) -> Option<Refusal> {
        match self {
            Fault::NoBlock { .. } | Fault::NoPlan => Some(Refusal::NotHoused),
            Fault::NoBand { .. } => Some(Refusal::Bins),
            Fault::NoTwiddles(why) | Fault::Unheard(why) => Some(why),
            Fault::Ended { came } => Some(Refusal::Wav(came)),
            Fault::OtherSize { .. } => Some(Refusal::Wav(4)),
            Fault::Input(_) | Fault::Output(_) | Fault::AboveFull | Fault::TooLow { .. } => None,
        }
    }
}

impl Display for Fault {
    fn fmt<W: fmt::Write>(&self, f: &mut fmt::Formatter<W>) -> fmt::Result {
        if let Some(why) = self.refusal() {
            write!(f, "refused {} at {}: ", why.number(), why.place())?;
        }
        match self {
            Fault::Input(fault) => write!(f, "{fault}"),
            Fault::Output(fault) => write!(f, "{fault}"),
            Fault::NoBlock { asked, nearest } => {
                write!(
                    f,
                    "no block of {asked} samples is served: the nearest that is has {nearest}"
                )
            }
            Fault::NoPlan => f.write_str("no block of this length is served: take 1680"),
            Fault::NoBand { highest, lowest } => write!(
                f,
                "this is no band with bins of its own: take --band LO HI with HI at most {highest} and LO at least {lowest} less than HI"
            ),
            Fault::AboveFull => f.write_str(
                "no tone reaches a threshold above 0 dB: take --threshold 0 or less",
            ),
            Fault::TooLow { tenths } => write!(
                f,
                "rounding alone could reach this threshold: take --threshold -{}.{} or more",
                *tenths / 10,
                *tenths % 10
            ),
            Fault::NoTwiddles(_) => f.write_str("twiddles cannot be filled"),
            Fault::Unheard(_) => f.write_str("a block cannot be heard"),
            Fault::Ended { .. } => f.write_str(
                "the file ended while it was heard: copy it again, whole",
            ),
            Fault::OtherSize { total, came } => write!(
                f,
                "the RIFF size says {total} bytes in all, and {came} came: the recording is cut, or was never ended"
            ),
        }
    }
}

impl From<source::Fault> for Fault {
    fn from(fault: source::Fault) -> Fault {
        Fault::Input(fault)
    }
}

impl From<Broken> for Fault {
    fn from(_: Broken) -> Fault {
        Fault::Input(source::Fault::Unread)
    }
}

impl From<Unwritten> for Fault {
    fn from(fault: Unwritten) -> Fault {
        Fault::Output(fault)
    }
}
