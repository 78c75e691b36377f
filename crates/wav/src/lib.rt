// Recordings as WAV files: how many samples a file holds, those samples, and a file of samples.
#![tactic(auto)]

pub mod inner;

ghost use Rattle.std.specs.Prelude.{◌≡◌};
ghost use Rattle.wav.specs.Wav.{Counts, Measures, Reads, Writes, write_verdict};

use crate::inner::header::{header, lay};
use chunks::inner::walk::{Samples, walk_over};
use fields::inner::fields::FASTEST;
use pcm::inner::samples::{first_unfit, read_samples, write_samples};
use refusal::{Refusal, Verdict};

// The most samples of a file: its size less 8 is the last even number that four bytes hold.
const MOST_SAMPLES: usize = 2147483629;

// What a file that is read answers: the rate and how many samples.
#[derive(Clone, Copy)]
pub struct Wav {
    pub rate: u32,
    pub samples: usize,
}

// What is told of samples that a walk has found.
impl From<Samples> for Wav {
    ghost from_gives = { Counts };

    fn from(found: Samples) -> Wav {
        Wav {
            rate: found.rate,
            samples: found.count,
        }
    }
}

// The rate of a file, and how many samples it holds.
pub fn measure(file: &[u8]) -> Result<Wav, Refusal>
    ensures { Measures file.now result }
{
    Ok(Wav::from(walk_over(file)?))
}

// The samples of a file, with its rate and how many they are.
#[tactic(auto, using(chunks::proofs::Walks::walk_inside), unfolding(crate::specs::Wav::read_verdict))]
pub fn read(file: &[u8], output: &mut [f32]) -> Result<Wav, Refusal>
    ensures { Reads file.now output.old result output.new }
{
    let found = walk_over(file)?;
    if output.len() != found.count {
        return Err(Refusal::Length(1));
    }
    read_samples(file, found.at, output);
    Ok(Wav::from(found))
}

// The refusals of a file to write.
#[tactic(auto, unfolding(crate::specs::Wav::write_verdict))]
fn lent(rate: u32, samples: &[f32], file: usize) -> Verdict
    ensures { result ≡ write_verdict rate samples.now file }
{
    if rate == 0 || rate as usize > FASTEST {
        return Err(Refusal::Wav(24));
    }
    let n = samples.len();
    if n > MOST_SAMPLES {
        return Err(Refusal::Length(0));
    }
    if file != 44 + 2 * n {
        return Err(Refusal::Length(1));
    }
    if let Some(unfit) = first_unfit(samples) {
        return Err(Refusal::Number(unfit));
    }
    Ok(())
}

// A file of samples.
#[tactic(auto, using(crate::proofs::Calls::write_told, crate::proofs::Files::file_made))]
pub fn write(rate: u32, samples: &[f32], file: &mut [u8]) -> Verdict
    ensures { Writes rate samples.now file.old result file.new }
{
    lent(rate, samples, file.len())?;
    lay(&header(rate, samples.len()), file);
    write_samples(samples, file, 44);
    Ok(())
}
