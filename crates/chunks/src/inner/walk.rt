// The walk over a recording's chunks, each in a window of the file's bytes.
ghost use Rattle.std.specs.Prelude.{◌≡◌, ◌≤◌, min, length};
ghost use Rattle.chunks.specs.Chunks.{at_data, at_format, at_other, begun, stepped, walk_of};

use fields::inner::fields::{data, format, head, other};
use fields::inner::view::View;
use little::inner::numbers::four;
use refusal::Refusal;

// The samples of a recording: where they begin, their rate, and how many they are.
#[derive(Clone, Copy)]
pub struct Samples {
    pub at: usize,
    pub rate: u32,
    pub count: usize,
}

// Where a walk over a file's chunks stands: at a chunk, with the rate of the first format before it, or at the samples, where it ends.
#[derive(Clone, Copy)]
pub enum Walk {
    Chunk { at: usize, rate: Option<u32> },
    End(Samples),
}

// The walk over a file of so many bytes, as its first 12 begin it.
#[tactic(auto, unfolding(crate::specs::Chunks::begun))]
pub fn begin(window: &[u8], total: usize) -> Result<Walk, Refusal>
    requires { min 12 total ≤ length window.now }
    ensures { result ≡ begun window.now total }
{
    head(window, total)?;
    Ok(Walk::Chunk { at: 12, rate: None })
}

// The walk at a chunk of samples, where the format before it had this rate.
#[tactic(auto, unfolding(crate::specs::Chunks::at_data))]
fn at_data(chunk: View<24>, rate: Option<u32>) -> Result<Walk, Refusal>
    ensures { let view = chunk.entry in result ≡ at_data view.window.now view.at rate view.total }
{
    let Some(rate) = rate else {
        return Err(Refusal::Wav(chunk.at));
    };
    let count = data(chunk)?;
    Ok(Walk::End(Samples {
        at: chunk.at + 8,
        rate,
        count,
    }))
}

// The walk after the first format.
#[tactic(auto, unfolding(crate::specs::Chunks::at_format))]
fn first_format(chunk: View<24>) -> Result<Walk, Refusal>
    ensures { let view = chunk.entry in result ≡ at_format view.window.now view.at view.total }
{
    let rate = format(chunk)?;
    Ok(Walk::Chunk {
        at: chunk.at + 24,
        rate: Some(rate),
    })
}

// The walk after a chunk that is skipped, with its pad byte.
#[tactic(auto, unfolding(crate::specs::Chunks::at_other))]
fn skip(chunk: View<24>, rate: Option<u32>) -> Result<Walk, Refusal>
    ensures { let view = chunk.entry in result ≡ at_other view.window.now view.at rate view.total }
{
    let size = other(chunk)?;
    Ok(Walk::Chunk {
        at: chunk.at + 8 + (size + size % 2),
        rate,
    })
}

// The walk after a chunk, where the format before it had this rate.
#[tactic(auto, unfolding(crate::specs::Chunks::stepped))]
pub fn step(chunk: View<24>, rate: Option<u32>) -> Result<Walk, Refusal>
    ensures { let view = chunk.entry in result ≡ stepped view.window.now view.at rate view.total }
{
    let id = chunk.four(0)?;
    if id == four(b"data", 0) {
        return at_data(chunk, rate);
    }
    if id == four(b"fmt ", 0) && rate.is_none() {
        return first_format(chunk);
    }
    skip(chunk, rate)
}

// The samples of a whole file. A loop and no `for`: each chunk says where the next begins.
pub fn walk_over(file: &[u8]) -> Result<Samples, Refusal>
    ensures { result ≡ walk_of file.now }
{
    let total = file.len();
    let mut walk = begin(file, total)?;
    loop {
        match walk {
            Walk::Chunk { at, rate } => {
                let chunk = View {
                    window: &file[at..],
                    at,
                    total,
                };
                walk = step(chunk, rate)?;
            }
            Walk::End(samples) => return Ok(samples),
        }
    }
}
