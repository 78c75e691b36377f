// The verdict on a file's mark, and on a chunk with what it tells, by its fields in the order of the file.
ghost use Rattle.std.specs.Prelude.{◌≡◌, ◌+◌, ◌-◌, ◌/◌, ◌≤◌, min, length};
ghost use Rattle.refusal.specs.Refusal.{verdict, granted};
ghost use Rattle.little.specs.Numbers.{number_at};
ghost use Rattle.fields.specs.Fields.{head_rows, kind_rows, rate_rows, format_rows, data_rows, other_rows};

use crate::inner::view::View;
use little::inner::numbers::four;
use refusal::{Refusal, Verdict};

// The largest rate.
pub const FASTEST: usize = 192000;

// The verdict on the mark of a file of so many bytes.
pub fn head(window: &[u8], total: usize) -> Verdict
    requires { min 12 total ≤ length window.now }
    ensures { result ≡ verdict (head_rows window.now 0 total total) }
{
    let mark: View<12> = View {
        window,
        at: 0,
        total,
    };
    mark.four_is(0, four(b"RIFF", 0))?;
    mark.four_is(4, total.saturating_sub(8))?;
    mark.four_is(8, four(b"WAVE", 0))
}

// The verdict on the kind of a format.
fn kind(chunk: View<24>) -> Verdict
    ensures { let view = chunk.entry in result ≡ verdict (kind_rows view.window.now view.at (view.total - view.at) view.total) }
{
    chunk.four_is(4, 16)?;
    chunk.two_is(8, 1)?;
    chunk.two_is(10, 1)
}

// The rate of a format, and the verdict on it and on what follows from it.
fn rate(chunk: View<24>) -> Result<u32, Refusal>
    ensures { let view = chunk.entry in result ≡ granted (verdict (rate_rows view.window.now view.at (view.total - view.at) view.total))
        (number_at 4 view.window.now 12) }
{
    let rate = chunk.four(12)?;
    if rate == 0 || rate > FASTEST {
        return Err(Refusal::Wav(chunk.at + 12));
    }
    chunk.four_is(16, 2 * rate)?;
    chunk.two_is(20, 2)?;
    chunk.two_is(22, 16)?;
    Ok(rate as u32)
}

// The rate of a format, and the verdict on it.
pub fn format(chunk: View<24>) -> Result<u32, Refusal>
    ensures { let view = chunk.entry in result ≡ granted (verdict (format_rows view.window.now view.at (view.total - view.at) view.total))
        (number_at 4 view.window.now 12) }
{
    kind(chunk)?;
    rate(chunk)
}

// How many samples a chunk of samples holds, and the verdict on it.
pub fn data(chunk: View<24>) -> Result<usize, Refusal>
    ensures { let view = chunk.entry in result ≡ granted (verdict (data_rows view.window.now view.at (view.total - view.at) view.total))
        (number_at 4 view.window.now 4 / 2) }
{
    let size = chunk.four(4)?;
    if size % 2 != 0 {
        return Err(Refusal::Wav(chunk.at + 4));
    }
    chunk.has(8 + size)?;
    Ok(size / 2)
}

// The size of any other chunk, less its pad byte, and the verdict on it.
pub fn other(chunk: View<24>) -> Result<usize, Refusal>
    ensures { let view = chunk.entry in result ≡ granted (verdict (other_rows view.window.now view.at (view.total - view.at) view.total))
        (number_at 4 view.window.now 4) }
{
    let size = chunk.four(4)?;
    chunk.has(8 + size + size % 2)?;
    Ok(size)
}
