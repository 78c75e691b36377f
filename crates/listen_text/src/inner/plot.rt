// The rows of the plot.
ghost use Rattle.std.specs.Prelude.{◌≡◌, ◌≤◌};
ghost use Rattle.text.specs.Growing.{Holds};
ghost use Rattle.listen_text.specs.Lines.{bar_of, sign_of, row_line};

use crate::inner::lines::push_level;
use text::Text;

// How many signs a level's bar has.
fn bar_of(level: usize) -> usize
    ensures { (result ≡ bar_of level) × (result ≤ 60) }
{
    if level < 15100 {
        return 0;
    }
    if level > 16000 {
        return 60;
    }
    (level - 15100) / 15
}

// The sign of bars.
fn sign_of(inside: bool) -> u8
    ensures { result ≡ sign_of inside }
{
    if inside { b'#' } else { b'-' }
}

// The row of a frequency.
pub fn row_line(hertz: usize, level: usize, inside: bool) -> Text
    ensures { Holds (row_line hertz level inside) result }
{
    let mut text = Text::new();
    text.push_right(hertz, 7);
    text.extend_from_slice(b" Hz ");
    push_level(&mut text, level);
    text.extend_from_slice(b" |");
    text.push_times(sign_of(inside), bar_of(level));
    text.push(b'\n');
    text
}
