// Numbers and levels read from words.
ghost use Rattle.std.specs.Prelude.{◌≡◌, ◌<◌};
ghost use Rattle.listen_words.specs.Words.{number_of, level_of, tenths_of, joined_of, below_of, above_of};

// The number of a word of one to nine digits.
pub fn number_of(word: &[u8]) -> Option<usize>
    ensures { result ≡ number_of word.now }
{
    if word.is_empty() || word.len() > 9 {
        return None;
    }
    let mut value: usize = 0;
    for b in word {
        if !b.is_ascii_digit() {
            return None;
        }
        value = 10 * value + (*b - b'0') as usize;
    }
    Some(value)
}

// The level of a word that says decibels, with one decimal or none: 16,000 for 0, and tenths of a decibel more or fewer.
pub fn level_of(word: &[u8]) -> Option<usize>
    ensures { result ≡ level_of word.now }
{
    match word {
        [] => None,
        [b'-', rest @ ..] => below(tenths_of(rest)),
        _ => above(tenths_of(word)),
    }
}

// The tenths of a word of digits, of which the last may stand behind a point.
fn tenths_of(word: &[u8]) -> Option<usize>
    ensures { result ≡ tenths_of word.now }
{
    let n = word.len();
    if n < 3 || word[n - 2] != b'.' {
        return joined(number_of(word), Some(0));
    }
    joined(number_of(&word[..n - 2]), number_of(&word[n - 1..]))
}

// Whole ones and tenths together; none where one is none, or from 1,600 on.
fn joined(whole: Option<usize>, tenths: Option<usize>) -> Option<usize>
    ensures { result ≡ joined_of whole tenths }
{
    let whole = whole?;
    let tenths = tenths?;
    if whole > 1599 || tenths > 9 {
        return None;
    }
    Some(10 * whole + tenths)
}

// So many tenths below full scale.
fn below(tenths: Option<usize>) -> Option<usize>
    ensures { result ≡ below_of tenths }
{
    let tenths = tenths?;
    if tenths > 15999 {
        return None;
    }
    Some(16000 - tenths)
}

// So many tenths above it.
fn above(tenths: Option<usize>) -> Option<usize>
    ensures { result ≡ above_of tenths }
{
    let tenths = tenths?;
    if tenths > 15999 {
        return None;
    }
    Some(16000 + tenths)
}
