// Which moduli, bases, lengths and remainders are taken.
ghost use Rattle.std.specs.Prelude.{◌≡◌, length};
ghost use Rattle.sequences.specs.Found.{Found};
ghost use Rattle.remainder.specs.Calls.{first_large, lent_verdict};

use powers::inner::power::power;
use refusal::{Refusal, Verdict};

// The index of the first number not below m.
fn first_large(list: &[u32], m: u32) -> Option<usize>
    ensures { Found (length list.now) (first_large m list.now) result }
{
    list.iter().position(|&x| x >= m)
}

// Refusals 11, 12, 8 and 13, in this order, of what is lent to a plan with that half.
pub fn lent(half: usize, m: u32, w: u32, input: &[u32], room: usize) -> Verdict
    ensures { result ≡ lent_verdict half m w input.now room }
{
    if m < 2 {
        return Err(Refusal::Modulus);
    }
    if w >= m {
        return Err(Refusal::Base);
    }
    if power(w as u64, half as u64, m as u64) != 1 {
        return Err(Refusal::Base);
    }
    if input.len() != half {
        return Err(Refusal::Length(0));
    }
    if room != half {
        return Err(Refusal::Length(2));
    }
    if let Some(large) = first_large(input, m) {
        return Err(Refusal::Remainder(large));
    }
    Ok(())
}
