// A place of a file, seen through a window, and the fields behind it.
ghost use Rattle.std.specs.Prelude.{◌≡◌, ◌+◌, ◌-◌, ◌<◌, ◌≤◌, [], ◌∷◌, IfOk, ltb, min, length};
ghost use Rattle.refusal.specs.Refusal.{◌⇒◌, verdict, granted};
ghost use Rattle.refusal.specs.declared.Refusal.TheVariants.{Wav};
ghost use Rattle.little.specs.Numbers.{number_at};
ghost use Rattle.fields.specs.Fields.{field, is_not};

use little::inner::numbers::{four, two};
use refusal::{Refusal, Verdict};

// A place of a file of so many bytes; the window has the first SHOWN bytes from there on, or all to the file's end.
#[derive(Clone, Copy)]
pub struct View<'a, const SHOWN: usize> {
    pub window: &'a [u8],
    pub at: usize,
    pub total: usize,
    pub ghost inside: { at ≤ total },
    pub ghost shown: { min SHOWN (total - at) ≤ length window.now },
}

impl<const SHOWN: usize> View<'_, SHOWN> {
    // So many bytes are left of the file.
    pub fn has(self, bytes: usize) -> Verdict
        ensures { let view = self.entry in result ≡ verdict (ltb (view.total - view.at) bytes ⇒ Wav view.total ∷ []) }
    {
        if self.total - self.at < bytes {
            return Err(Refusal::Wav(self.total));
        }
        Ok(())
    }

    // The number of the four bytes that begin i bytes on.
    pub fn four(self, i: usize) -> Result<usize, Refusal>
        requires { i + 4 ≤ SHOWN }
        ensures value { let view = self.entry in result ≡ granted (verdict (ltb (view.total - view.at) (i + 4) ⇒ Wav view.total ∷ []))
            (number_at 4 view.window.now i) }
        ensures small { IfOk result (λ n. n < 4294967296) }
    {
        self.has(i + 4)?;
        Ok(four(self.window, i))
    }

    // They are this number.
    pub fn four_is(self, i: usize, wanted: usize) -> Verdict
        requires { i + 4 ≤ SHOWN }
        ensures { let view = self.entry in result ≡ verdict (field view.window.now view.at (view.total - view.at) view.total i 4
            (is_not (number_at 4 view.window.now i) wanted)) }
    {
        if self.four(i)? != wanted {
            return Err(Refusal::Wav(self.at + i));
        }
        Ok(())
    }

    // The two bytes that begin i bytes on are this number: a parameter for how many bytes would only choose between `two` and `four` again.
    pub fn two_is(self, i: usize, wanted: usize) -> Verdict
        requires { i + 2 ≤ SHOWN }
        ensures { let view = self.entry in result ≡ verdict (field view.window.now view.at (view.total - view.at) view.total i 2
            (is_not (number_at 2 view.window.now i) wanted)) }
    {
        self.has(i + 2)?;
        if two(self.window, i) != wanted {
            return Err(Refusal::Wav(self.at + i));
        }
        Ok(())
    }
}
