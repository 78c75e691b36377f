// Bytes and numbers written into a text of at most 256 bytes.
#![tactic(auto)]

pub mod inner;

use std::marker::Model;

// A text that grows at its end. No heap, so its bytes stand in an array, the unused ones 0.
#[derive(Clone, Copy)]
pub struct Text {
    bytes: [u8; 256],
    len: usize,
}

impl Model for Text {
    ghost use Rattle.std.specs.Prelude.{ℕ, ◌-◌, ◌≡◌, List, ◌++◌, length, replicate};
    ghost use Rattle.sequences.proofs.Basics.{sym, ap, ap₂, ◌∙◌, arith, length-take-le};

    ghost Value = { List ℕ };

    ghost use Rattle.text.specs.Inside.{used, IsText, held};

    ghost view = { used };

    ghost invariant = { IsText };

    ghost inverse = { λ xs. held (xs ++ replicate (256 - length xs) 0) (length xs) };

    ghost inverse_ok = { λ t i.
        let long : length (used t) ≡ t.len = length-take-le t.len t.bytes (omega (arith, i.room, i.long)) in
        ap₂ held (ap (λ (n : ℕ). used t ++ replicate (256 - n) 0) long ∙ sym i.clear) long };
}
