//! The steps on further words.

ghost use Rattle.std.specs.Prelude.{ℕ};
ghost use Rattle.pool_law.specs.Whole.{Noted};
ghost use Rattle.pool_law.specs.Obligations.{Allowed};

use crate::law::Law;

/// Which of the law's steps on a further word a call makes, so that the caller knows which it was.
pub trait Turn<L: Law> {
    // The word i goes from m to n, and the seat has then this note.
    ghost turns: { Noted L.Note → ℕ → ℕ → ℕ → L.Note → Type 0 };

    // The law allows each such step.
    ghost allowed: { Allowed L.turns turns };
}

/// Any step that the law allows.
pub struct AnyTurn;

impl<L: Law> Turn<L> for AnyTurn {
    ghost turns = { L.turns };

    ghost allowed = { λ v i m n k t. t };
}
