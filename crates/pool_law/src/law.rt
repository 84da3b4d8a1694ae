//! The law of a table.

ghost use Rattle.std.specs.Prelude.{ℕ};
ghost use Rattle.pool_law.specs.declared.part.Part.{Part};
ghost use Rattle.pool_law.specs.declared.shape.Shape.{Shape};
ghost use Rattle.pool_law.specs.Whole.{Noted, Whole};
ghost use Rattle.pool_law.specs.Obligations.{FindHolds, LatchKeeps, PutKeeps, TurnKeeps};

use crate::part::Part;
use crate::shape::Shape;

/// The law of a hub, of frames, of further words, and of what each seat knows, its note.
/// A piece that a seat holds counts as it was when the seat took it. The piece 0 is the hub, the
/// piece f + 1 the frame f.
pub trait Law {
    type Hub: Drop;

    type Frame: Drop;

    type Note;

    // What holds between any two steps.
    ghost joint: { Whole Self.Hub Self.Frame Self.Note → Type 0 };

    // The note that the seat of this number begins with.
    ghost start: { Shape → ℕ → Self.Note };

    // A seat that knows this may take the piece k.
    ghost may_latch: { Noted Self.Note → ℕ → Type 0 };

    // What a seat learns that takes the piece k as x: its note then.
    ghost told: { Noted Self.Note → ℕ → Part Self.Hub Self.Frame → Self.Note → Type 0 };

    // A seat may put the piece k, which it took as x, back as y, and has then this note.
    ghost puts: { Noted Self.Note → ℕ → Part Self.Hub Self.Frame → Part Self.Hub Self.Frame
        → Self.Note → Type 0 };

    // A seat that knows this may find the further word i to be m.
    ghost finds: { Noted Self.Note → ℕ → ℕ → Type 0 };

    // A seat may turn the further word i from m to n, and has then this note.
    ghost turns: { Noted Self.Note → ℕ → ℕ → ℕ → Self.Note → Type 0 };

    // The lemmas: each of these steps keeps what holds.
    ghost latch_keeps: { LatchKeeps joint may_latch told };

    ghost put_keeps: { PutKeeps joint puts };

    ghost find_holds: { FindHolds joint finds };

    ghost turn_keeps: { TurnKeeps joint turns };
}
