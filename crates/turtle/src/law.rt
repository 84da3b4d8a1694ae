// What holds of slots, and of the choice.
ghost use Rattle.std.specs.Prelude.{◌≡◌, ◌↔◌, ◌≤◌, ◌∷◌, List, ℕ, Option, length};
ghost use Rattle.disk_model.specs.Ranges.{range};
ghost use Rattle.turtle.specs.Slots.{slot_image, IsSlot, HasSlot, Chooses, IsCorruptAt};

use crate::Slot;

/// A slot stands open at a place exactly where its 36 bytes stand there.
pub fn a_slot_is_its_bytes()
    ensures { (bytes : List ℕ) (at : ℕ) (slot : Slot) → HasSlot bytes at slot ↔ ((range bytes at 36 ≡ 165 ∷ slot_image slot) × IsSlot slot) }
{}

/// A device chooses one slot or none, never two; where it chooses, no slot is out of form.
pub fn one_slot_is_chosen()
    ensures one { (bytes : List ℕ) (a b : Option Slot) → Chooses bytes a → Chooses bytes b → a ≡ b }
    ensures in_form { (bytes : List ℕ) (slot : Option Slot) (at : ℕ) → 8192 ≤ length bytes → Chooses bytes slot → IsCorruptAt bytes at → ⊥ }
{}
