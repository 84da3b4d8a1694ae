// What holds of a device that is damaged.
ghost use Rattle.std.specs.Prelude.{ℕ, List};
ghost use Rattle.kv_model.specs.Content.{Content};
ghost use Rattle.stored.specs.Stored.{Reads};
ghost use Rattle.recover_open.specs.Damage.{IsDamage};
ghost use Rattle.recover_open.specs.Wholes.{IsWholeDamage};

/// A device that is damaged where a recovery looks reads as no content.
pub fn a_damaged_device_reads_as_nothing()
    ensures { (bytes : List ℕ) (at want found : ℕ) (content : Content) → IsDamage bytes at want found → Reads bytes content → ⊥ }
{}

/// The same, where its history is looked at too.
pub fn a_device_with_damage_reads_as_nothing()
    ensures { (bytes : List ℕ) (at want found : ℕ) (content : Content) → IsWholeDamage bytes at want found → Reads bytes content → ⊥ }
{}
