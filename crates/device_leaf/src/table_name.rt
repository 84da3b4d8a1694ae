// What a table may be called.
ghost use Rattle.std.specs.Prelude.{◌≡◌, ◌≤◌, ◌<◌, ℕ, length, slice_index_or, IsTrue};
ghost use Rattle.kv_model.specs.Decisions.{is_name};

use catalog::is_name;

/// Whether a table may have this name, which then has 128 bytes at most.
pub fn is_table_name(name: &[u8]) -> bool
    ensures is { result ≡ is_name name.now }
    ensures short { IsTrue result → length name.now ≤ 128 }
    ensures bytes { (i : ℕ) → slice_index_or name.now i 0 < 256 }
{
    is_name(name)
}
