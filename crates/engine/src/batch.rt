// Rows that are read together, in buffers that are used again.

ghost use Rattle.std.specs.Prelude.{◌≡◌, ◌≤◌, ◌+◌, ◌∷◌, ◌++◌, ℕ, List, [], length, option_map, slice_get, slice_range, vec_capacity, vec_len, OnErr, OnOk};
ghost use Rattle.engine.specs.Batches.{EndsIn, lent_row};

use failure::NoMemory;
use leaf_frame::LeafPlace;
use std::alloc::Global;
use std::marker::Model;

/// A row of a batch, lent.
#[derive(Clone, Copy)]
pub struct LentRow<'a> {
    /// The key.
    pub key: &'a [u8],
    /// The value.
    pub value: &'a [u8],
}

// Where a row lies among the bytes of a batch: its key up to its value, and that up to the end.
#[derive(Clone, Copy)]
pub(crate) struct Bounds {
    pub key: usize,
    pub value: usize,
    pub end: usize,
}

/// Rows that are read together, in buffers that are used again.
#[derive(Drop)]
pub struct RowBatch {
    bytes: Vec<u8>,
    bounds: Vec<Bounds>,
    // Where the last row stood in its leaf, when it was read: a hint for the next read.
    hint: LeafPlace,
}

impl Model for RowBatch {
    ghost use Rattle.std.specs.Prelude.{ℕ, List, length};
    ghost use Rattle.engine.specs.Batches.{LieIn, rows_in};

    ghost Value = { List (List ℕ × List ℕ) };

    ghost view = { λ b. rows_in b.bytes.items b.bounds.items };

    ghost invariant = { λ b. LieIn (length b.bytes.items) b.bounds.items };
}

impl RowBatch {
    /// No rows. Takes no memory.
    pub fn new(alloc: Global) -> RowBatch
        ensures { result ≡ [] }
    {
        RowBatch {
            bytes: Vec::new(alloc),
            bounds: Vec::new(alloc),
            hint: LeafPlace::nowhere(),
        }
    }

    // Where the row may stand in its leaf behind which the next one is read.
    pub(crate) fn hint(&self) -> LeafPlace {
        self.hint
    }

    // Keeps where the last row stands.
    pub(crate) fn keep_hint(&mut self, hint: LeafPlace)
        ensures { self.new ≡ self.old }
    {
        self.hint = hint;
    }

    /// How many rows it has.
    pub fn len(&self) -> usize
        ensures { result ≡ length self.now }
    {
        self.bounds.len()
    }

    /// Has no rows from now on; the buffers stay.
    #[inline(always)]
    pub fn clear(&mut self)
        ensures { self.new ≡ [] }
    {
        self.bounds.clear();
        self.bytes.clear();
    }

    /// The row at a place, from 0 on. `O(1)`.
    #[inline(always)]
    pub fn row(&self, at: usize) -> Option<LentRow<'_>>
        ensures { option_map lent_row result ≡ slice_get self.now at }
    {
        let bounds = self.bounds.get(at)?;
        Some(row_at(self.bytes.as_slice(), *bounds))
    }

    /// The last row. `O(1)`.
    #[inline(always)]
    pub fn last(&self) -> Option<LentRow<'_>>
        ensures { EndsIn self.now (option_map lent_row result) }
    {
        let count = self.len();
        if count == 0 {
            return None;
        }
        self.row(count - 1)
    }

    /// Copies a row behind the others. Where memory is short, nothing is changed.
    #[inline(always)]
    pub fn push(&mut self, key: &[u8], value: &[u8]) -> Result<(), NoMemory>
        ensures pushed { OnOk result (self.new ≡ self.old ++ (key.now, value.now) ∷ []) }
        ensures kept { OnErr result (self.new ≡ self.old) }
    {
        let start = self.bytes.len();
        self.bounds.reserve(1)?;
        append_both(&mut self.bytes, key, value)?;
        self.bounds.push_reserved(Bounds {
            key: start,
            value: start + key.len(),
            end: self.bytes.len(),
        });
        Ok(())
    }
}

// The row that lies there.
#[inline(always)]
fn row_at(bytes: &[u8], bounds: Bounds) -> LentRow<'_>
    requires key { bounds.key ≤ bounds.value }
    requires value { bounds.value ≤ bounds.end }
    requires end { bounds.end ≤ length bytes.now }
    ensures { lent_row result ≡ (slice_range bytes.now bounds.key bounds.value, slice_range bytes.now bounds.value bounds.end) }
{
    LentRow {
        key: &bytes[bounds.key..bounds.value],
        value: &bytes[bounds.value..bounds.end],
    }
}

// Both, one behind the other, behind the bytes. Where memory is short, nothing is changed.
#[inline(always)]
fn append_both(bytes: &mut Vec<u8>, key: &[u8], value: &[u8]) -> Result<(), NoMemory>
    ensures appended { OnOk result (bytes.new.items ≡ (bytes.old.items ++ key.now) ++ value.now) }
    ensures kept { OnErr result (bytes.new.items ≡ bytes.old.items) }
{
    let start = bytes.len();
    bytes.extend_from_slice(key)?;
    if let Err(_) = bytes.extend_from_slice(value) {
        bytes.truncate(start);
        return Err(NoMemory);
    }
    Ok(())
}
