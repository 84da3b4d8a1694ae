// Where a cursor stands, for whoever reads many rows of a leaf in one event.

ghost use Rattle.std.specs.Prelude.{◌≡◌, Some, length, option_map, OnErr, OnOk};
ghost use Rattle.call_steps.specs.Looks.{start_in};
ghost use Rattle.call_steps.specs.State.{changed_at, placed};

use crate::cursor::{Cursor, Position};
use crate::looks::start_of;
use crate::rows::item_of;
use crate::state::SessionState;
use failure::NoMemory;
use std::alloc::Global;

impl SessionState {
    /// How many cursors it has.
    pub fn cursors(&self) -> usize
        ensures { result ≡ length self.now.cursors }
    {
        self.cursors.len()
    }

    /// Where a cursor starts on a table: behind its row, if it has one there. `O(1)`.
    pub fn start_on(&self, cursor: u32, table: u32) -> Option<&[u8]>
        ensures { option_map (λ k. k.now) result ≡ start_in self.now.cursors cursor table }
    {
        start_of(self.cursors.as_slice(), cursor, table)
    }

    /// A cursor stands at this key from now on, and keeps its hazard word. Where memory is short,
    /// nothing is changed. The key is copied over that of the row where it stood, which takes memory
    /// only where there is no room for it.
    pub fn stand_at(
        &mut self,
        alloc: Global,
        cursor: u32,
        table: u32,
        key: &[u8],
    ) -> Result<(), NoMemory>
        ensures stands { OnOk result (self.new ≡ record self.old { cursors = changed_at self.old.cursors cursor (placed (Some (record { table = table; key = key.now }))) }) }
        ensures kept { OnErr result (self.new ≡ self.old) }
    {
        stand_among(alloc, self.cursors.as_mut_slice(), cursor, table, key)
    }
}

// The same of the cursors.
#[inline(always)]
fn stand_among(
    alloc: Global,
    cursors: &mut [Cursor],
    cursor: u32,
    table: u32,
    key: &[u8],
) -> Result<(), NoMemory>
    ensures stands { OnOk result (cursors.new ≡ changed_at cursors.old cursor (placed (Some (record { table = table; key = key.now })))) }
    ensures kept { OnErr result (cursors.new ≡ cursors.old) }
{
    let at = cursor as usize;
    if at < cursors.len() {
        stand(alloc, &mut cursors[at].position, table, key)?;
    }
    Ok(())
}

// Stands at this key. Where memory is short, nothing is changed.
#[inline(always)]
fn stand(
    alloc: Global,
    position: &mut Option<Position>,
    table: u32,
    key: &[u8],
) -> Result<(), NoMemory>
    ensures stands { OnOk result (position.new ≡ Some (record { table = table; key = key.now })) }
    ensures kept { OnErr result (position.new ≡ position.old) }
{
    match position {
        Some(there) => {
            there.key.set(key)?;
            there.table = table;
        }
        None => {
            let key = item_of(alloc, key)?;
            *position = Some(Position { table, key });
        }
    }
    Ok(())
}
