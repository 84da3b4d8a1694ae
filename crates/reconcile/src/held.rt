//! What a leaf holds of a key, lent version by version, newest first.

ghost use Rattle.std.specs.Prelude.{◌≡◌, ◌++◌, [], ◌∷◌, List, option_map, filter, IfNone};
ghost use Rattle.std.specs.Option.{option_to_list};
ghost use Rattle.row_page.specs.Changes.{change_seen};
ghost use Rattle.row_page.specs.Rows.{Row};
ghost use Rattle.row_page.specs.Views.{row_seen};
ghost use Rattle.reconcile.specs.Cells.{cell_change, cell_version};
ghost use Rattle.reconcile.specs.Held.{lives};
ghost use Rattle.reconcile.specs.Making.{left, updates_left};
ghost use Rattle.reconcile.specs.Merged.{chain_rows};

use crate::live::{Rule, is_live};
use item::Change;
use leaf_chains::KeyChain;
use row_page::{Cell, CellChange};
use stamp::Version;

// The versions of a key that are left: the updates of its chain from a place on, then its row.
#[derive(Drop)]
pub(crate) struct Held<'a> {
    pub there: Option<&'a KeyChain>,
    pub place: usize,
    pub cell: Option<Cell<'a>>,
}

impl<'a> Held<'a> {
    // Those of a key that has a row alone.
    pub(crate) fn of_row(cell: Cell<'a>) -> Held<'a>
        ensures { left result ≡ row_seen cell.entry ∷ [] }
    {
        Held {
            there: None,
            place: 0,
            cell: Some(cell),
        }
    }

    // Those of a key that has a chain alone.
    pub(crate) fn of_chain(there: &'a KeyChain) -> Held<'a>
        ensures { left result ≡ chain_rows there.now.key there.now.chain }
    {
        Held {
            there: Some(there),
            place: 0,
            cell: None,
        }
    }

    // Those of a key that has both.
    pub(crate) fn of_both(there: &'a KeyChain, cell: Cell<'a>) -> Held<'a>
        ensures { left result ≡ chain_rows there.now.key there.now.chain ++ row_seen cell.entry ∷ [] }
    {
        Held {
            there: Some(there),
            place: 0,
            cell: Some(cell),
        }
    }

    // The next update of the chain. `O(1)`.
    #[inline(always)]
    fn next_update(&mut self) -> Option<Cell<'a>>
        ensures after { updates_left self.old.there self.old.place ≡ option_to_list (option_map row_seen result) ++ updates_left self.new.there self.new.place }
        ensures cell { self.new.cell ≡ self.old.cell }
        ensures ends { IfNone result (updates_left self.new.there self.new.place ≡ []) }
    {
        let there = self.there?;
        if self.place >= there.chain.len() {
            return None;
        }
        let update = there.chain.get(self.place)?;
        self.place += 1;
        Some(cell_of(there, &update.version))
    }

    // The next version. `O(1)`.
    #[inline(always)]
    fn next_version(&mut self) -> Option<Cell<'a>>
        ensures after { left self.old ≡ option_to_list (option_map row_seen result) ++ left self.new }
        ensures ends { IfNone result (left self.new ≡ []) }
    {
        if let Some(cell) = self.next_update() {
            return Some(cell);
        }
        self.cell.take()
    }

    // The next version that is live. `O(k)` with k versions that are not.
    #[inline(always)]
    pub(crate) fn next_live(&mut self, rule: &Rule<'_>) -> Option<Cell<'a>>
        ensures after { filter (λ (r : Row). lives rule.now.live r.1.window) (left self.old) ≡ option_to_list (option_map row_seen result) ++ filter (λ (r : Row). lives rule.now.live r.1.window) (left self.new) }
        ensures ends { IfNone result (left self.new ≡ []) }
    {
        while let Some(cell) = self.next_version() {
            if is_live(rule, &cell.window) {
                return Some(cell);
            }
        }
        None
    }
}

// The row of a key's version, lent.
#[inline(always)]
fn cell_of<'a>(there: &'a KeyChain, version: &'a Version<Change>) -> Cell<'a>
    ensures { row_seen result ≡ (there.now.key, cell_version version.now) }
{
    Cell {
        key: there.key.as_bytes(),
        window: version.window,
        change: change_of(&version.change),
    }
}

#[inline(always)]
fn change_of(change: &Change) -> CellChange<&[u8]>
    ensures { change_seen result ≡ cell_change change.now }
{
    match change {
        Change::Put(value) => CellChange::Put(value.as_bytes()),
        Change::Remove => CellChange::Remove,
    }
}
