//! From a page and chains to images and moved versions.

ghost use Rattle.std.specs.Prelude.{◌≡◌, ◌++◌, ℕ, List, [], ◌∷◌, drop, map, filter, IfOk, OnOk};
ghost use Rattle.std.specs.List.{AllByRecursion};
ghost use Rattle.row_page.specs.Changes.{change_in, change_seen, version_in};
ghost use Rattle.row_page.specs.Rows.{Row, RowFits, key_most};
ghost use Rattle.row_page.specs.Views.{row_seen};
ghost use Rattle.kv_model.specs.History.{down_to};
ghost use Rattle.leaf_rows.specs.Rows.{AreFit};
ghost use Rattle.leaf_chains.specs.declared.slot.KeyChain.{KeyChain};
ghost use Rattle.reconcile.specs.Capture.{ChainFits, ChainsFit};
ghost use Rattle.reconcile.specs.Held.{IsReconciled, held_at, is_live, is_past, lives, moved_of, page_rows, passes};
ghost use Rattle.reconcile.specs.Images.{AreImages};
ghost use Rattle.reconcile.specs.Making.{HasMade, MadeTo, left};
ghost use Rattle.reconcile.specs.Merged.{all_kept, merged, moved_row};
ghost use Rattle.reconcile.specs.Moving.{InKeyOrder, versions_in};

use crate::held::Held;
use crate::image::{Made, Moved};
use crate::images::Images;
use crate::live::{Live, Rule, is_past};
use crate::page::row_at;
use byte_order::order;
use failure::NoMemory;
use item::{Change, Item};
use leaf_chains::{KeyChain, LeafChains};
use row_page::{Cell, CellChange, Leaf};
use stamp::{Name, Version};
use std::alloc::Global;
use std::cmp::Ordering;

// What is made so far.
#[derive(Drop)]
pub(crate) struct Making {
    pub images: Images,
    pub moved: Vec<Moved>,
}

/// What an eviction or a checkpoint makes of a leaf: its page, where it has one, under its chains.
/// The images have of each key the newest live version, a removal too; a key of which no version is
/// live is left out. The live versions behind the newest move, down to the first one that is durable
/// at the pin and of a name below the floor. The error is want of memory. `O(rows + updates +
/// bytes)`: one walk along the page and the keys of the chains, with one comparison a step. Each
/// row that is written is copied once, into its block, and each version that moves once.
pub fn reconcile(
    alloc: Global,
    page: Option<&Leaf>,
    chains: &LeafChains,
    live: Live<'_>,
    pin: u64,
    floor: Name,
) -> Result<Made, NoMemory>
    requires page { AreFit (page_rows page) }
    requires fit { ChainsFit chains.now }
    ensures images { IfOk result (λ made. (rows : List Row) × IsReconciled (is_live live.entry) (page_rows page.entry) chains.now rows × AreImages made.images.items rows) }
    ensures moved { IfOk result (λ made. (key : List ℕ) → versions_in key made.moved.items ≡ moved_of (is_live live.entry) (is_past pin floor) (held_at key (page_rows page.entry) chains.now)) }
    ensures ordered { IfOk result (λ made. InKeyOrder made.moved.items) }
{
    let rule = Rule { live, pin, floor };
    let mut making = Making {
        images: Images::new(alloc),
        moved: Vec::new(alloc),
    };
    let mut at = 0;
    let mut walk = chains.walk_above(None);
    while let Some(slot) = walk.next_entry() {
        if let Some(there) = chains.slot(slot) {
            at = make_key(&mut making, alloc, page, at, there, &rule)?;
        }
    }
    make_rest(&mut making, alloc, page, at, &rule)?;
    Ok(Made {
        images: making.images.finish()?,
        moved: making.moved,
    })
}

// Makes what is to be made of the rows of a page from a place on, as far as they are below a key or
// at it, and of the key. Gives the place behind them.
fn make_key(
    making: &mut Making,
    alloc: Global,
    page: Option<&Leaf>,
    from: usize,
    there: &KeyChain,
    rule: &Rule<'_>,
) -> Result<usize, NoMemory>
    requires page { AreFit (page_rows page) }
    requires fit { ChainFits there.now.key there.now.chain }
    ensures { IfOk result (λ at. (chains : List KeyChain) (all : List (List Row)) → AreFit (all_kept rule.now.live all) → MadeTo rule.now making.old (merged (there.now ∷ chains) (drop from (page_rows page.entry))) all → MadeTo rule.now making.new (merged chains (drop at (page_rows page.entry))) all) }
{
    let mut at = from;
    while let Some(cell) = row_at(page, at) {
        match order(cell.key, there.key.as_bytes()) {
            Ordering::Less => {
                make(making, alloc, Held::of_row(cell), rule)?;
                at += 1;
            }
            Ordering::Equal => {
                make(making, alloc, Held::of_both(there, cell), rule)?;
                return Ok(at + 1);
            }
            Ordering::Greater => {
                make(making, alloc, Held::of_chain(there), rule)?;
                return Ok(at);
            }
        }
    }
    make(making, alloc, Held::of_chain(there), rule)?;
    Ok(at)
}

// Makes what is to be made of the rows of a page from a place on.
fn make_rest(
    making: &mut Making,
    alloc: Global,
    page: Option<&Leaf>,
    from: usize,
    rule: &Rule<'_>,
) -> Result<(), NoMemory>
    requires page { AreFit (page_rows page) }
    ensures { OnOk result ((all : List (List Row)) → AreFit (all_kept rule.now.live all) → MadeTo rule.now making.old (merged [] (drop from (page_rows page.entry))) all → MadeTo rule.now making.new [] all) }
{
    let mut at = from;
    while let Some(cell) = row_at(page, at) {
        make(making, alloc, Held::of_row(cell), rule)?;
        at += 1;
    }
    Ok(())
}

// Makes of a key its row, and what moves of it.
fn make(
    making: &mut Making,
    alloc: Global,
    mut held: Held<'_>,
    rule: &Rule<'_>,
) -> Result<(), NoMemory>
    requires { AllByRecursion (λ (r : Row). RowFits [] key_most r) (left held) }
    ensures { OnOk result ((rest all : List (List Row)) → AreFit (all_kept rule.now.live all) → MadeTo rule.now making.old (left held.entry ∷ rest) all → MadeTo rule.now making.new rest all) }
{
    let Some(newest) = held.next_live(rule) else {
        return Ok(());
    };
    making.images.push(alloc, &newest)?;
    if is_past(rule, &newest.window) {
        return Ok(());
    }
    move_rest(&mut making.moved, alloc, held, rule)
}

// Moves what is live of the versions that are left, down to the first one that is past.
fn move_rest(
    moved: &mut Vec<Moved>,
    alloc: Global,
    mut held: Held<'_>,
    rule: &Rule<'_>,
) -> Result<(), NoMemory>
    ensures { OnOk result (moved.new.items ≡ moved.old.items ++ map moved_row (down_to (λ (r : Row). passes rule.now.pin rule.now.floor r.1.window) (filter (λ (r : Row). lives rule.now.live r.1.window) (left held.entry)))) }
{
    while let Some(cell) = held.next_live(rule) {
        moved.reserve(1)?;
        moved.push_reserved(moved_of(alloc, &cell)?);
        if is_past(rule, &cell.window) {
            return Ok(());
        }
    }
    Ok(())
}

// The version that moves, of a row. Its bytes are copied once.
fn moved_of(alloc: Global, cell: &Cell<'_>) -> Result<Moved, NoMemory>
    ensures { IfOk result (λ m. m ≡ moved_row (row_seen cell.now)) }
{
    Ok(Moved {
        key: Item::new(Vec::from_slice(alloc, cell.key)?),
        version: version_of(alloc, cell)?,
    })
}

/// The version of a row, owned. Its bytes are copied once.
pub fn version_of(alloc: Global, cell: &Cell<'_>) -> Result<Version<Change>, NoMemory>
    ensures { IfOk result (λ v. v ≡ version_in (row_seen cell.now).1) }
{
    Ok(Version {
        window: cell.window,
        change: change_of(alloc, &cell.change)?,
    })
}

fn change_of(alloc: Global, change: &CellChange<&[u8]>) -> Result<Change, NoMemory>
    ensures { IfOk result (λ c. c ≡ change_in (change_seen change.now)) }
{
    match change {
        CellChange::Put(value) => Ok(Change::Put(Item::new(Vec::from_slice(alloc, value)?))),
        CellChange::Remove => Ok(Change::Remove),
    }
}
