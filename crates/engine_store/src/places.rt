//! Where the trees of a checkpoint stand that was surveyed.

ghost use Rattle.std.specs.Prelude.{◌≡◌, ◌++◌, ◌∷◌, [], length, map, IfOk, OnOk};
ghost use Rattle.stored.specs.TableTree.{Entry as StoredEntry};
ghost use Rattle.tree_open.specs.Trees.{leaf_addr, leaf_addrs};
ghost use Rattle.engine_store.specs.Places.{AreOver, IsOver};

use checkpoint_record::{Root, TableRoot};
use device_layout::{Addr, Link};
use failure::NoMemory;
use inner_page::Entry;
use std::alloc::Global;
use tree_open::{TreePlace, Upper};

/// Where the tree of each table stands, in their order: its root, its leaves, and its blocks. The
/// error is want of memory. `O(n)` in the blocks.
pub(crate) fn trees_over(
    alloc: Global,
    tables: &[TableRoot],
    uppers: &[Upper],
) -> Result<Vec<TreePlace>, NoMemory>
    requires { length uppers.now ≡ length tables.now }
    ensures { IfOk result (λ v. AreOver v.items tables.now uppers.now) }
{
    let mut trees = Vec::new(alloc);
    for place in 0..tables.len() {
        let tree = tree_over(alloc, root_of(&tables[place]), &uppers[place])?;
        put(&mut trees, tree)?;
    }
    Ok(trees)
}

fn put(trees: &mut Vec<TreePlace>, tree: TreePlace) -> Result<(), NoMemory>
    ensures { OnOk result (trees.new.items ≡ trees.old.items ++ tree ∷ []) }
{
    match trees.push(tree) {
        Ok(()) => Ok(()),
        Err(_) => Err(NoMemory),
    }
}

// Where a tree stands of this root, with this above its leaves.
fn tree_over(alloc: Global, root: Root, upper: &Upper) -> Result<TreePlace, NoMemory>
    ensures { IfOk result (λ p. IsOver p root upper.now) }
{
    let entries = entries_of(upper);
    let leaves = links_of(alloc, entries)?;
    let mut addrs = Vec::from_slice(alloc, pages_of(upper))?;
    push_leaves(&mut addrs, entries)?;
    Ok(TreePlace {
        root,
        leaves,
        addrs,
    })
}

fn links_of(alloc: Global, entries: &[Entry]) -> Result<Vec<Link>, NoMemory>
    ensures { IfOk result (λ v. v.items ≡ map {A = StoredEntry} (λ e. e.link) entries.now) }
{
    Ok(entries.iter().map(|entry| entry.link).collect(alloc)?)
}

fn root_of(table: &TableRoot) -> Root
    ensures { result ≡ table.now.root }
{
    table.root
}

fn entries_of(upper: &Upper) -> &[Entry]
    ensures { result.now ≡ upper.now.entries.items }
{
    &upper.entries
}

fn pages_of(upper: &Upper) -> &[Addr]
    ensures { result.now ≡ upper.now.addrs.items }
{
    &upper.addrs
}

// Puts behind others where each leaf stands that stands somewhere.
fn push_leaves(addrs: &mut Vec<Addr>, entries: &[Entry]) -> Result<(), NoMemory>
    ensures { OnOk result (addrs.new.items ≡ addrs.old.items ++ leaf_addrs entries.now) }
{
    for entry in entries {
        push_leaf(addrs, entry.link.addr)?;
    }
    Ok(())
}

fn push_leaf(addrs: &mut Vec<Addr>, addr: Addr) -> Result<(), NoMemory>
    ensures { OnOk result (addrs.new.items ≡ addrs.old.items ++ leaf_addr addr) }
{
    if addr.offset == 0 {
        Ok(())
    } else {
        push(addrs, addr)
    }
}

fn push(addrs: &mut Vec<Addr>, addr: Addr) -> Result<(), NoMemory>
    ensures { OnOk result (addrs.new.items ≡ addrs.old.items ++ addr ∷ []) }
{
    match addrs.push(addr) {
        Ok(()) => Ok(()),
        Err(_) => Err(NoMemory),
    }
}
