// Where the blocks of a tree stand.
ghost use Rattle.std.specs.Prelude.{◌≡◌, ◌++◌, [], ◌∷◌, map, IfOk, OnOk};
ghost use Rattle.stored.specs.TableTree.{Entry as StoredEntry};
ghost use Rattle.tree_open.specs.Trees.{leaf_addr, leaf_addrs};

use checkpoint_record::Root;
use device_layout::{Addr, Link};
use failure::NoMemory;
use inner_page::Entry;
use std::alloc::Global;

/// Where the tree of a table stands on a device.
#[derive(Drop)]
pub struct TreePlace {
    /// Its level, and what leads to its root: to its one leaf where the level is 0.
    pub root: Root,
    /// What leads to its leaves, in the order of their keys: one at least. A leaf without rows
    /// stands nowhere.
    pub leaves: Vec<Link>,
    /// Where its blocks stand: the inner pages, from the root down, and then the leaves that stand
    /// somewhere.
    pub addrs: Vec<Addr>,
}

/// What a tree has above its leaves.
#[derive(Drop)]
pub struct Upper {
    /// The entries of its leaves, in the order of their keys.
    pub entries: Vec<Entry>,
    /// Where its inner pages stand, from the root down.
    pub addrs: Vec<Addr>,
}

/// Where a tree stands of this root, which leads to these entries of its leaves. The error is want
/// of memory. `O(n)` in the blocks.
pub fn place_of(alloc: Global, root: Root, upper: Upper) -> Result<TreePlace, NoMemory>
    ensures root { IfOk result (λ p. p.root ≡ root) }
    ensures leaves { IfOk result (λ p. p.leaves.items ≡ map {A = StoredEntry} (λ e. e.link) upper.entries.items) }
    ensures addrs { IfOk result (λ p. p.addrs.items ≡ upper.addrs.items ++ leaf_addrs upper.entries.items) }
{
    let Upper { entries, addrs } = upper;
    let mut addrs = addrs;
    let leaves = links_of(alloc, &entries)?;
    append_leaves(&mut addrs, &entries)?;
    Ok(TreePlace {
        root,
        leaves,
        addrs,
    })
}

fn links_of(alloc: Global, entries: &[Entry]) -> Result<Vec<Link>, NoMemory>
    ensures { IfOk result (λ v. v.items ≡ map {A = StoredEntry} (λ e. e.link) entries.now) }
{
    Ok(entries.iter().map(|entry| entry.link).collect(alloc)?)
}

// Puts behind others where each leaf stands that stands somewhere.
fn append_leaves(addrs: &mut Vec<Addr>, entries: &[Entry]) -> Result<(), NoMemory>
    ensures { OnOk result (addrs.new.items ≡ addrs.old.items ++ leaf_addrs entries.now) }
{
    for entry in entries {
        push_leaf(addrs, entry.link.addr)?;
    }
    Ok(())
}

fn push_leaf(addrs: &mut Vec<Addr>, addr: Addr) -> Result<(), NoMemory>
    ensures { OnOk result (addrs.new.items ≡ addrs.old.items ++ leaf_addr addr) }
{
    if addr.offset == 0 {
        Ok(())
    } else {
        push(addrs, addr)
    }
}

// Puts behind others where the pages of these entries stand.
pub(crate) fn append_pages(addrs: &mut Vec<Addr>, entries: &[Entry]) -> Result<(), NoMemory>
    ensures { OnOk result (addrs.new.items ≡ addrs.old.items ++ map {A = StoredEntry} (λ e. e.link.addr) entries.now) }
{
    for entry in entries {
        push(addrs, entry.link.addr)?;
    }
    Ok(())
}

fn push(addrs: &mut Vec<Addr>, addr: Addr) -> Result<(), NoMemory>
    ensures { OnOk result (addrs.new.items ≡ addrs.old.items ++ addr ∷ []) }
{
    match addrs.push(addr) {
        Ok(()) => Ok(()),
        Err(_) => Err(NoMemory),
    }
}
