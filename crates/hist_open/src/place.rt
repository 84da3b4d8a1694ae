// Where the blocks of a history stand.
ghost use Rattle.std.specs.Prelude.{◌≡◌, ◌++◌, [], ◌∷◌, map, OnOk};
ghost use Rattle.stored.specs.HistoryTree.{HistoryEntry as StoredEntry};
ghost use Rattle.tree_open.specs.Trees.{leaf_addr};
ghost use Rattle.hist_open.specs.Leaves.{leaf_addrs};

use device_layout::Addr;
use failure::NoMemory;
use inner_page::HistoryEntry;

// Puts behind others where the pages of these entries stand.
pub(crate) fn append_pages(addrs: &mut Vec<Addr>, entries: &[HistoryEntry]) -> Result<(), NoMemory>
    ensures { OnOk result (addrs.new.items ≡ addrs.old.items ++ map {A = StoredEntry} (λ e. e.link.addr) entries.now) }
{
    for entry in entries {
        push(addrs, entry.link.addr)?;
    }
    Ok(())
}

// Puts behind others where each leaf stands that stands somewhere.
pub(crate) fn append_leaves(addrs: &mut Vec<Addr>, entries: &[HistoryEntry]) -> Result<(), NoMemory>
    ensures { OnOk result (addrs.new.items ≡ addrs.old.items ++ leaf_addrs entries.now) }
{
    for entry in entries {
        push_leaf(addrs, entry.link.addr)?;
    }
    Ok(())
}

fn push_leaf(addrs: &mut Vec<Addr>, addr: Addr) -> Result<(), NoMemory>
    ensures { OnOk result (addrs.new.items ≡ addrs.old.items ++ leaf_addr addr) }
{
    if addr.offset == 0 {
        Ok(())
    } else {
        push(addrs, addr)
    }
}

fn push(addrs: &mut Vec<Addr>, addr: Addr) -> Result<(), NoMemory>
    ensures { OnOk result (addrs.new.items ≡ addrs.old.items ++ addr ∷ []) }
{
    match addrs.push(addr) {
        Ok(()) => Ok(()),
        Err(_) => Err(NoMemory),
    }
}
