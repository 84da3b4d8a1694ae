// Entries of a level, and what they lead to.
ghost use Rattle.std.specs.Prelude.{◌≡◌, ◌++◌, map, IfOk};
ghost use Rattle.stored.specs.Links.{nowhere as nowhere_link};
ghost use Rattle.stored.specs.HistoryTree.{HistoryEntry as StoredEntry};
ghost use Rattle.hist_write.specs.Steps.{top_link};

use device_layout::{Addr, Link};
use failure::NoMemory;
use inner_page::HistoryEntry;
use stamp::Name;
use std::alloc::Global;

// What leads to a history without records, which is not stored.
pub(crate) fn nowhere() -> Link
    ensures { result ≡ nowhere_link }
{
    Link {
        addr: Addr {
            offset: 0,
            size: 0,
            sum: 0,
        },
        greatest: Name { run: 0, id: 0 },
        durable: 0,
    }
}

// The link of the first entry, which leads nowhere where there is none.
pub(crate) fn top_link(entries: &[HistoryEntry]) -> Link
    ensures { result ≡ top_link entries.now }
{
    match entries.first() {
        Some(entry) => entry.link,
        None => nowhere(),
    }
}

// The addresses that entries lead to, and then these.
pub(crate) fn put_addrs(
    alloc: Global,
    entries: &[HistoryEntry],
    addrs: &[Addr],
) -> Result<Vec<Addr>, NoMemory>
    ensures { IfOk result (λ v. v.items ≡ map {A = StoredEntry} (λ e. e.link.addr) entries.now ++ addrs.now) }
{
    let mut all = Vec::with_capacity(alloc, entries.len())?;
    for entry in entries {
        all.push_reserved(entry.link.addr);
    }
    all.extend_from_slice(addrs)?;
    Ok(all)
}
