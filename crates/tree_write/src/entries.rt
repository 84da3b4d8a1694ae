// Entries of a level, and what they lead to.
ghost use Rattle.std.specs.Prelude.{◌≡◌, ◌++◌, [], map, slice_index_or, IfOk};
ghost use Rattle.stored.specs.Links.{LinkFits, nowhere as nowhere_link};
ghost use Rattle.stored.specs.TableTree.{Entry as StoredEntry};
ghost use Rattle.tree_write.specs.Drafts.{rooted};
ghost use Rattle.tree_write.specs.Steps.{top_link};

use device_layout::{Addr, Link};
use failure::NoMemory;
use inner_page::Entry;
use item::Item;
use stamp::Name;
use std::alloc::Global;

// What leads to a leaf without rows, which is not stored.
pub(crate) fn nowhere() -> Link
    ensures { result ≡ nowhere_link }
{
    Link {
        addr: Addr {
            offset: 0,
            size: 0,
            sum: 0,
        },
        greatest: Name { run: 0, id: 0 },
        durable: 0,
    }
}

/// The link to the page at an address, with the greatest name and durable stamp of its versions.
/// `O(1)`.
pub fn link_to(addr: Addr, greatest: Name, durable: u64) -> Link
    ensures link { result ≡ record { addr = addr; greatest = greatest; durable = durable } }
    ensures fits { LinkFits result }
{
    Link {
        addr,
        greatest,
        durable,
    }
}

// The link of a place, which leads nowhere where there is none.
pub(crate) fn link_at(links: &[Link], place: usize) -> Link
    ensures { result ≡ slice_index_or links.now place nowhere_link }
{
    match links.get(place) {
        Some(link) => *link,
        None => nowhere(),
    }
}

// The link of the first entry, which leads nowhere where there is none.
pub(crate) fn top_link(entries: &[Entry]) -> Link
    ensures { result ≡ top_link entries.now }
{
    match entries.first() {
        Some(entry) => entry.link,
        None => nowhere(),
    }
}

// The entries as those of a whole tree: a root has no key of its own, so the first gets the empty one.
pub(crate) fn rooted(alloc: Global, entries: Vec<Entry>) -> Vec<Entry>
    ensures { result.items ≡ rooted entries.items }
{
    let mut entries = entries;
    if !entries.is_empty() {
        clear_key(alloc, &mut entries[0]);
    }
    entries
}

fn clear_key(alloc: Global, entry: &mut Entry)
    ensures { entry.new ≡ record { key = []; link = entry.old.link } }
{
    entry.key = Item::new(Vec::new(alloc));
}

// The links of entries.
pub(crate) fn links_of(alloc: Global, entries: &[Entry]) -> Result<Vec<Link>, NoMemory>
    ensures { IfOk result (λ v. v.items ≡ map {A = StoredEntry} (λ e. e.link) entries.now) }
{
    let mut links = Vec::with_capacity(alloc, entries.len())?;
    for entry in entries {
        links.push_reserved(entry.link);
    }
    Ok(links)
}

// The addresses that entries lead to, and then these.
pub(crate) fn put_addrs(
    alloc: Global,
    entries: &[Entry],
    addrs: &[Addr],
) -> Result<Vec<Addr>, NoMemory>
    ensures { IfOk result (λ v. v.items ≡ map {A = StoredEntry} (λ e. e.link.addr) entries.now ++ addrs.now) }
{
    let mut all = Vec::with_capacity(alloc, entries.len())?;
    for entry in entries {
        all.push_reserved(entry.link.addr);
    }
    all.extend_from_slice(addrs)?;
    Ok(all)
}
