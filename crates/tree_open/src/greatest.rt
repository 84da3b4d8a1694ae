// The greatest of what stands below entries.
ghost use Rattle.std.specs.Prelude.{◌≡◌, map};
ghost use Rattle.row_page.specs.Greatest.{greatest_in, most_in};
ghost use Rattle.stored.specs.TableTree.{Entry as StoredEntry};

use inner_page::Entry;
use stamp::Name;

// The greatest name that the entries say. `O(entries)`.
pub(crate) fn greatest_name(entries: &[Entry]) -> Name
    ensures { result ≡ greatest_in (map {A = StoredEntry} (λ x. x.link.greatest) entries.now) }
{
    let mut greatest = Name { run: 0, id: 0 };
    for entry in entries {
        greatest = greatest.later(entry.link.greatest);
    }
    greatest
}

// The greatest durable stamp that the entries say. `O(entries)`.
pub(crate) fn greatest_durable(entries: &[Entry]) -> u64
    ensures { result ≡ most_in (map {A = StoredEntry} (λ x. x.link.durable) entries.now) }
{
    let mut greatest = 0;
    for entry in entries {
        greatest = greatest.max(entry.link.durable);
    }
    greatest
}
