// The inner page of a table.
ghost use Rattle.std.specs.Prelude.{◌≡◌, ◌≤◌, length};
ghost use Rattle.row_page.specs.Rows.{is_below};
ghost use Rattle.stored.specs.TableTree.{Climbs};
ghost use Rattle.inner_page.specs.Children.{IsUnderKey};

use byte_order::order;
use device_layout::Link;
use item::Item;
use std::marker::Model;

/// What an inner page of a table has of one page below it.
#[derive(Drop)]
pub struct Entry {
    /// The least key that may stand below.
    pub key: Item,
    /// What leads to the page.
    pub link: Link,
}

impl Model for Entry {
    ghost use Rattle.stored.specs.TableTree.{Entry as StoredEntry};

    ghost Value = { StoredEntry };

    ghost view = { λ e. record { key = e.key; link = e.link } };
}

/// An inner page of a table.
#[derive(Drop)]
pub struct Inner {
    /// Its level, from 1 to 60. The pages below have the level before, and a leaf has level 0.
    pub level: u8,
    /// Its entries, in the ascending order of their keys.
    pub entries: Vec<Entry>,
}

impl Inner {
    /// The place of the entry below which the key stands: the last one whose key is not above it,
    /// or the first one where all are above. `O(log n)` comparisons in the entries.
    pub fn child_for(&self, key: &[u8]) -> usize
        requires some { 1 ≤ length self.now.entries.items }
        requires climbs { Climbs self.now.entries.items }
        ensures { IsUnderKey self.now.entries.items key.now result }
    {
        place_under(&self.entries, key)
    }
}

// By halving: the entries from `high` on are above the key, and so are none up to `low`, unless that
// is the first.
fn place_under(entries: &[Entry], key: &[u8]) -> usize
    requires some { 1 ≤ length entries.now }
    requires climbs { Climbs entries.now }
    ensures { IsUnderKey entries.now key.now result }
{
    let mut low = 0;
    let mut high = entries.len();
    while high - low > 1 {
        let middle = low + (high - low) / 2;
        if is_above(&entries[middle], key) {
            high = middle;
        } else {
            low = middle;
        }
    }
    low
}

// Whether the entry's key is above this one.
fn is_above(entry: &Entry, key: &[u8]) -> bool
    ensures { result ≡ is_below key.now entry.now.key }
{
    order(key, entry.key.as_bytes()).is_lt()
}
