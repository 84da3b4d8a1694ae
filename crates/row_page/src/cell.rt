// A cell of a leaf: a key and a version of it.
ghost use Rattle.std.specs.Prelude.{◌≡◌, [], option_map, IfNone, IfSome};
ghost use Rattle.le_codec.specs.Fields.{Gives};
ghost use Rattle.row_page.specs.Changes.{change_seen};
ghost use Rattle.row_page.specs.Rows.{comes_after, key_most, value_of};
ghost use Rattle.row_page.specs.Reading.{cell_at, row_after, row_at, row_under, change_of};
ghost use Rattle.row_page.specs.Heads.{raw_headed, raw_fits, behind_at, greatest_with};
ghost use Rattle.row_page.specs.Views.{row_seen};

use crate::change::CellChange;
use crate::greatest::Greatest;
use crate::head::{Head, head_at, window_fits};
use byte_order::order;
use le_codec::Reader;
use stamp::Window;

const KEY_MAX: usize = 1_024; // bytes

const VALUE_MAX: usize = 16_384; // bytes

/// A key and a version of it, lent by the leaf's bytes.
#[derive(Clone, Copy)]
pub struct Cell<'a> {
    /// The key.
    pub key: &'a [u8],
    /// Who wrote the version, and from which stamps on it holds.
    pub window: Window,
    /// What it says of the key.
    pub change: CellChange<&'a [u8]>,
}

impl<'a> Cell<'a> {
    /// The value, of no bytes where the key was removed.
    pub fn value(&self) -> &'a [u8]
        ensures { result.now ≡ value_of (row_seen self.now).1.change }
    {
        match self.change {
            CellChange::Put(value) => value,
            CellChange::Remove => &[],
        }
    }
}

fn fits(head: &Head, key: &[u8], value: &[u8]) -> bool
    ensures { result ≡ raw_fits (raw_headed head.now key.now value.now) }
{
    key.len() <= KEY_MAX && value.len() <= VALUE_MAX && window_fits(&head.window)
}

fn change_of<'a>(code: u8, value: &'a [u8]) -> Option<CellChange<&'a [u8]>>
    ensures { option_map change_seen result ≡ change_of code value.now }
{
    match code {
        1 => Some(CellChange::Put(value)),
        2 if value.is_empty() => Some(CellChange::Remove),
        _ => None,
    }
}

#[tactic(auto, using(crate::proofs::Heads::under_is))]
fn row_of<'a>(head: &Head, key: &'a [u8], value: &'a [u8]) -> Option<Cell<'a>>
    ensures row { option_map row_seen result ≡ row_under [] key_most (raw_headed head.now key.now value.now) }
    ensures window { IfSome result (λ c. c.window ≡ head.now.window) }
{
    if !fits(head, key, value) {
        return None;
    }
    let change = change_of(head.code, value)?;
    Some(Cell {
        key,
        window: head.window,
        change,
    })
}

// The cell whose head was read. One test of the length serves its key and its value.
fn behind<'a>(head: &Head, reader: &mut Reader<'a>) -> Option<Cell<'a>>
    ensures read { Gives row_seen result reader.new (behind_at head.now reader.old) }
    ensures window { IfSome result (λ c. c.window ≡ head.now.window) }
{
    let key_len = head.key_len as usize;
    let text = reader.slice(key_len + head.value_len as usize)?;
    let (key, value) = text.split_at(key_len);
    row_of(head, key, value)
}

/// The next cell, its key and value lent. None where what stands there is none, and then the reader
/// is as it was. `O(1)`.
#[tactic(auto, using(crate::proofs::Heads::cell_in_two))]
pub fn cell_of<'a>(reader: &mut Reader<'a>) -> Option<Cell<'a>>
    ensures read { Gives row_seen result reader.new (cell_at [] key_most reader.old) }
    ensures kept { IfNone result (reader.new ≡ reader.old) }
{
    let mut ahead = Reader::new(reader.rest());
    let head = head_at(&mut ahead)?;
    let cell = behind(&head, &mut ahead)?;
    *reader = ahead;
    Some(cell)
}

fn comes_after(before: Option<&[u8]>, key: &[u8]) -> bool
    ensures { result ≡ comes_after (option_map (λ v. v.now) before.entry) key.now }
{
    match before {
        Some(before) => order(before, key).is_lt(),
        None => true,
    }
}

// The cell, where its key comes after the one before.
fn ordered<'a>(before: Option<&[u8]>, cell: Cell<'a>) -> Option<Cell<'a>>
    ensures row { option_map row_seen result ≡ row_after (option_map (λ v. v.now) before.entry) (row_seen cell.entry) }
    ensures window { IfSome result (λ c. c.window ≡ cell.entry.window) }
{
    if comes_after(before, cell.key) {
        Some(cell)
    } else {
        None
    }
}

// The next cell, where its key comes after the one before. Its window is added as soon as it is
// read, so that it need not be kept.
#[tactic(auto, unfolding(crate::specs::Reading::row_at, le_codec::specs::Combine::try_at), using(crate::proofs::Heads::cell_in_two))]
pub(crate) fn next_cell<'a>(
    before: Option<&[u8]>,
    reader: &mut Reader<'a>,
    greatest: &mut Greatest,
) -> Option<Cell<'a>>
    ensures read { Gives row_seen result reader.new (row_at [] key_most (option_map (λ v. v.now) before.entry) reader.old) }
    ensures greatest { IfSome result (λ c. greatest.new ≡ greatest_with greatest.old c.window) }
{
    let head = head_at(reader)?;
    greatest.add(&head.window);
    let cell = behind(&head, reader)?;
    ordered(before, cell)
}
