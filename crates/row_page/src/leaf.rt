// A leaf in memory: the bytes of its block, and where its cells begin.
ghost use Rattle.std.specs.Prelude.{◌≡◌, ◌≤◌, ◌<◌, List, length, drop, slice_get, IfOk, IfSome, IfNone, IsTrue, ◌↔◌, MatchResult, None, Some};
ghost use Rattle.row_page.specs.Rows.{Row, IsPage};
ghost use Rattle.row_page.specs.Reading.{leaf_at};
ghost use Rattle.row_page.specs.Views.{row_seen, HasKeyAt, Splits};
ghost use Rattle.row_page.specs.Greatest.{greatest_in, most_in, names_of, durables_of};
ghost use Rattle.row_page.specs.Places.{row_from, rows_from, CellBegins, AreFound, FirstNotBelow};

use crate::cell::{Cell, cell_of, next_cell};
use crate::greatest::Greatest;
use byte_order::order;
use failure::NoMemory;
use le_codec::{FIRST_FORMAT, Image, Reader, open_image};
use stamp::Name;
use std::alloc::Global;
use std::cmp::Ordering;
use std::marker::Model;

// The kind of a leaf's image, as its header says.
pub(crate) const KIND: u8 = 1;

const TEXT_MAX: usize = 32_752; // bytes, without the header

const HEADER: usize = 16; // bytes

const NUMBERS: usize = 39; // bytes of a cell beside its key and its value

/// A leaf in memory. It owns the bytes of its block, which are decoded once, and is seen as the
/// list of its rows. It takes the block, and two bytes a row.
#[derive(Drop)]
pub struct Leaf {
    // The bytes of its block.
    block: Vec<u8>,
    // Where each cell begins, in bytes behind the header.
    places: Vec<u16>,
    greatest: Greatest,
}

impl Model for Leaf {
    ghost Value = { List Row };

    ghost view = { λ l. rows_from (drop 16 l.block.items) l.places.items };

    ghost invariant = { λ l. AreFound (drop 16 l.block.items) l.places.items l.greatest.name l.greatest.durable };
}

// What one pass over the cells finds.
#[derive(Drop)]
struct Found {
    // Where each cell begins, in bytes behind the header.
    places: Vec<u16>,
    greatest: Greatest,
}

impl Leaf {
    /// The leaf that the block spells, with all of its bytes: header, cells, and the zeros that
    /// fill it up. None exactly where it spells none. One pass, `O(block)`, and one allocation of
    /// two bytes a row.
    pub fn of_block(alloc: Global, block: Vec<u8>) -> Result<Option<Leaf>, NoMemory>
        ensures found { IfOk result (λ o. IfSome o (λ rows. IsPage block.items rows)) }
        ensures none { IfOk result (λ o. IfNone o ((rows : List Row) → IsPage block.items rows → ⊥)) }
    {
        let Some(found) = found_in(alloc, &block)? else {
            return Ok(None);
        };
        let Found { places, greatest } = found;
        Ok(Some(Leaf {
            block,
            places,
            greatest,
        }))
    }

    /// The number of rows.
    pub fn len(&self) -> usize
        ensures { result ≡ length self.now }
    {
        self.places.len()
    }

    /// Whether there are no rows.
    pub fn is_empty(&self) -> bool
        ensures { IsTrue result ↔ (length self.now ≡ 0) }
    {
        self.len() == 0
    }

    /// The greatest name of a version, 0 and 0 where there are no rows. `O(1)`.
    pub fn greatest(&self) -> Name
        ensures { result ≡ greatest_in (names_of self.now) }
    {
        self.greatest.name
    }

    /// The greatest durable stamp of a version, 0 where there are no rows. `O(1)`.
    pub fn durable(&self) -> u64
        ensures { result ≡ most_in (durables_of self.now) }
    {
        self.greatest.durable
    }

    /// The i-th row, lent. `O(1)`.
    pub fn cell(&self, i: usize) -> Cell<'_>
        requires { i < length self.now }
        ensures { slice_get self.now i ≡ Some (row_seen result) }
    {
        cell_from(&self.block, self.places[i] as usize)
    }

    /// The key of the i-th row, lent. `O(1)`.
    pub fn key(&self, i: usize) -> &[u8]
        requires { i < length self.now }
        ensures { HasKeyAt self.now result.now i }
    {
        key_from(&self.block, self.places[i] as usize)
    }

    /// The place of the key, or that of the first row above it. `O(log rows)`, and one comparison
    /// where the key is above all of them.
    pub fn find(&self, key: &[u8]) -> Result<usize, usize>
        ensures { MatchResult result (HasKeyAt self.now key.now) (Splits self.now key.now) }
    {
        let i = self.first_not_below(key);
        if i == self.places.len() {
            return Err(i);
        }
        match order(self.key(i), key) {
            Ordering::Equal => Ok(i),
            _ => Err(i),
        }
    }

    // How many rows, from the first on, have keys below this one: all, by the last one, or by halving.
    fn first_not_below(&self, key: &[u8]) -> usize
        ensures { FirstNotBelow self.now key.now result }
    {
        let mut low = 0;
        let mut high = self.places.len();
        if self.ends_below(key) {
            return high;
        }
        while low < high {
            let middle = low + (high - low) / 2;
            if order(self.key(middle), key).is_lt() {
                low = middle + 1;
            } else {
                high = middle;
            }
        }
        low
    }

    // Whether there is a last row, and its key is below this one.
    fn ends_below(&self, key: &[u8]) -> bool
        ensures { IsTrue result → FirstNotBelow self.now key.now (length self.now) }
    {
        let len = self.places.len();
        if len == 0 {
            return false;
        }
        order(self.key(len - 1), key).is_lt()
    }
}

// The cell that begins there.
fn cell_from(block: &[u8], place: usize) -> Cell<'_>
    requires { CellBegins (drop 16 block.now) place }
    ensures { row_from (drop 16 block.now) place ≡ row_seen result }
{
    let (_, bytes) = block.split_at(HEADER + place);
    let mut reader = Reader::new(bytes);
    let cell = cell_of(&mut reader);
    cell.unwrap()
}

// The key of the cell that begins there.
fn key_from(block: &[u8], place: usize) -> &[u8]
    requires { CellBegins (drop 16 block.now) place }
    ensures { (row_from (drop 16 block.now) place).0 ≡ result.now }
{
    let (_, bytes) = block.split_at(HEADER + place);
    let (numbers, bytes) = bytes.split_at(NUMBERS);
    let len = u16::from_le_bytes([numbers[0], numbers[1]]) as usize;
    let (key, _) = bytes.split_at(len);
    key
}

// What the block's leaf has, where the block spells one.
fn found_in(alloc: Global, block: &[u8]) -> Result<Option<Found>, NoMemory>
    ensures found { IfOk result (λ o. IfSome o (λ f. AreFound (drop 16 block.now) f.places.items f.greatest.name f.greatest.durable)) }
    ensures page { IfOk result (λ o. IfSome o (λ f. IsPage block.now (rows_from (drop 16 block.now) f.places.items))) }
    ensures none { IfOk result (λ o. IfNone o ((rows : List Row) → IsPage block.now rows → ⊥)) }
{
    let Some(image) = open_image(KIND, FIRST_FORMAT, block) else {
        return Ok(None);
    };
    let Image { count, level, text } = image;
    if level != 0 || text.len() > TEXT_MAX {
        return Ok(None);
    }
    cells_in(alloc, count, text)
}

// So many cells, which fill the text.
fn cells_in(alloc: Global, count: u16, text: &[u8]) -> Result<Option<Found>, NoMemory>
    requires { length text.now ≤ 32752 }
    ensures found { IfOk result (λ o. IfSome o (λ f. AreFound text.now f.places.items f.greatest.name f.greatest.durable)) }
    ensures leaf { IfOk result (λ o. IfSome o (λ f. leaf_at count 0 text.now ≡ Some (rows_from text.now f.places.items))) }
    ensures none { IfOk result (λ o. IfNone o (leaf_at count 0 text.now ≡ None)) }
{
    let mut reader = Reader::new(text);
    let mut places = vec![in alloc; 0u16; count as usize]?;
    let mut greatest = Greatest {
        name: Name { run: 0, id: 0 },
        durable: 0,
    };
    let mut before: Option<&[u8]> = None;
    for i in 0..count as usize {
        places[i] = (text.len() - reader.rest().len()) as u16;
        let Some(cell) = next_cell(before, &mut reader, &mut greatest) else {
            return Ok(None);
        };
        before = Some(cell.key);
    }
    if !reader.rest().is_empty() {
        return Ok(None);
    }
    Ok(Some(Found { places, greatest }))
}
