ghost use Rattle.std.specs.Prelude.{◌≡◌, ℕ, List, Some, None, if◌then◌else◌, ◌++◌, IfSome, IfNone, OnOk, OnErr, length, option_map};
ghost use Rattle.std.specs.List.{list_all};
ghost use Rattle.le_codec.specs.Fields.{Gives};
ghost use Rattle.le_codec.specs.Images.{Framed, header, HoldsImage, block_size, head_at, head_fits, image_at, is_zero};
ghost use Rattle.le_codec.specs.Views.{head_seen, image_seen};

use crate::reader::Reader;
use crate::writer::Writer;
use failure::NoMemory;

/// The format byte of every image that is written today: rows, entries and records spelled plainly,
/// one behind another.
pub const FIRST_FORMAT: u8 = 1;

const HEADER: usize = 16; // bytes

const UNIT: usize = 4_096; // bytes

/// An image that was found in its block.
#[derive(Drop)]
pub struct Image<'a> {
    /// How many things the image has, as its header says.
    pub count: u16,
    /// Its level, as its header says: 0 for a leaf and for a record.
    pub level: u64,
    /// What follows the header, up to the image's end.
    pub text: &'a [u8],
}

/// What the 16 bytes of a header say, before anything is asked of them.
#[derive(Clone, Copy)]
pub(crate) struct Header {
    pub kind: u8,
    pub format: u8,
    pub count: u16,
    pub used: u32,
    pub level: u64,
}

#[tactic(auto, unfolding(crate::specs::Images::head_at, crate::specs::Combine::then_at, crate::specs::Combine::as_at))]
fn header_of(reader: &mut Reader<'_>) -> Option<Header>
    ensures { Gives head_seen result reader.new (head_at reader.old) }
{
    let kind = reader.u8()?;
    let format = reader.u8()?;
    let count = reader.u16()?;
    let used = reader.u32()?;
    let level = reader.u64()?;
    Some(Header {
        kind,
        format,
        count,
        used,
        level,
    })
}

/// The size of the block for an image of so many bytes: the next multiple of 4,096.
pub fn block_size(used: u32) -> usize
    ensures { result ≡ block_size used }
{
    (used as usize + (UNIT - 1)) / UNIT * UNIT
}

fn are_zeros(bytes: &[u8]) -> bool
    ensures { result ≡ list_all is_zero bytes.now }
{
    bytes.iter().all(|byte| *byte == 0)
}

fn header_fits(kind: u8, format: u8, size: usize, header: &Header) -> bool
    ensures { result ≡ head_fits kind format size (head_seen header.now) }
{
    header.kind == kind
        && header.format == format
        && HEADER <= header.used as usize
        && block_size(header.used) == size
}

/// The header, where it fits a block of this size.
fn fitting(kind: u8, format: u8, size: usize, header: Header) -> Option<Header>
    ensures { option_map head_seen result ≡ (if head_fits kind format size (head_seen header) then Some (head_seen header) else None) }
{
    if header_fits(kind, format, size, &header) {
        Some(header)
    } else {
        None
    }
}

#[tactic(auto, unfolding(crate::specs::Images::image_at))]
fn image_of(kind: u8, format: u8, block: &[u8]) -> Option<Image<'_>>
    ensures { option_map image_seen result ≡ image_at kind format block.now }
{
    let mut reader = Reader::new(block);
    let header = header_of(&mut reader)?;
    let header = fitting(kind, format, block.len(), header)?;
    let text = reader.slice(header.used as usize - HEADER)?;
    if are_zeros(reader.rest()) {
        Some(Image {
            count: header.count,
            level: header.level,
            text,
        })
    } else {
        None
    }
}

/// Finds an image of this kind and format in all bytes of its block. None exactly where the block
/// is no such: it begins otherwise, has another size than an image of that length, or other bytes
/// than zeros behind it. `O(block)`, and it takes no memory.
pub fn open_image(kind: u8, format: u8, block: &[u8]) -> Option<Image<'_>>
    ensures found { IfSome result (λ i. HoldsImage kind format block.now i.count i.level i.text.now) }
    ensures none { IfNone result ((count level : ℕ) (text : List ℕ) → HoldsImage kind format block.now count level text → ⊥) }
{
    image_of(kind, format, block)
}

/// Writes the 16 bytes that begin an image of this kind and format: of `count` things, of `used`
/// bytes in all, at this level. After want of memory nothing is written.
pub fn write_header(
    out: &mut Writer,
    kind: u8,
    format: u8,
    count: u16,
    used: u32,
    level: u64,
) -> Result<(), NoMemory>
    ensures written { OnOk result (out.new ≡ out.old ++ header kind format count used level) }
    ensures kept { OnErr result (out.new ≡ out.old) }
{
    out.slice(&header_bytes(kind, format, count, used, level))
}

/// The 16 bytes that begin an image, as `write_header` writes them.
pub fn header_bytes(kind: u8, format: u8, count: u16, used: u32, level: u64) -> [u8; 16]
    ensures { result ≡ header kind format count used level }
{
    let [c0, c1] = count.to_le_bytes();
    let [u0, u1, u2, u3] = used.to_le_bytes();
    let [l0, l1, l2, l3, l4, l5, l6, l7] = level.to_le_bytes();
    [
        kind, format, c0, c1, u0, u1, u2, u3, l0, l1, l2, l3, l4, l5, l6, l7,
    ]
}
