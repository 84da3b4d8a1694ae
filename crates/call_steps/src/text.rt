// The name and the key of a call.

ghost use Rattle.std.specs.Prelude.{◌≡◌, ◌≤◌, [], length, vec_capacity, OnOk, OnErr};
ghost use Rattle.call_steps.specs.Texts.{text_of};

use failure::NoMemory;
use item::Item;
use std::alloc::Global;
use std::mem::replace;

/// A text of a call: an item that was given, or a copy of bytes that were lent, in a buffer that is
/// used again.
#[derive(Drop)]
pub(crate) struct CallText {
    // None where it is the copy.
    given: Option<Item>,
    copied: Vec<u8>,
}

impl CallText {
    // No bytes. Takes no memory.
    pub(crate) fn new(alloc: Global) -> CallText
        ensures { text_of result.given result.copied.items ≡ [] }
    {
        CallText {
            given: None,
            copied: Vec::new(alloc),
        }
    }

    // Its bytes, lent.
    #[inline(always)]
    pub(crate) fn as_bytes(&self) -> &[u8]
        ensures { result.now ≡ text_of self.now.given self.now.copied.items }
    {
        match &self.given {
            None => self.copied.as_slice(),
            Some(item) => item.as_bytes(),
        }
    }

    // How many bytes it has.
    #[inline(always)]
    pub(crate) fn len(&self) -> usize
        ensures { result ≡ length (text_of self.now.given self.now.copied.items) }
    {
        self.as_bytes().len()
    }

    // The item in place of what it was.
    #[inline(always)]
    pub(crate) fn give(&mut self, item: Item)
        ensures { text_of self.new.given self.new.copied.items ≡ item }
    {
        self.given = Some(item);
    }

    // What it is, as an item; no bytes are left. Takes no memory.
    pub(crate) fn take(&mut self, alloc: Global) -> Item
        ensures taken { result ≡ text_of self.old.given self.old.copied.items }
        ensures left { text_of self.new.given self.new.copied.items ≡ [] }
    {
        let empty = Item::new(Vec::new(alloc));
        match replace(&mut self.given, Some(empty)) {
            Some(item) => item,
            None => Item::new(replace(&mut self.copied, Vec::new(alloc))),
        }
    }

    // A copy of these bytes in place of what it was, where there is room for it.
    #[inline(always)]
    fn fill(&mut self, bytes: &[u8])
        requires { length bytes.now ≤ vec_capacity self.old.copied }
        ensures { text_of self.new.given self.new.copied.items ≡ bytes.now }
    {
        self.given = None;
        self.copied.clear();
        let _filled = self.copied.extend_from_slice(bytes);
    }
}

// Copies of these bytes in place of what both were. Takes memory where a buffer is too small for
// them; where that is short, both are what they were.
#[inline(always)]
pub(crate) fn copy_both(
    name: &mut CallText,
    table: &[u8],
    key: &mut CallText,
    bytes: &[u8],
) -> Result<(), NoMemory>
    ensures name { OnOk result (text_of name.new.given name.new.copied.items ≡ table.now) }
    ensures key { OnOk result (text_of key.new.given key.new.copied.items ≡ bytes.now) }
    ensures name_kept { OnErr result (text_of name.new.given name.new.copied.items ≡ text_of name.old.given name.old.copied.items) }
    ensures key_kept { OnErr result (text_of key.new.given key.new.copied.items ≡ text_of key.old.given key.old.copied.items) }
{
    name.copied.reserve(table.len())?;
    key.copied.reserve(bytes.len())?;
    name.fill(table);
    key.fill(bytes);
    Ok(())
}
