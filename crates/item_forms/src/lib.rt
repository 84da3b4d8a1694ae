//! Items as they are written, and as a table stores them.
//!
//! A table of the format `S` stores an item with one zero byte behind it, one of the format `u` as
//! it is. It promises what is stored of an item, and that what is written again is the same item.
//! How an item is escaped in a text, and how long one may be, is left to others.
#![tactic(auto)]

ghost use Rattle.std.specs.Prelude.{◌≡◌, ◌++◌, ◌∷◌, [], ℕ, List, length, IfOk};
ghost use Rattle.item.specs.declared.formats.Format.{Format};
ghost use Rattle.item_forms.specs.Forms.{stored_as, without_zero, written_as};

use failure::NoMemory;
use item::{Format, Item};
use std::alloc::Global;

#[cfg(test)]
mod tests;

/// The item as a table of the format stores it. One allocation.
pub fn stored_as(alloc: Global, format: Format, item: &[u8]) -> Result<Item, NoMemory>
    ensures { IfOk result (λ stored. stored ≡ stored_as format item.now) }
{
    match format {
        Format::S => with_zero(alloc, item),
        Format::U => Ok(Item::new(item.to_vec(alloc)?)),
    }
}

fn with_zero(alloc: Global, item: &[u8]) -> Result<Item, NoMemory>
    ensures { IfOk result (λ stored. stored ≡ item.now ++ 0 ∷ []) }
{
    let mut bytes = Vec::new(alloc);
    bytes.reserve(item.len() + 1)?;
    bytes.extend_from_slice(item)?;
    match bytes.push(0) {
        Ok(()) => Ok(Item::new(bytes)),
        Err(_) => Err(NoMemory),
    }
}

/// How many bytes a table of the format stores of the item.
pub fn stored_len(format: Format, item: &[u8]) -> u64
    ensures { result ≡ length (stored_as format item.now) }
{
    match format {
        Format::S => item.len() as u64 + 1,
        Format::U => item.len() as u64,
    }
}

/// What is written of an item that a table of the format stores: one of the format `S` loses its
/// final zero byte, where it has one.
pub fn written_as(format: Format, stored: &[u8]) -> &[u8]
    ensures { result.now ≡ written_as format stored.now }
{
    match format {
        Format::S => without_zero(stored),
        Format::U => stored,
    }
}

fn without_zero(item: &[u8]) -> &[u8]
    ensures { result.now ≡ without_zero item.now }
{
    match item.split_last() {
        Some((last, front)) => { if *last == 0 { front } else { item } }
        None => item,
    }
}

/// An item is written as it was, whatever the format that it is stored in.
pub fn an_item_is_written_as_it_was()
    ensures { (format : Format) (item : List ℕ) → written_as format (stored_as format item) ≡ item }
{}
