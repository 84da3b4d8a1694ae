//! Numbers and byte strings of a format, read from the front of bytes and written at the end.
//!
//! A number has its lowest byte first. A `Reader` lends what it reads and copies nothing; a
//! `Writer` grows one byte string; `number_4` and `number_8` read a number whose bytes were cut
//! out. `specs/Fields` has the fields and what it means that a field has one spelling (`IsField`);
//! `specs/Combine` makes fields of fields, and `proofs/Combined` and `proofs/Chains` give their laws
//! (`then_field`, `many_field`, `as_field`, `try_field`, `chain_field`). Every block of a device has
//! an image with a header of its own (`specs/Images`): `open_image` finds it in the block and
//! `write_header` begins one, both at the format byte that the caller names. Limits on what is read,
//! and what it means, are left to each format.
#![tactic(auto)]

ghost use Rattle.std.specs.Prelude.{◌≡◌, ◌<◌, ◌^◌, ℕ, List, length};
ghost use Rattle.std.specs.Int.{w8, w16, w32, w64};
ghost use Rattle.le_codec.specs.Fields.{IsField, le, number_at, slice_at, itself};

mod image;
mod number;
mod reader;
mod writer;

pub use image::{FIRST_FORMAT, Image, block_size, header_bytes, open_image, write_header};
pub use number::{number_4, number_8};
pub use reader::Reader;
pub use writer::Writer;

/// Each field of this crate has one spelling: what is read was spelled so, and what is spelled is
/// read again, whatever bytes come after it.
pub fn fields_are_exact()
    ensures u8 { IsField (le w8) (number_at w8) (λ n. n < 2 ^ 8) }
    ensures u16 { IsField (le w16) (number_at w16) (λ n. n < 2 ^ 16) }
    ensures u32 { IsField (le w32) (number_at w32) (λ n. n < 2 ^ 32) }
    ensures u64 { IsField (le w64) (number_at w64) (λ n. n < 2 ^ 64) }
    ensures slice { (n : ℕ) → IsField itself (slice_at n) (λ s. length s ≡ n) }
{}
