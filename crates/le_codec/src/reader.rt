ghost use Rattle.std.specs.Prelude.{◌≡◌, List, ℕ, length, IfNone};
ghost use Rattle.std.specs.Int.{w8, w16, w32, w64};
ghost use Rattle.le_codec.specs.Fields.{Gives, number_at, slice_at};

use crate::number::{number_4, number_8};
use std::marker::Model;

/// Reads from the front of a byte string, without copying. It is seen as the bytes that are left.
/// A call that gives None leaves the reader as it was. Each call is `O(1)`.
#[derive(Drop)]
pub struct Reader<'a> {
    rest: &'a [u8],
}

impl<'a> Model for Reader<'a> {
    ghost Value = { List ℕ };

    ghost view = { λ r. r.rest.now };
}

impl<'a> Reader<'a> {
    /// A reader of all of the bytes.
    pub fn new(bytes: &'a [u8]) -> Reader<'a>
        ensures { result ≡ bytes.now }
    {
        Reader { rest: bytes }
    }

    /// The bytes that are left, lent.
    pub fn rest(&self) -> &'a [u8]
        ensures { result.now ≡ self.now }
    {
        self.rest
    }

    /// The next `n` bytes, lent. None where fewer are left.
    #[tactic(auto, unfolding(crate::specs::Fields::slice_at))]
    pub fn slice(&mut self, n: usize) -> Option<&'a [u8]>
        ensures read { Gives (λ x. x.now) result self.new (slice_at n self.old) }
        ensures kept { IfNone result (self.new ≡ self.old) }
    {
        let bytes = self.rest;
        if bytes.len() < n {
            return None;
        }
        let (front, rest) = bytes.split_at(n);
        self.rest = rest;
        Some(front)
    }

    /// The next number of 1 byte, the lowest byte first. None where fewer are left.
    #[tactic(auto, unfolding(crate::specs::Fields::number_at))]
    pub fn u8(&mut self) -> Option<u8>
        ensures read { Gives (λ x. x) result self.new (number_at w8 self.old) }
        ensures kept { IfNone result (self.new ≡ self.old) }
    {
        let bytes = self.rest;
        if bytes.len() < 1 {
            return None;
        }
        let (front, rest) = bytes.split_at(1);
        self.rest = rest;
        Some(front[0])
    }

    /// The next number of 2 bytes, the lowest byte first. None where fewer are left.
    #[tactic(auto, unfolding(crate::specs::Fields::number_at))]
    pub fn u16(&mut self) -> Option<u16>
        ensures read { Gives (λ x. x) result self.new (number_at w16 self.old) }
        ensures kept { IfNone result (self.new ≡ self.old) }
    {
        let bytes = self.rest;
        if bytes.len() < 2 {
            return None;
        }
        let (front, rest) = bytes.split_at(2);
        self.rest = rest;
        Some(u16::from_le_bytes([front[0], front[1]]))
    }

    /// The next number of 4 bytes, the lowest byte first. None where fewer are left.
    #[tactic(auto, unfolding(crate::specs::Fields::number_at))]
    pub fn u32(&mut self) -> Option<u32>
        ensures read { Gives (λ x. x) result self.new (number_at w32 self.old) }
        ensures kept { IfNone result (self.new ≡ self.old) }
    {
        let bytes = self.rest;
        if bytes.len() < 4 {
            return None;
        }
        let (front, rest) = bytes.split_at(4);
        self.rest = rest;
        Some(number_4(front))
    }

    /// The next number of 8 bytes, the lowest byte first. None where fewer are left.
    #[tactic(auto, unfolding(crate::specs::Fields::number_at))]
    pub fn u64(&mut self) -> Option<u64>
        ensures read { Gives (λ x. x) result self.new (number_at w64 self.old) }
        ensures kept { IfNone result (self.new ≡ self.old) }
    {
        let bytes = self.rest;
        if bytes.len() < 8 {
            return None;
        }
        let (front, rest) = bytes.split_at(8);
        self.rest = rest;
        Some(number_8(front))
    }
}
