ghost use Rattle.std.specs.Prelude.{◌≡◌, ◌++◌, [], List, ℕ, OnOk, OnErr, IfOk};
ghost use Rattle.std.specs.Int.{w8, w16, w32, w64};
ghost use Rattle.le_codec.specs.Fields.{le};

use failure::NoMemory;
use std::alloc::Global;
use std::marker::Model;

/// Writes at the end of a byte string. It is seen as the bytes that are written. Its only error is
/// want of memory, after which the bytes are those of before.
#[derive(Drop)]
pub struct Writer {
    bytes: Vec<u8>,
}

impl Model for Writer {
    ghost Value = { List ℕ };

    ghost view = { λ w. w.bytes.items };
}

impl Writer {
    /// A writer with no bytes. It takes no memory yet.
    pub fn new(alloc: Global) -> Writer
        ensures { result ≡ [] }
    {
        Writer {
            bytes: Vec::new(alloc),
        }
    }

    /// A writer with no bytes, and room for so many. One allocation, and none where it is 0.
    pub fn with_capacity(alloc: Global, capacity: usize) -> Result<Writer, NoMemory>
        ensures { IfOk result (λ w. w ≡ []) }
    {
        Ok(Writer {
            bytes: Vec::with_capacity(alloc, capacity)?,
        })
    }

    /// The bytes that were written.
    pub fn into_bytes(self) -> Vec<u8>
        ensures { result.items ≡ self }
    {
        let Writer { bytes } = self;
        bytes
    }

    /// Writes the bytes as they are. `O(bytes)`.
    pub fn slice(&mut self, bytes: &[u8]) -> Result<(), NoMemory>
        ensures written { OnOk result (self.new ≡ self.old ++ bytes.now) }
        ensures kept { OnErr result (self.new ≡ self.old) }
    {
        self.bytes.extend_from_slice(bytes)?;
        Ok(())
    }

    /// Writes the number in 1 byte, the lowest first.
    #[tactic(auto, unfolding(crate::specs::Fields::le))]
    pub fn u8(&mut self, n: u8) -> Result<(), NoMemory>
        ensures written { OnOk result (self.new ≡ self.old ++ le w8 n) }
        ensures kept { OnErr result (self.new ≡ self.old) }
    {
        self.bytes.extend_from_slice(&n.to_le_bytes())?;
        Ok(())
    }

    /// Writes the number in 2 bytes, the lowest first.
    #[tactic(auto, unfolding(crate::specs::Fields::le))]
    pub fn u16(&mut self, n: u16) -> Result<(), NoMemory>
        ensures written { OnOk result (self.new ≡ self.old ++ le w16 n) }
        ensures kept { OnErr result (self.new ≡ self.old) }
    {
        self.bytes.extend_from_slice(&n.to_le_bytes())?;
        Ok(())
    }

    /// Writes the number in 4 bytes, the lowest first.
    #[tactic(auto, unfolding(crate::specs::Fields::le))]
    pub fn u32(&mut self, n: u32) -> Result<(), NoMemory>
        ensures written { OnOk result (self.new ≡ self.old ++ le w32 n) }
        ensures kept { OnErr result (self.new ≡ self.old) }
    {
        self.bytes.extend_from_slice(&n.to_le_bytes())?;
        Ok(())
    }

    /// Writes the number in 8 bytes, the lowest first.
    #[tactic(auto, unfolding(crate::specs::Fields::le))]
    pub fn u64(&mut self, n: u64) -> Result<(), NoMemory>
        ensures written { OnOk result (self.new ≡ self.old ++ le w64 n) }
        ensures kept { OnErr result (self.new ≡ self.old) }
    {
        self.bytes.extend_from_slice(&n.to_le_bytes())?;
        Ok(())
    }
}
