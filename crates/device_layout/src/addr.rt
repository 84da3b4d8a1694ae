// The address of a block.

/// Where a block stands, and the sum of its bytes. All three are 0 where there is no block.
#[derive(Clone, Copy, Debug, PartialEq, Eq)]
pub struct Addr {
    /// The offset of its first byte on the device, a multiple of 4,096 and at least 8,192; 0 where
    /// there is no block.
    pub offset: u64,
    /// Its size in bytes, a multiple of 4,096 from 4,096 to 2^20; 0 where there is no block.
    pub size: u32,
    /// The sum of all its bytes; 0 where there is no block.
    pub sum: u32,
}
