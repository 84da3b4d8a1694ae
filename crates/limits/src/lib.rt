//! The numbers that several crates agree on: places and sizes on a device, and how many there may
//! be of what is counted. It promises no more than the numbers; which call refuses what lies past
//! one of them, and how, is for each crate to say.
#![tactic(auto)]

/// The unit of a device, in bytes: each block begins at a multiple of it, and has a multiple of it
/// as its size.
pub const UNIT: u64 = 4_096;

/// Where slot A begins, in bytes from the device's beginning.
pub const SLOT_A: u64 = 0;

/// Where slot B begins, in bytes from the device's beginning.
pub const SLOT_B: u64 = 4_096;

/// Where the two slots end, in bytes from the device's beginning: the least length of a device, and
/// the least offset of a block.
pub const SLOTS_END: u64 = 8_192;

/// The greatest size of a block, in bytes: 2^20.
pub const BLOCK_MAX: u64 = 1 << 20;

/// The greatest size of the image of a leaf of rows, in bytes.
pub const LEAF_IMAGE_MAX: u64 = 32_768;

/// The greatest size of the image of an inner page, in bytes.
pub const INNER_IMAGE_MAX: u64 = 4_096;

/// The greatest level of a tree's root. A leaf has level 0.
pub const LEVELS_MAX: u8 = 60;

/// The greatest length of a key, in bytes as stored.
pub const KEY_MAX: usize = 1_024;

/// The greatest length of a value, in bytes as stored.
pub const VALUE_MAX: usize = 16_384;

/// The greatest length of a table's name, in bytes.
pub const TABLE_NAME_MAX: usize = 128;

/// How many sessions an engine may have.
pub const SESSIONS_MAX: usize = 64;

/// How many cursors a session may have.
pub const CURSORS_MAX: usize = 4;

/// How many tables a device may have.
pub const TABLES_MAX: usize = 1_024;

/// The greatest of each number that is drawn one after the other and is never used up in practice,
/// 2^62 - 1: ids of a run's transactions, runs of a device, generations of a frame, checkpoints of
/// a device, and rollbacks to stable of an engine.
pub const NUMBER_MAX: u64 = (1 << 62) - 1;
