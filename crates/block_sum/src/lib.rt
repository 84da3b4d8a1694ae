//! The sum by which a block is known to be the one that was written.
//!
//! Promises that two blocks of one length which differ in one byte have different sums. Two that
//! differ in more may have the same sum.
#![tactic(auto)]

ghost use Rattle.std.specs.Prelude.{◌≡◌, ◌+◌, ◌*◌, ◌≤◌, ◌%◌, ◌^◌, length};
ghost use Rattle.block_sum.specs.Sum.{sum_from, sum_of, OneByteTells};

use std::simd::prelude::*;

#[cfg(test)]
mod tests;

// The places of a chunk's bytes.
const PLACES: [u8; 64] = [
    1, 2, 3, 4, 5, 6, 7, 8, 9, 10, 11, 12, 13, 14, 15, 16, 17, 18, 19, 20, 21, 22, 23, 24, 25, 26,
    27, 28, 29, 30, 31, 32, 33, 34, 35, 36, 37, 38, 39, 40, 41, 42, 43, 44, 45, 46, 47, 48, 49, 50,
    51, 52, 53, 54, 55, 56, 57, 58, 59, 60, 61, 62, 63, 64,
];

/// The sum of a block: each byte times its place, the first at place 1, modulo 2^32. A block has
/// at most 2^20 bytes. `O(bytes)`, less than 0.8 instructions a byte from 4,096 bytes on.
pub fn sum(bytes: &[u8]) -> u32
    requires { length bytes.now ≤ 2 ^ 20 }
    ensures { result ≡ sum_of bytes.now }
{
    let (chunks, tail) = bytes.as_chunks::<64>();
    let mut total = 0u32;
    let mut start = 0u32;
    for chunk in chunks {
        total = total.wrapping_add(chunk_sum(chunk, start));
        start += 64;
    }
    total.wrapping_add(tail_sum(tail, start))
}

// What a chunk adds to the sum of a block in which so many bytes come before it. It is of vectors,
// since LLVM makes half as many instructions again of a plain loop.
fn chunk_sum(chunk: &[u8; 64], start: u32) -> u32
    ensures { result ≡ sum_from start chunk.now % 2 ^ 32 }
{
    let bytes = u8x64::from_array(*chunk);
    let plain = bytes.dot4(u8x64::splat(1)).reduce_sum();
    let placed = bytes.dot4(u8x64::from_array(PLACES)).reduce_sum();
    start.wrapping_mul(plain).wrapping_add(placed)
}

// What the bytes behind the last chunk add, in the same way.
fn tail_sum(bytes: &[u8], start: u32) -> u32
    requires { start + length bytes.now ≤ 2 ^ 20 }
    ensures { result ≡ sum_from start bytes.now % 2 ^ 32 }
{
    let mut total = 0u32;
    for i in 0..bytes.len() {
        total = total.wrapping_add((start + i as u32 + 1) * bytes[i] as u32);
    }
    total
}

/// Two blocks of one length that differ in one byte have different sums.
pub fn one_byte_tells()
    ensures { OneByteTells }
{}
