// Items written as escape texts.
ghost use Rattle.std.specs.Prelude.{◌≡◌, ◌≢◌, ◌++◌, ◌∷◌, [], ◌<◌, ◌≤◌, length, take, false, IsTrue, OnErr, OnOk};
ghost use Rattle.std.specs.List.{AllByRecursion};
ghost use Rattle.item.specs.Escapes.{digit, escape_byte, escaped};
ghost use Rattle.dump_text.specs.Written.{HasMore};

use std::alloc::AllocError;
use std::simd::prelude::*;

fn digit_of(number: u8) -> u8
    requires { number < 16 }
    ensures { result ≡ digit number }
{
    if number < 10 {
        48 + number
    } else {
        87 + number
    }
}

// How many bytes at the front are their own escapes: 32 at a time, then 8 at a time, and one at a time
// from the first 8 on that have another.
fn plain_front(bytes: &[u8]) -> usize
    ensures within { result ≤ length bytes.now }
    ensures plain { escaped (take result bytes.now) ≡ take result bytes.now }
{
    let (chunks, _) = bytes.as_chunks::<32>();
    let mut front = 0;
    for chunk in chunks {
        if !is_plain(chunk) {
            return plain_past(bytes, front);
        }
        front += 32;
    }
    plain_past(bytes, front)
}

// The same, where so many are known to be, 8 at a time.
fn plain_past(bytes: &[u8], known: usize) -> usize
    requires within { known ≤ length bytes.now }
    requires plain { escaped (take known bytes.now) ≡ take known bytes.now }
    ensures within { result ≤ length bytes.now }
    ensures plain { escaped (take result bytes.now) ≡ take result bytes.now }
{
    let (_, rest) = bytes.split_at(known);
    known + plain_eights(rest)
}

// The same, where none is known to be.
fn plain_eights(bytes: &[u8]) -> usize
    ensures within { result ≤ length bytes.now }
    ensures plain { escaped (take result bytes.now) ≡ take result bytes.now }
{
    let (chunks, _) = bytes.as_chunks::<8>();
    let mut front = 0;
    for chunk in chunks {
        if !are_plain(chunk) {
            return plain_from(bytes, front);
        }
        front += 8;
    }
    plain_from(bytes, front)
}

// The same, where so many are known to be, one at a time.
fn plain_from(bytes: &[u8], known: usize) -> usize
    requires within { known ≤ length bytes.now }
    requires plain { escaped (take known bytes.now) ≡ take known bytes.now }
    ensures within { result ≤ length bytes.now }
    ensures plain { escaped (take result bytes.now) ≡ take result bytes.now }
{
    for i in known..bytes.len() {
        if is_escaped(bytes[i]) {
            return i;
        }
    }
    bytes.len()
}

// Whether a byte is not its own escape.
fn is_escaped(b: u8) -> bool
    ensures { result ≡ false → escape_byte b ≡ b ∷ [] }
{
    b < 32 || b > 126 || b == b'\\'
}

// Whether each byte of a chunk is its own escape.
fn is_plain(chunk: &[u8; 32]) -> bool
    ensures { IsTrue result → escaped chunk.now ≡ chunk.now }
{
    let bytes = u8x32::from_array(*chunk);
    if !none_below(bytes, 32) {
        return false;
    }
    if !none_above(bytes, 126) {
        return false;
    }
    none_is(bytes, b'\\')
}

#[inline(always)]
fn none_below(bytes: u8x32, least: u8) -> bool
    ensures { IsTrue result → AllByRecursion (λ b. least ≤ b) bytes }
{
    bytes.simd_lt(u8x32::splat(least)).to_bitmask() == 0
}

#[inline(always)]
fn none_above(bytes: u8x32, most: u8) -> bool
    ensures { IsTrue result → AllByRecursion (λ b. b ≤ most) bytes }
{
    bytes.simd_gt(u8x32::splat(most)).to_bitmask() == 0
}

#[inline(always)]
fn none_is(bytes: u8x32, byte: u8) -> bool
    ensures { IsTrue result → AllByRecursion (λ b. b ≢ byte) bytes }
{
    bytes.simd_eq(u8x32::splat(byte)).to_bitmask() == 0
}

// Whether each of 8 bytes is its own escape.
fn are_plain(chunk: &[u8; 8]) -> bool
    ensures { IsTrue result → escaped chunk.now ≡ chunk.now }
{
    let bytes = u8x8::from_array(*chunk);
    if !eight_not_below(bytes, 32) {
        return false;
    }
    if !eight_not_above(bytes, 126) {
        return false;
    }
    eight_are_not(bytes, b'\\')
}

#[inline(always)]
fn eight_not_below(bytes: u8x8, least: u8) -> bool
    ensures { IsTrue result → AllByRecursion (λ b. least ≤ b) bytes }
{
    bytes.simd_lt(u8x8::splat(least)).to_bitmask() == 0
}

#[inline(always)]
fn eight_not_above(bytes: u8x8, most: u8) -> bool
    ensures { IsTrue result → AllByRecursion (λ b. b ≤ most) bytes }
{
    bytes.simd_gt(u8x8::splat(most)).to_bitmask() == 0
}

#[inline(always)]
fn eight_are_not(bytes: u8x8, byte: u8) -> bool
    ensures { IsTrue result → AllByRecursion (λ b. b ≢ byte) bytes }
{
    bytes.simd_eq(u8x8::splat(byte)).to_bitmask() == 0
}

// Puts bytes behind what is written, where there are any.
#[inline(always)]
fn put(out: &mut Vec<u8>, bytes: &[u8]) -> Result<(), AllocError>
    ensures items { OnOk result (out.new.items ≡ out.old.items ++ bytes.now) }
    ensures same { OnErr result (out.new.items ≡ out.old.items) }
{
    if bytes.is_empty() {
        return Ok(());
    }
    out.extend_from_slice(bytes)
}

fn push_escape(out: &mut Vec<u8>, b: u8) -> Result<(), AllocError>
    ensures escape { OnOk result (out.new.items ≡ out.old.items ++ escape_byte b) }
    ensures same { OnErr result (out.new.items ≡ out.old.items) }
{
    if b == b'\\' {
        out.extend_from_slice(b"\\\\")
    } else if b >= 32 && b <= 126 {
        out.extend_from_slice(&[b])
    } else {
        out.extend_from_slice(&[b'\\', digit_of(b / 16), digit_of(b % 16)])
    }
}

// Puts the escapes of bytes behind what is written; where memory is wanted, a part of them.
pub(crate) fn push_escaped(out: &mut Vec<u8>, bytes: &[u8]) -> Result<(), AllocError>
    ensures text { OnOk result (out.new.items ≡ out.old.items ++ escaped bytes.now) }
    ensures more { HasMore out.old.items out.new.items }
{
    let mut rest = bytes;
    'runs: loop {
        let (front, others) = rest.split_at(plain_front(rest));
        put(out, front)?;
        match others.split_first() {
            None => return Ok(()),
            Some((b, behind)) => {
                push_escape(out, *b)?;
                rest = behind;
            }
        }
    }
}
