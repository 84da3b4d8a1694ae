// What a crash leaves of a disk in memory, chosen by a number.
ghost use Rattle.std.specs.Prelude.{◌≡◌, ◌≤◌, ◌+◌, IfOk, length};
ghost use Rattle.disk_model.specs.Disk.{Torn};
ghost use Rattle.disk_model.specs.Images.{MayLeave, Leaves};

use crate::Call;
use crate::content::{content_with, overwrite};
use failure::NoMemory;
use std::alloc::Global;

// What a crash leaves of a write, by a digit of the number.
const OUTCOMES: u64 = 8;

// A byte of what was never written.
const GARBAGE: u8 = 0xa5;

// An image that a crash may leave. Each write since the last sync takes a digit of the number,
// the first write the lowest one.
pub(crate) fn image_of(
    alloc: Global,
    first: &[u8],
    calls: &[Call],
    pick: u64,
) -> Result<Vec<u8>, NoMemory>
    ensures { IfOk result (λ v. MayLeave first.now calls.now v.items) }
{
    let mut content = Vec::from_slice(alloc, first)?;
    let mut image = Vec::from_slice(alloc, first)?;
    let mut digits = pick;
    for call in calls {
        image = image_after(alloc, &content, image, call, digits % OUTCOMES)?;
        content = content_with(content, call)?;
        digits = digits_after(call, digits, pick);
    }
    Ok(image)
}

// The digits that are left after a call.
fn digits_after(call: &Call, digits: u64, pick: u64) -> u64 {
    match call {
        Call::Wrote(_, _) => digits / OUTCOMES,
        Call::Missed(_, _) => digits / OUTCOMES,
        Call::Synced => pick,
        Call::Looked(_) => digits,
    }
}

fn image_after(
    alloc: Global,
    content: &[u8],
    image: Vec<u8>,
    call: &Call,
    outcome: u64,
) -> Result<Vec<u8>, NoMemory>
    ensures { IfOk result (λ v. Leaves content.now call.now image.items v.items) }
{
    match call {
        Call::Wrote(at, bytes) => torn(alloc, image, *at as usize, bytes, outcome),
        Call::Missed(at, bytes) => torn(alloc, image, *at as usize, bytes, outcome),
        Call::Synced => Ok(Vec::from_slice(alloc, content)?),
        Call::Looked(_) => Ok(image),
    }
}

// An image after a write that a crash cut short: 0 nothing of it, 1 all, 2 its first half,
// 3 other bytes, 4 its second half, 5 other bytes in all of it but the last byte, 6 another byte
// at its start, 7 the length that it makes and none of its bytes.
fn torn(
    alloc: Global,
    image: Vec<u8>,
    at: usize,
    bytes: &[u8],
    outcome: u64,
) -> Result<Vec<u8>, NoMemory>
    ensures { IfOk result (λ v. Torn at (length bytes.now) image.items v.items) }
{
    if bytes.len() > usize::MAX - at {
        return Ok(image);
    }
    let half = bytes.len() / 2;
    let part = match outcome {
        0 => return Ok(image),
        1 => return patched(image, at, bytes),
        2 => return patched(image, at, &bytes[..half]),
        3 => bytes.len(),
        4 => return patched(image, at + half, &bytes[half..]),
        5 => bytes.len().saturating_sub(1),
        6 => bytes.len().min(1),
        _ => return patched(image, at + bytes.len(), &[]),
    };
    let mut other = Vec::new(alloc);
    other.resize(part, GARBAGE)?;
    patched(image, at, &other)
}

// The image with a part at an offset. Where the image ends before it, zeros lie between.
fn patched(image: Vec<u8>, at: usize, part: &[u8]) -> Result<Vec<u8>, NoMemory>
    ensures { IfOk result (λ v. Torn at (length part.now) image.items v.items) }
{
    let mut next = image;
    if at <= next.len() {
        overwrite(&mut next, at, part)?;
    } else {
        next.resize(at, 0)?;
        next.extend_from_slice(part)?;
    }
    Ok(next)
}
