// The content of a disk in memory.
ghost use Rattle.std.specs.Prelude.{◌≡◌, ◌+◌, ◌≤◌, ◌++◌, IfOk, OnOk, OnErr, length, take, drop, vec_len};
ghost use Rattle.disk_model.specs.Disk.{put};
ghost use Rattle.disk_model.specs.Images.{content_after};

use crate::Call;
use failure::NoMemory;

// The content after a call.
pub(crate) fn content_with(content: Vec<u8>, call: &Call) -> Result<Vec<u8>, NoMemory>
    ensures { IfOk result (λ v. v.items ≡ content_after content.items call.now) }
{
    let mut next = content;
    match call {
        Call::Wrote(at, bytes) => {
            let at = *at as usize;
            if at <= next.len() {
                overwrite(&mut next, at, bytes)?;
            } else {
                next.extend_from_slice(bytes)?;
            }
            Ok(next)
        }
        Call::Missed(_, _) => Ok(next),
        Call::Synced => Ok(next),
        Call::Looked(_) => Ok(next),
    }
}

// Writes bytes over others, and past their end. Where memory is too short, they are as they were.
pub(crate) fn overwrite(bytes: &mut Vec<u8>, at: usize, other: &[u8]) -> Result<(), NoMemory>
    requires { at ≤ vec_len bytes.old }
    ensures ok { OnOk result (bytes.new.items ≡ put bytes.old.items at other.now) }
    ensures err { OnErr result (bytes.new.items ≡ bytes.old.items) }
{
    let inside = other.len().min(bytes.len() - at);
    bytes.extend_from_slice(&other[inside..])?;
    copy_to(bytes, at, &other[..inside]);
    Ok(())
}

// Writes bytes over as many others.
fn copy_to(bytes: &mut [u8], at: usize, other: &[u8])
    requires { at + length other.now ≤ length bytes.old }
    ensures { bytes.new ≡ put bytes.old at other.now }
{
    bytes[at..at + other.len()].copy_from_slice(other);
}
