// Brackets that nest.
ghost use Rattle.std.specs.Prelude.{◌≡◌, ◌≤◌, ◌∷◌, [], length, reverse, IfOk, IfSome, Some, None, if◌then◌else◌, false};
ghost use Rattle.config_text.specs.Reading.{closed_by, closing_len, nest_step};

use std::alloc::{AllocError, Global};

// How deep a place in a text is.
#[derive(Drop)]
struct Nest {
    // Whether a quoted text began and has not ended.
    quoted: bool,
    // The closing brackets that are awaited, the next one last.
    awaited: Vec<u8>,
}

impl Nest {
    // Takes one byte more: false where it is a closing bracket that is not the next one.
    fn take(&mut self, b: u8) -> Result<bool, AllocError>
        ensures { IfOk result (λ fits. nest_step self.old.quoted (reverse self.old.awaited.items) b ≡ (if fits then Some (record { quoted = self.new.quoted; awaited = reverse self.new.awaited.items }) else None)) }
    {
        if self.quoted {
            self.quoted = b != b'"';
            return Ok(true);
        }
        match b {
            b'"' => self.quoted = true,
            b'(' => self.awaited.push(b')')?,
            b'[' => self.awaited.push(b']')?,
            b')' | b']' => return Ok(self.close(b)),
            _ => {}
        }
        Ok(true)
    }

    fn close(&mut self, b: u8) -> bool
        requires { self.old.quoted ≡ false }
        ensures { closed_by (reverse self.old.awaited.items) b ≡ (if result then Some (record { quoted = self.new.quoted; awaited = reverse self.new.awaited.items }) else None) }
    {
        self.awaited.pop() == Some(b)
    }
}

// How many bytes there are up to the closing bracket, with it, where the opening one is read. None
// where it does not come, or where brackets or quotes inside do not close.
pub(crate) fn closing_len(
    alloc: Global,
    text: &[u8],
    close: u8,
) -> Result<Option<usize>, AllocError>
    ensures len { IfOk result (λ n. n ≡ closing_len false (close ∷ []) text.now) }
    ensures within { IfOk result (λ n. IfSome n (λ k. k ≤ length text.now)) }
{
    let mut nest = Nest {
        quoted: false,
        awaited: Vec::new(alloc),
    };
    nest.awaited.push(close)?;
    for (i, b) in text.iter().enumerate() {
        if !nest.take(*b)? {
            return Ok(None);
        }
        if nest.awaited.is_empty() {
            return Ok(Some(i + 1));
        }
    }
    Ok(None)
}
