// The bytes of a slot.
ghost use Rattle.std.specs.Prelude.{◌≡◌, ◌↔◌, ◌<◌, ◌^◌, IsTrue, IfOk, IfErr, length};
ghost use Rattle.turtle.specs.Slots.{slot_image, fields_of, IsSequence, StandsAt, IsOutOfForm};

use crate::place::OPEN;
use device_layout::Slot;
use le_codec::{number_4, number_8};
use limits::NUMBER_MAX;

/// An open slot whose bytes are not those of a slot.
#[derive(Clone, Copy)]
pub(crate) struct OutOfForm;

/// The bytes of a slot behind its gate.
pub(crate) fn body_of(slot: Slot) -> [u8; 35]
    ensures spelled { result ≡ slot_image slot }
    ensures fits { (slot.offset < 2 ^ 64) × (slot.size < 2 ^ 32) × (slot.sum < 2 ^ 32) }
{
    let mut body = [0; 35];
    body[..7].copy_from_slice(b"WTTURTL");
    body[7..11].copy_from_slice(&1u32.to_le_bytes());
    body[11..19].copy_from_slice(&slot.sequence.to_le_bytes());
    body[19..27].copy_from_slice(&slot.offset.to_le_bytes());
    body[27..31].copy_from_slice(&slot.size.to_le_bytes());
    body[31..35].copy_from_slice(&slot.sum.to_le_bytes());
    body
}

/// The slot of these 36 bytes; None where its gate is shut.
pub(crate) fn slot_of(text: &[u8; 36]) -> Result<Option<Slot>, OutOfForm>
    ensures slot { IfOk result (λ slot. StandsAt text.now 0 slot) }
    ensures out_of_form { IfErr result (λ _. IsOutOfForm text.now 0) }
{
    if text[0] != OPEN {
        return Ok(None);
    }
    let slot = fields(&text[1..]);
    if is_spelled(slot, &text[1..]) {
        Ok(Some(slot))
    } else {
        Err(OutOfForm)
    }
}

// Whether this is the spelling of a slot, and its sequence is one.
fn is_spelled(slot: Slot, body: &[u8]) -> bool
    ensures { IsTrue result ↔ ((body.now ≡ slot_image slot) × IsSequence slot.sequence) }
{
    let spelling = body_of(slot);
    body == spelling.as_slice() && 1 <= slot.sequence && slot.sequence <= NUMBER_MAX
}

// The fields behind the magic and the version.
fn fields(body: &[u8]) -> Slot
    requires { length body.now ≡ 35 }
    ensures { result ≡ fields_of body.now }
{
    Slot {
        sequence: number_8(&body[11..19]),
        offset: number_8(&body[19..27]),
        size: number_4(&body[27..31]),
        sum: number_4(&body[31..35]),
    }
}
