// The input of a command, taken as a whole.
ghost use Rattle.std.specs.Prelude.{◌≡◌, ◌⊎◌, ◌≤◌, ◌<◌, ◌++◌, ℕ, List, length, IfOk, IfErr, OnErr};
ghost use Rattle.failure.specs.Counts.{Rose};
ghost use Rattle.wt_io.specs.Streams.{AtEnd, Gave};
ghost use Rattle.wt_tool.specs.Inputs.{IsPiece, IsTaken, IsUntaken};

use script_run::{End, INPUT_MAX};
use std::alloc::Global;
use wt_code::Refusal;
use wt_io::Source;

// How much is read at once, in bytes.
const PIECE: usize = 65_536;

// What was taken of an input.
#[derive(Drop)]
pub(crate) struct Taken {
    pub(crate) text: Vec<u8>,
    // Whether it is all of the input.
    pub(crate) ended: bool,
}

// Reads the input to its end, or up to one byte more than its greatest length.
pub(crate) fn take_input<S: Source>(alloc: Global, input: &mut S) -> Result<Taken, End>
    ensures taken { (taken : List ℕ) × Gave (S.left input.old) (S.left input.new) taken × IfOk result (λ t. IsTaken (AtEnd (S.left input.new)) taken t) }
    ensures failed { IfErr result (IsUntaken (Rose (S.fault_count input.old) (S.fault_count input.new))) }
{
    let Ok(mut buffer) = vec![in alloc; 0u8; PIECE] else {
        return Err(End::Stopped(Refusal::NoMemory));
    };
    take_pieces(alloc, input, &mut buffer)
}

// The same, by pieces that fit this buffer.
fn take_pieces<S: Source>(alloc: Global, input: &mut S, buffer: &mut [u8]) -> Result<Taken, End>
    requires { 0 < length buffer.old }
    ensures taken { (taken : List ℕ) × Gave (S.left input.old) (S.left input.new) taken × IfOk result (λ t. IsTaken (AtEnd (S.left input.new)) taken t) }
    ensures failed { IfErr result (IsUntaken (Rose (S.fault_count input.old) (S.fault_count input.new))) }
{
    let mut text = Vec::new(alloc);
    'pieces: while text.len() <= INPUT_MAX as usize {
        let room = INPUT_MAX as usize + 1 - text.len();
        match take_piece(input, buffer, room, &mut text) {
            Ok(0) => return Ok(Taken { text, ended: true }),
            Ok(_) => {}
            Err(end) => return Err(end),
        }
    }
    Ok(Taken { text, ended: false })
}

// Reads a piece of the input behind the text, of so many bytes at most, and gives its length: 0 at
// the end of the input.
fn take_piece<S: Source>(
    input: &mut S,
    buffer: &mut [u8],
    room: usize,
    text: &mut Vec<u8>,
) -> Result<usize, End>
    requires some { 0 < length buffer.old }
    requires room { 0 < room }
    ensures taken { (piece : List ℕ) × Gave (S.left input.old) (S.left input.new) piece × IfOk result (λ n. IsPiece (AtEnd (S.left input.new)) piece n text.old.items text.new.items) }
    ensures failed { IfErr result (IsUntaken (Rose (S.fault_count input.old) (S.fault_count input.new))) }
    ensures later { S.fault_count input.old ≤ S.fault_count input.new }
    ensures within { IfOk result (λ n. n ≤ room) }
{
    let most = room.min(buffer.len());
    let piece = &mut buffer[..most];
    match input.read(piece) {
        Ok(count) => match text.extend_from_slice(&piece[..count]) {
            Ok(_) => Ok(count),
            Err(_) => Err(End::Stopped(Refusal::NoMemory)),
        },
        Err(_) => Err(End::InputFailed),
    }
}
