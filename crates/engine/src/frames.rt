// Frames, and the leaves that come into them. A function calls the laws that its proof rests on,
// which do nothing.

ghost use Rattle.std.specs.Prelude.{◌≡◌, ◌<◌, ◌+◌, ◌^◌, [], false, length, option_map, vec_capacity, vec_len, IfOk, IfSome, IsTrue, OnErr, OnOk};
ghost use Rattle.reconcile.specs.Capture.{ChainsFit};
ghost use Rattle.engine_world.specs.Coming.{ComesFrom};
ghost use Rattle.engine_world.specs.Leaves.{frame_in, generation_at};
ghost use Rattle.engine_world.specs.Stands.{Stands};
ghost use Rattle.engine_world.specs.Worlds.{World, without_records};
ghost use Rattle.engine.specs.Frames.{IsBare, IsFilled, piece_of, put_at};
ghost use Rattle.engine.specs.Sound.{IsSound};
ghost use Rattle.engine.specs.Waits.{IsAway};

use crate::parts::Parts;
use call_steps::{Frame, FramePiece, filled};
use engine_world::{frames_grow, leaves_come};
use failure::NoMemory;
use leaf_frame::LeafFrame;
use tree_dir::Framed;

// How many frames there may be: each has a number of 32 bits.
const FRAMES_MAX: usize = u32::MAX as usize;

// Generations are below this.
const GENERATIONS: u64 = 1 << 62;

impl Parts {
    /// The leaf of this id comes into a frame that has none, with the rows of its block, and with what
    /// the history keeps of it.
    pub(crate) fn fill(&mut self, leaf: u64, page: LeafFrame) -> Result<(), NoMemory>
        requires away { IsAway self.old.hub.dir.leaves leaf }
        requires fit { ChainsFit page.chains }
        requires sound { IsSound self.old }
        ensures stands { (w : World) → Stands self.old w → ComesFrom page (w.shelf leaf) (w.records leaf) → OnOk result (Stands self.new (without_records leaf w)) }
        ensures filled { OnOk result (IsFilled self.old self.new leaf page) }
        ensures run { self.new.hub.txns.run ≡ self.old.hub.txns.run }
        ensures fault { self.new.hub.fault ≡ self.old.hub.fault }
        ensures tables { self.new.hub.tables ≡ self.old.hub.tables }
        ensures sessions { self.new.sessions ≡ self.old.sessions }
        ensures systems { self.new.systems ≡ self.old.systems }
        ensures kept { OnErr result (self.new ≡ self.old) }
        ensures sound { IsSound self.new }
    {
        frames_grow();
        leaves_come();
        let table = match self.hub.dir.leaf(leaf) {
            None => return Err(NoMemory),
            Some(there) => there.table,
        };
        let frame = frame_for_one(&mut self.pieces, &mut self.states, &mut self.bare)?;
        let generation = generation_at(&self.pieces, frame);
        self.hub
            .dir
            .set_frame(leaf, Some(Framed { frame, generation }));
        // What holds of every directory holds of this one.
        self.hub.dir.stands();
        put(
            &mut self.pieces,
            frame,
            piece_of(generation, table, leaf, page),
        );
        put(&mut self.states, frame, filled(generation));
        Ok(())
    }

    /// The leaf in a frame.
    pub(crate) fn leaf_in(&self, frame: u32) -> Option<&LeafFrame>
        ensures { option_map (λ leaf. leaf.now) result ≡ option_map (λ f. f.leaf) (frame_in self.now.pieces frame) }
    {
        let piece = self.pieces.get(frame as usize)?;
        match &piece.frame {
            None => None,
            Some(frame) => Some(&frame.leaf),
        }
    }
}

// The number of a frame that has no leaf: one of those that are noted, where such a one is still bare,
// or else of a frame more, for which there is room.
fn frame_for_one(
    pieces: &mut Vec<FramePiece>,
    states: &mut Vec<u64>,
    noted: &mut Vec<u32>,
) -> Result<u32, NoMemory>
    ensures bare { IfOk result (λ frame. IsBare pieces.old.items frame) }
    ensures piece { OnOk result (vec_len pieces.new < vec_capacity pieces.new) }
    ensures word { OnOk result (vec_len states.new < vec_capacity states.new) }
    ensures pieces { pieces.new.items ≡ pieces.old.items }
    ensures states { states.new.items ≡ states.old.items }
{
    let frame = room_for_one(pieces, states)?;
    match noted.pop() {
        Some(bare) if is_bare(pieces, bare) => Ok(bare),
        _ => Ok(frame),
    }
}

// Whether the frame is there and has no leaf.
fn is_bare(pieces: &[FramePiece], frame: u32) -> bool
    ensures yes { IsTrue result → IsBare pieces.now frame }
{
    match pieces.get(frame as usize) {
        None => false,
        Some(piece) => piece.frame.is_none(),
    }
}

// Puts an item at its place, or behind the others, for which there is room.
fn put<T: Drop>(items: &mut Vec<T>, place: u32, item: T)
    requires room { vec_len items.old < vec_capacity items.old }
    ensures { items.new.items ≡ put_at items.old.items place item }
{
    match items.get_mut(place as usize) {
        Some(there) => *there = item,
        None => items.push_reserved(item),
    }
}

// Room for a frame more, and its number.
pub(crate) fn room_for_one(
    pieces: &mut Vec<FramePiece>,
    states: &mut Vec<u64>,
) -> Result<u32, NoMemory>
    ensures number { IfOk result (λ frame. frame ≡ length pieces.old.items) }
    ensures piece { OnOk result (length pieces.new.items < vec_capacity pieces.new) }
    ensures word { OnOk result (length states.new.items < vec_capacity states.new) }
    ensures pieces { pieces.new.items ≡ pieces.old.items }
    ensures states { states.new.items ≡ states.old.items }
{
    let count = pieces.len();
    if count > FRAMES_MAX {
        return Err(NoMemory);
    }
    pieces.reserve(1)?;
    states.reserve(1)?;
    Ok(count as u32)
}

// The generation of a frame; that of one more is the first.
pub(crate) fn generation_at(pieces: &[FramePiece], frame: u32) -> u64
    ensures { result ≡ generation_at pieces.now frame }
{
    match pieces.get(frame as usize) {
        None => 0,
        Some(piece) => piece.generation,
    }
}

// Whether another leaf may come into the frame after its own.
pub(crate) fn has_next(pieces: &[FramePiece], frame: u32) -> bool
    ensures yes { IsTrue result → generation_at pieces.now frame + 1 < 2 ^ 62 }
    ensures no { result ≡ false → generation_at pieces.now frame + 1 < 2 ^ 62 → ⊥ }
{
    generation_at(pieces, frame) < GENERATIONS - 1
}

// The piece of a frame that has the leaf of this id, at this generation.
pub(crate) fn piece_of(generation: u64, table: u32, id: u64, leaf: LeafFrame) -> FramePiece
    ensures { result ≡ piece_of generation table id leaf }
{
    FramePiece {
        generation,
        frame: Some(Frame { table, id, leaf }),
    }
}
