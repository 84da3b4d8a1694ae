//! A seat, by which one thread takes steps.

ghost use Rattle.std.specs.Prelude.{◌≡◌, ◌+◌, ◌<◌, vec_len};
ghost use mathlib.Core.Option.{some};
ghost use lib.ListN.{get_elem?};
ghost use Rattle.std.specs.Borrow.{sem, Lends};
ghost use Rattle.pool_law.specs.contracts.part.Part.{the_row};
ghost use Rattle.pool_law.specs.declared.part.Part.TheVariants.{Hub, Frame};
ghost use Rattle.latch_table.specs.Lending.{HasFrame, HasHub, IsFrameWith, IsHubWith, with_part};
ghost use Rattle.latch_table.specs.Tables.{IsNumbered, number_of_seat};
ghost use Rattle.latch_table.specs.contracts.seat.Seat.{the_row as seat_row};

use crate::view::View;
use atomic_table::Seat as Raw;
use pool_law::{Law, Part};

/// What one thread knows, and the pieces that it holds. It may move between threads.
#[derive(Drop)]
pub struct Seat<L: Law> {
    // Which seat of its table it is.
    pub(crate) number: u32,
    pub(crate) raw: Raw<Part<L::Hub, L::Frame>, View<L::Hub, L::Frame, L::Note>>,
    // By number, `Gone` where the seat has not held the piece.
    pub(crate) parts: Vec<Part<L::Hub, L::Frame>>,
}

fn hub_of<H, F>(part: &mut Part<H, F>) -> &mut H
    requires { (h : H) × (part.old ≡ Hub h) }
    ensures* lends { sem 𝓛 (Lends (the_row H.row F.row) H.row part.entry result Hub) }
    ensures value { part.old ≡ Hub result.now }
{
    match part {
        Part::Hub(hub) => hub,
        _ => unreachable!(),
    }
}

fn frame_of<H, F>(part: &mut Part<H, F>) -> &mut F
    requires { (f : F) × (part.old ≡ Frame f) }
    ensures* lends { sem 𝓛 (Lends (the_row H.row F.row) F.row part.entry result Frame) }
    ensures value { part.old ≡ Frame result.now }
{
    match part {
        Part::Frame(frame) => frame,
        _ => unreachable!(),
    }
}

impl<L: Law> Seat<L> {
    /// Which seat of its table it is, from 0. O(1).
    pub fn number(&self) -> u32
        requires numbered { IsNumbered self.now }
        ensures { result ≡ number_of_seat self.now }
    {
        self.number
    }

    fn part_mut(&mut self, at: usize) -> &mut Part<L::Hub, L::Frame>
        requires { at < vec_len self.old.parts }
        ensures* writes_back { sem 𝓛 (Lends (seat_row L.row L.Hub.row L.Frame.row L.Note.row) (the_row L.Hub.row L.Frame.row) self.entry result (with_part self.old at)) }
        ensures value { get_elem? self.old.parts.items at ≡ some result.now }
    {
        &mut self.parts[at]
    }

    /// The hub, which this seat holds. O(1).
    pub fn hub_mut(&mut self) -> &mut L::Hub
        requires held { HasHub self.old }
        ensures* writes_back { sem 𝓛 (Lends (seat_row L.row L.Hub.row L.Frame.row L.Note.row) L.Hub.row self.entry result (λ h. with_part self.old 0 (Hub h))) }
        ensures value { IsHubWith self.old result.now }
    {
        hub_of(self.part_mut(0))
    }

    /// The frame `f`, which this seat holds. O(1).
    pub fn frame_mut(&mut self, f: u32) -> &mut L::Frame
        requires held { HasFrame self.old f }
        ensures* writes_back { sem 𝓛 (Lends (seat_row L.row L.Hub.row L.Frame.row L.Note.row) L.Frame.row self.entry result (λ x. with_part self.old (f + 1) (Frame x))) }
        ensures value { IsFrameWith self.old f result.now }
    {
        frame_of(self.part_mut(f as usize + 1))
    }
}
