//! The single steps on the table that lies below.

ghost use Rattle.std.specs.Prelude.{◌≡◌, ◌+◌, ◌<◌, ◌==◌, false, [], IfErr, IfOk, length};
ghost use mathlib.Core.Option.{none};
ghost use prog.Atomic.{either};
ghost use Rattle.std.specs.Slots.{slots_items, slots_len, IsFull};
ghost use Rattle.pool_law.specs.Asks.{MayTurn};
ghost use Rattle.atomic_table.specs.Table.{step};
ghost use Rattle.latch_table.specs.Seats.{Begins, Covers, IsFirst, Leaves};
ghost use Rattle.latch_table.specs.Rule.{MayGive, gathering, gave, known, maker, moved, next_seat, took};
ghost use Rattle.latch_table.specs.Tables.{pieces_in, shape_of};

use crate::latched::Latched;
use crate::rule::{Gatherer, Give, Maker, Read, Swap, Take, Write};
use crate::view::View;
use atomic_table::{Closed, Refused, Seat as Raw, Table};
use pool_law::{Law, Part, Shape, Turn};
use std::alloc::Global;

pub(crate) type Raws<H, F, N> = Raw<Part<H, F>, View<H, F, N>>;

impl<L: Law> Latched<L> {
    // The table with its first seat, or the pieces again.
    pub(crate) fn open(
        alloc: Global,
        words: &[u64],
        parts: Vec<Part<L::Hub, L::Frame>>,
        shape: Shape,
    ) -> Result<(Latched<L>, Raws<L::Hub, L::Frame, L::Note>), Vec<Part<L::Hub, L::Frame>>>
        requires { Begins (L.start shape) shape.seats L.joint words.now parts.items }
        ensures table { IfOk result (λ r. (shape_of r.0 ≡ shape) × (pieces_in r.0 ≡ length parts.items)) }
        ensures words { IfOk result (λ r. r.0.table.shared.table_id.words ≡ length words.now) }
        ensures first { IfOk result (λ r. IsFirst (L.start shape 0) shape r.0.table.shared.table_id r.1) }
        ensures err { IfErr result (λ p. p.items ≡ parts.items) }
    {
        match Table::new(alloc, words, parts, &shape) {
            Ok((table, seat)) => Ok((Latched { table }, seat)),
            Err(Refused { slots }) => Err(slots),
        }
    }

    // The next seat, made by the first.
    pub(crate) fn make_seat(
        &self,
        first: &mut Raws<L::Hub, L::Frame, L::Note>,
    ) -> Raws<L::Hub, L::Frame, L::Note>
        requires table { (first.old.table_id ≡ self.now.table.shared.table_id) × (0 < self.now.table.shared.table_id.words) × (first.old.id ≡ 0) }
        requires shape { first.old.me.0.shape ≡ self.now.table.shared.key }
        requires seat { (first.old.me.0.spent ≡ false) × (first.old.me.0.made < self.now.table.shared.key.seats) }
        ensures first { (first.new.table_id ≡ first.old.table_id) × (first.new.id ≡ 0) × (first.new.me ≡ (maker first.old.me.0, first.old.me.1)) }
        ensures made { (result.table_id ≡ first.old.table_id) × (result.me ≡ (next_seat (L.start self.now.table.shared.key) first.old.me.0, [])) }
    {
        self.table.shared.split_seat::<Maker<L>>(first)
    }

    // The slots at the end, once all seats are in one.
    pub(crate) fn finish(
        self,
        first: Raws<L::Hub, L::Frame, L::Note>,
    ) -> Closed<Part<L::Hub, L::Frame>, Global>
        requires table { first.table_id ≡ self.table.shared.table_id }
        requires seat { (first.me.0.spent ≡ false) × (first.me.0.held ≡ []) }
        requires all { Covers self.table.shared.key.seats first.me.0 }
        ensures full { IsFull result.slots × IsFull result.words }
        ensures counts { (slots_len result.words ≡ self.table.shared.table_id.words) × (slots_len result.slots ≡ self.table.shared.table_id.slots) }
        ensures leaves { Leaves L.joint first.me.0 (slots_items result.words) (slots_items result.slots) }
    {
        let Latched { table } = self;
        table.close_with(first)
    }

    // One seat takes in another, which holds nothing.
    pub(crate) fn absorb(
        &self,
        first: &mut Raws<L::Hub, L::Frame, L::Note>,
        other: Raws<L::Hub, L::Frame, L::Note>,
    )
        requires table { (first.old.table_id ≡ self.now.table.shared.table_id) × (other.table_id ≡ self.now.table.shared.table_id) }
        requires words { 0 < self.now.table.shared.table_id.words }
        requires seats { (first.old.me.0.spent ≡ false) × (other.me.0.spent ≡ false) × (other.me.0.held ≡ []) × (other.me.1 ≡ []) }
        ensures same { (first.new.table_id ≡ first.old.table_id) × (first.new.id ≡ first.old.id) }
        ensures gathered { first.new.me ≡ (gathering first.old.me.0 other.me.0, first.old.me.1) }
    {
        self.table.shared.join_seat::<Gatherer<L>>(first, other);
    }

    // The latch word goes from free to held, and the slot to the seat; or it was held.
    pub(crate) fn take(&self, seat: &mut Raws<L::Hub, L::Frame, L::Note>, at: usize) -> u64
        requires table { seat.old.table_id ≡ self.now.table.shared.table_id }
        requires place { (at < self.now.table.shared.table_id.slots) × (at < self.now.table.shared.table_id.words) }
        requires seat { (seat.old.me.0.spent ≡ false) × L.may_latch (known seat.old.me.0) at }
        ensures same { (seat.new.table_id ≡ seat.old.table_id) × (seat.new.id ≡ seat.old.id) }
        ensures took { took L.told (step self.now.table.shared.table_id.slots at 0 1 none) seat.old.me result seat.new.me }
    {
        self.table
            .shared
            .compare_exchange::<Take<L>>(seat, at, 0, 1)
    }

    // The latch word goes from held to free, and the slot home.
    pub(crate) fn give(&self, seat: &mut Raws<L::Hub, L::Frame, L::Note>, at: usize)
        requires table { seat.old.table_id ≡ self.now.table.shared.table_id }
        requires place { (at < self.now.table.shared.table_id.slots) × (at < self.now.table.shared.table_id.words) }
        requires seat { seat.old.me.0.spent ≡ false }
        requires puts { MayGive L.puts at seat.old.me }
        ensures same { (seat.new.table_id ≡ seat.old.table_id) × (seat.new.id ≡ seat.old.id) }
        ensures gave { gave L.puts (step self.now.table.shared.table_id.slots at 0 0 none) seat.old.me 0 seat.new.me }
    {
        self.table.shared.store::<Give<L>>(seat, at, 0)
    }

    // A further word is read.
    pub(crate) fn load_at<M: Turn<L>>(
        &self,
        seat: &mut Raws<L::Hub, L::Frame, L::Note>,
        at: usize,
        word: u32,
    ) -> u64
        requires table { seat.old.table_id ≡ self.now.table.shared.table_id }
        requires place { (at ≡ self.now.table.shared.table_id.slots + word) × (at < self.now.table.shared.table_id.words) }
        requires seat { seat.old.me.0.spent ≡ false }
        requires turns { MayTurn L.finds M.turns (known seat.old.me.0) word (λ r. r) }
        ensures same { (seat.new.table_id ≡ seat.old.table_id) × (seat.new.id ≡ seat.old.id) }
        ensures moved { moved L.finds M.turns (λ st r. r) (step self.now.table.shared.table_id.slots at 0 0 none) seat.old.me result seat.new.me }
    {
        self.table.shared.load::<Read<L, M>>(seat, at)
    }

    // A further word is written.
    pub(crate) fn store_at<M: Turn<L>>(
        &self,
        seat: &mut Raws<L::Hub, L::Frame, L::Note>,
        at: usize,
        word: u32,
        value: u64,
    ) -> u64
        requires table { seat.old.table_id ≡ self.now.table.shared.table_id }
        requires place { (at ≡ self.now.table.shared.table_id.slots + word) × (at < self.now.table.shared.table_id.words) }
        requires seat { seat.old.me.0.spent ≡ false }
        requires turns { MayTurn L.finds M.turns (known seat.old.me.0) word (λ r. value) }
        ensures same { (seat.new.table_id ≡ seat.old.table_id) × (seat.new.id ≡ seat.old.id) }
        ensures moved { moved L.finds M.turns (λ st r. st.first) (step self.now.table.shared.table_id.slots at value 0 none) seat.old.me result seat.new.me }
    {
        self.table.shared.swap::<Write<L, M>>(seat, at, value)
    }

    // A further word is written where it is as expected.
    pub(crate) fn swap_at<M: Turn<L>>(
        &self,
        seat: &mut Raws<L::Hub, L::Frame, L::Note>,
        at: usize,
        word: u32,
        old: u64,
        new: u64,
    ) -> u64
        requires table { seat.old.table_id ≡ self.now.table.shared.table_id }
        requires place { (at ≡ self.now.table.shared.table_id.slots + word) × (at < self.now.table.shared.table_id.words) }
        requires seat { seat.old.me.0.spent ≡ false }
        requires turns { MayTurn L.finds M.turns (known seat.old.me.0) word (λ r. either (r == old) new r) }
        ensures same { (seat.new.table_id ≡ seat.old.table_id) × (seat.new.id ≡ seat.old.id) }
        ensures moved { moved L.finds M.turns (λ st r. either (r == st.first) st.second r)
            (step self.now.table.shared.table_id.slots at old new none) seat.old.me result seat.new.me }
    {
        self.table
            .shared
            .compare_exchange::<Swap<L, M>>(seat, at, old, new)
    }
}
