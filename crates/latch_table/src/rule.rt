//! The rule of the table that lies below, and what its steps tell.

ghost use Rattle.std.specs.Prelude.{◌==◌};
ghost use prog.Atomic.{either};
ghost use Rattle.latch_table.specs.Rule.{Stands, gathering, gave, gone_seat, maker, moved, newcomer, next_seat, took};

use crate::view::View;
use atomic_table::{Join, Play, Split, TableRule};
use pool_law::{Law, Part, Shape, Turn};
use std::marker::PhantomData;

pub(crate) struct Ruled<L> {
    law: PhantomData<L>,
}

impl<L: Law> TableRule<Part<L::Hub, L::Frame>, View<L::Hub, L::Frame, L::Note>, Shape>
    for Ruled<L> {
    ghost holds = { λ shape. Stands (L.start shape) shape.seats L.joint };

    ghost first = { λ shape. newcomer (L.start shape 0) shape 0 1 };
}

// A latch word goes from free to held, or was held.
pub(crate) struct Take<L> {
    law: PhantomData<L>,
}

impl<L: Law> Play<Part<L::Hub, L::Frame>, View<L::Hub, L::Frame, L::Note>> for Take<L> {
    ghost then = { took L.told };
}

// A latch word goes from held to free.
pub(crate) struct Give<L> {
    law: PhantomData<L>,
}

impl<L: Law> Play<Part<L::Hub, L::Frame>, View<L::Hub, L::Frame, L::Note>> for Give<L> {
    ghost then = { gave L.puts };
}

// A further word is read.
pub(crate) struct Read<L, M> {
    law: PhantomData<(L, M)>,
}

impl<L: Law, M: Turn<L>> Play<Part<L::Hub, L::Frame>, View<L::Hub, L::Frame, L::Note>>
    for Read<L, M> {
    ghost then = { moved L.finds M.turns (λ st r. r) };
}

// A further word is written.
pub(crate) struct Write<L, M> {
    law: PhantomData<(L, M)>,
}

impl<L: Law, M: Turn<L>> Play<Part<L::Hub, L::Frame>, View<L::Hub, L::Frame, L::Note>>
    for Write<L, M> {
    ghost then = { moved L.finds M.turns (λ st r. st.first) };
}

// A further word is written where it is as expected.
pub(crate) struct Swap<L, M> {
    law: PhantomData<(L, M)>,
}

impl<L: Law, M: Turn<L>> Play<Part<L::Hub, L::Frame>, View<L::Hub, L::Frame, L::Note>>
    for Swap<L, M> {
    ghost then = { moved L.finds M.turns (λ st r. either (r == st.first) st.second r) };
}

// The first seat makes the others.
pub(crate) struct Maker<L> {
    law: PhantomData<L>,
}

impl<L: Law> Split<View<L::Hub, L::Frame, L::Note>> for Maker<L> {
    ghost left = { maker };

    ghost right = { λ v. next_seat (L.start v.shape) v };
}

// One seat takes in the others at the end.
pub(crate) struct Gatherer<L> {
    law: PhantomData<L>,
}

impl<L: Law> Join<View<L::Hub, L::Frame, L::Note>> for Gatherer<L> {
    ghost both = { gathering };

    ghost spent = { gone_seat (L.start (record { frames = 0; seats = 0 }) 0) };
}
