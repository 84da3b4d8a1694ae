//! What a seat knows.

use pool_law::{Part, Shape};
use std::collections::LinkedList;

// The note of a seat, and the pieces that it holds, each as it was when it was taken, the one
// taken last first. `made` counts the seats where this one made the others, `gathered` has the
// notes of those that it took in at the end. No value of it is made.
pub(crate) struct View<H, F, N> {
    pub(crate) note: N,
    pub(crate) held: LinkedList<(u32, Part<H, F>)>,
    pub(crate) seat: u32,
    pub(crate) made: u32,
    pub(crate) shape: Shape,
    pub(crate) gathered: LinkedList<(u32, N)>,
    pub(crate) spent: bool,
}
