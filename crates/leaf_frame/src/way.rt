//! Ways through the keys of a leaf.

#[derive(Clone, Copy)]
pub(crate) enum Way {
    // To greater keys.
    Up,
    // To smaller keys.
    Down,
}
