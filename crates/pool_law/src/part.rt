//! A piece by value.

/// The hub, a frame, or nothing in the place of one that is out.
#[derive(Drop)]
pub enum Part<H, F> {
    Hub(H),
    Frame(F),
    Gone,
}
