//! What the calls on words answer.

/// The frame is pinned, or its state word was another: `seen` is what it was.
#[derive(Drop)]
pub enum Pinning {
    Pinned,
    Again { seen: u64 },
}

/// The frame was empty, or its state word was another.
#[derive(Drop)]
pub enum Looking {
    Empty,
    Again { seen: u64 },
}

/// The frame is locked, or its state word was another.
#[derive(Drop)]
pub enum Locking {
    Locked,
    Again { seen: u64 },
}

/// The hazard word did not name the frame, or it did: then whose word it is.
#[derive(Drop)]
pub enum Scanning {
    Clear,
    Pinned(u32),
}
