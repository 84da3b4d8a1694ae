//! What is made of a leaf.

use item::{Change, Item};
use stamp::{Name, Version};

/// A leaf that is written.
#[derive(Drop)]
pub struct Image {
    /// The least key of its rows.
    pub low: Item,
    /// The bytes of its block: the image, and the zeros that fill it up.
    pub block: Vec<u8>,
    /// The greatest name of a version on it.
    pub greatest: Name,
    /// The greatest durable stamp of a version on it.
    pub durable: u64,
}

/// A version that moves to the history.
#[derive(Drop)]
pub struct Moved {
    pub key: Item,
    pub version: Version<Change>,
}

/// What is made of a leaf.
#[derive(Drop)]
pub struct Made {
    /// The images of its rows, in the order of their keys.
    pub images: Vec<Image>,
    /// The versions that move, by key in ascending order, and of a key newest first.
    pub moved: Vec<Moved>,
}
