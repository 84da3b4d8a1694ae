//! What is kept of keys, so that a search compares most of them by one number.

ghost use Rattle.std.specs.Prelude.{◌≡◌, ◌+◌, ◌≤◌, ◌⊎◌, ◌++◌, ◌∷◌, ℕ, [], length, bytes_eq, slice_get, take, IfSome};
ghost use Rattle.std.specs.Slice.Scan.{big_endian};
ghost use Rattle.std.specs.Simd.Lanes.{chunk};
ghost use Rattle.leaf_chains.specs.Heads.{AreHeads, IsHead};
ghost use Rattle.leaf_chains.specs.Slots.{key_at};

use crate::places::key_in;
use crate::slot::KeyChain;
use byte_order::order;
use ordered_groups::OrderedGroups;
use std::alloc::Global;

/// The fewest keys of which heads are kept.
const KEYS_MIN: usize = 16;

/// Heads of the keys in the first slots: the eight bytes behind a front that these keys have in
/// common, as a number. A slot that has none is found all the same.
#[derive(Drop)]
pub(crate) struct Heads {
    // The bytes that these keys begin with.
    front: Vec<u8>,
    // By slot.
    words: Vec<u64>,
}

impl Heads {
    // No heads. Takes no memory.
    pub(crate) fn new(alloc: Global) -> Heads
        ensures { (result.front.items ≡ []) × (result.words.items ≡ []) }
    {
        Heads {
            front: Vec::new(alloc),
            words: Vec::new(alloc),
        }
    }

    // The head of a key, none where it is short or begins otherwise. `O(bytes of the front)`.
    #[inline(always)]
    pub(crate) fn of(&self, key: &[u8]) -> Option<u64>
        ensures { IfSome result (IsHead self.now.front.items key.now) }
    {
        head_of(self.front.as_slice(), key)
    }

    // The head of the key in a slot, where it is kept. `O(1)`.
    #[inline(always)]
    pub(crate) fn at(&self, slot: u32) -> Option<u64>
        ensures { result ≡ slice_get self.now.words.items slot }
    {
        match self.words.get(slot as usize) {
            None => None,
            Some(word) => Some(*word),
        }
    }

    // Keeps the head of the key in the last slot. Where a slot has none, takes another front and
    // the heads of all when their number has doubled. `O(1)`, over many calls.
    #[inline(always)]
    pub(crate) fn keep(&mut self, slots: &[KeyChain], order: &OrderedGroups<u32>, head: Option<u64>)
        requires heads { AreHeads self.old.front.items self.old.words.items slots.now }
        requires last { IfSome head (λ h. (i : ℕ) → length slots.now ≡ i + 1 → IsHead self.old.front.items (key_at slots.now i) h) }
        ensures { AreHeads self.new.front.items self.new.words.items slots.now }
    {
        let count = slots.len();
        if count < KEYS_MIN {
            return;
        }
        if self.words.len() + 1 == count {
            if let Some(head) = head {
                push(&mut self.words, head);
                return;
            }
        }
        if count & (count - 1) == 0 {
            self.renew(slots, order);
        }
    }

    #[inline(never)]
    fn renew(&mut self, slots: &[KeyChain], order: &OrderedGroups<u32>)
        requires { AreHeads self.old.front.items self.old.words.items slots.now }
        ensures { AreHeads self.new.front.items self.new.words.items slots.now }
    {
        let (Some(first), Some(last)) = (order.first(), order.last()) else {
            return;
        };
        let alloc = *self.words.allocator();
        let low = key_in(slots, order.get(first));
        let high = key_in(slots, order.get(last));
        let many = shared(low, high);
        let Ok(front) = Vec::from_slice(alloc, &low[..many]) else {
            return;
        };
        self.front = front;
        fill(&mut self.words, self.front.as_slice(), slots);
    }
}

// One head more, where there is memory for it.
fn push(words: &mut Vec<u64>, head: u64)
    ensures { (words.new.items ≡ words.old.items ++ head ∷ []) ⊎ (words.new.items ≡ words.old.items) }
{
    let _pushed = words.push(head);
}

// The heads of the keys, up to the first that has none.
fn fill(words: &mut Vec<u64>, front: &[u8], slots: &[KeyChain])
    ensures { AreHeads front.now words.new.items slots.now }
{
    words.clear();
    for i in 0..slots.len() {
        let Some(head) = head_of(front, slots[i].key.as_bytes()) else {
            return;
        };
        if let Err(_) = words.push(head) {
            return;
        }
    }
}

// How many bytes both begin with, so that in the first eight are left behind them.
fn shared(a: &[u8], b: &[u8]) -> usize
    ensures { result ≤ length a.now }
{
    let most = a.len().min(b.len()).saturating_sub(8);
    for i in 0..most {
        if a[i] != b[i] {
            return i;
        }
    }
    most
}

#[inline(always)]
fn head_of(front: &[u8], key: &[u8]) -> Option<u64>
    ensures { IfSome result (IsHead front.now key.now) }
{
    let at = front.len();
    if key.len() < 8 || key.len() - 8 < at {
        return None;
    }
    if !begins(key, front) {
        return None;
    }
    Some(word_at(key, at))
}

#[inline(always)]
fn begins(key: &[u8], front: &[u8]) -> bool
    requires { length front.now ≤ length key.now }
    ensures { result ≡ bytes_eq (take (length front.now) key.now) front.now }
{
    order(&key[..front.len()], front).is_eq()
}

// The eight bytes from here on, the first the greatest.
#[inline(always)]
fn word_at(s: &[u8], i: usize) -> u64
    requires { i + 8 ≤ length s.now }
    ensures { result ≡ big_endian 0 (chunk i 8 s.now) }
{
    u64::from_be_bytes([
        s[i],
        s[i + 1],
        s[i + 2],
        s[i + 3],
        s[i + 4],
        s[i + 5],
        s[i + 6],
        s[i + 7],
    ])
}
