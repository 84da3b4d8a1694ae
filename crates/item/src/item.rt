// Byte strings.

ghost use Rattle.std.proofs.Common.{rules};
ghost use Rattle.std.specs.Prelude.{◌≡◌, List, ℕ, ◌≤◌, IfOk, IsTrue, OnErr, OnOk, ◌↔◌, ◌==◌, length, vec_capacity};
ghost use Rattle.std.specs.Cmp.{partial_order_from_own_ties};
ghost use Rattle.std.specs.Cmp.Lexicographic.{pointwise, slice_cmp};
ghost use Rattle.std.specs.Cmp.Rules.{comparing};
ghost use Rattle.std.specs.Ordering.{as_partial_cmp, nat_cmp};

use byte_order::order;
use failure::NoMemory;
use std::cmp::Ordering;
use std::marker::Model;

/// A key or a value as stored: a byte string.
#[derive(Drop)]
pub struct Item {
    bytes: Vec<u8>,
}

impl Model for Item {
    ghost Value = { List ℕ };

    ghost view = { λ i. i.bytes.items };
}

impl Item {
    /// The item of these bytes. Takes no memory.
    pub fn new(bytes: Vec<u8>) -> Item
        ensures { result ≡ bytes.items }
    {
        Item { bytes }
    }

    /// Has these bytes from now on, in place of its own. Takes memory where it has no room for them;
    /// where that is short, nothing is changed.
    #[inline(always)]
    pub fn set(&mut self, bytes: &[u8]) -> Result<(), NoMemory>
        ensures set { OnOk result (self.new ≡ bytes.now) }
        ensures kept { OnErr result (self.new ≡ self.old) }
    {
        self.bytes.reserve(bytes.len())?;
        fill(&mut self.bytes, bytes);
        Ok(())
    }

    /// Its bytes, lent.
    pub fn as_bytes(&self) -> &[u8]
        ensures { result.now ≡ self.now }
    {
        self.bytes.as_slice()
    }

    /// Its length in bytes.
    pub fn len(&self) -> usize
        ensures { result ≡ length self.now }
    {
        self.bytes.len()
    }

    /// Whether it has no bytes.
    pub fn is_empty(&self) -> bool
        ensures { IsTrue result ↔ (length self.now ≡ 0) }
    {
        self.bytes.is_empty()
    }

    /// A second item of the same bytes. One allocation.
    pub fn copy(&self) -> Result<Item, NoMemory>
        ensures { IfOk result (λ r. r ≡ self.now) }
    {
        Ok(Item {
            bytes: self.bytes.clone()?,
        })
    }

    /// Whether both have the same bytes.
    pub fn same(&self, other: &Item) -> bool
        ensures { IsTrue result ↔ (self.now ≡ other.now) }
    {
        self.bytes == other.bytes
    }

    /// Orders as unsigned bytes, a proper prefix first. `O(bytes in common)`, eight at a time.
    pub fn compare(&self, other: &Item) -> Ordering
        ensures { result ≡ slice_cmp nat_cmp self.now other.now }
    {
        order(self.as_bytes(), other.as_bytes())
    }
}

// These bytes in place of what the buffer has, which has room for them.
#[inline(always)]
fn fill(buffer: &mut Vec<u8>, bytes: &[u8])
    requires { length bytes.now ≤ vec_capacity buffer.old }
    ensures { buffer.new.items ≡ bytes.now }
{
    buffer.clear();
    let _filled = buffer.extend_from_slice(bytes);
}

impl PartialEq for Item {
    ghost eq = { pointwise ◌==◌ };

    ghost laws = { Prim.search (comparing, rules) };

    fn eq(&self, other: &Item) -> bool {
        self.same(other)
    }
}

impl Eq for Item {
    ghost laws = { Prim.search (comparing, rules) };
}

impl Ord for Item {
    ghost cmp = { slice_cmp nat_cmp };

    ghost total = { Prim.search (comparing, rules) };

    ghost matches_partial_cmp = { Prim.search (comparing, rules) };

    ghost matches_eq = { Prim.search (comparing, rules) };

    fn cmp(&self, other: &Item) -> Ordering {
        self.compare(other)
    }
}

impl PartialOrd for Item {
    ghost partial_cmp = { as_partial_cmp (slice_cmp nat_cmp) };

    ghost laws = { partial_order_from_own_ties (Prim.search (comparing, rules)) (Prim.search (comparing, rules)) };

    fn partial_cmp(&self, other: &Item) -> Option<Ordering> {
        Some(self.cmp(other))
    }
}
