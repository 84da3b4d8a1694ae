// Leaves that were written since the last completed checkpoint.
ghost use Rattle.std.specs.Prelude.{◌≡◌, ◌∷◌, [], false, IfNone, IfSome, IsTrue, OnErr, OnOk};
ghost use Rattle.ckpt_step.specs.Lives.{has_at, is_live, is_of, lone_at};
ghost use Rattle.ckpt_step.specs.Holding.{gone_at, named_at, put_lone};

use device_layout::Addr;
use failure::NoMemory;
use std::alloc::Global;
use std::collections::BTreeMap;
use std::marker::Model;
use tree_dir::Leaf;

/// Leaves of the directory that were written since the last completed checkpoint, each as one block
/// that it has not. Seen as the list of them, by the offsets of their blocks.
#[derive(Drop)]
pub struct Lives {
    by_offset: BTreeMap<u64, Held>,
}

/// A leaf that was written since the last completed checkpoint.
#[derive(Clone, Copy)]
pub struct Lone {
    /// Its id.
    pub leaf: u64,
    /// Where its block stands.
    pub addr: Addr,
}

// What has the block at an offset.
#[derive(Clone, Copy)]
struct Held {
    leaf: u64,
    size: u32,
    sum: u32,
}

impl Model for Lives {
    ghost use Rattle.std.specs.Prelude.{List};
    ghost use Rattle.ckpt_step.specs.declared.lives.Lone.{Lone as ALone};

    ghost Value = { List ALone };

    ghost use Rattle.ckpt_step.specs.Lives.{lones_in};

    ghost view = { λ l. lones_in l.by_offset.entries };
}

impl Lives {
    /// None. Takes no memory.
    pub fn new(alloc: Global) -> Lives
        ensures { result ≡ [] }
    {
        Lives {
            by_offset: BTreeMap::new(alloc),
        }
    }

    /// Whether a leaf of the directory was written since the last completed checkpoint: at the offset
    /// to which its entry leads stands one of its id. `O(log n)`.
    pub fn is_live(&self, leaf: &Leaf) -> bool
        ensures { result ≡ is_live self.now leaf.now }
    {
        self.has(leaf.entry.link.addr.offset, leaf.id)
    }

    // Whether there is none.
    pub(crate) fn is_empty(&self) -> bool
        ensures yes { IsTrue result → self.now ≡ [] }
        ensures no { result ≡ false → self.now ≡ [] → ⊥ }
    {
        self.by_offset.is_empty()
    }

    // Whether one of this id stands at an offset.
    fn has(&self, offset: u64, leaf: u64) -> bool
        ensures { result ≡ is_of leaf (lone_at self.now offset) }
    {
        match self.by_offset.get(&offset) {
            Some(held) => held.leaf == leaf,
            None => false,
        }
    }

    // Whether the block of one begins at an offset. `O(log n)`.
    pub(crate) fn has_at(&self, offset: u64) -> bool
        ensures { result ≡ has_at self.now offset }
    {
        self.by_offset.contains_key(&offset)
    }

    // The first of them, which is none of them any more. `O(log n)`.
    pub(crate) fn pop(&mut self) -> Option<Lone>
        ensures some { IfSome result (λ l. self.old ≡ l ∷ self.new) }
        ensures none { IfNone result ((self.old ≡ []) × (self.new ≡ [])) }
    {
        let (offset, held) = self.by_offset.pop_first()?;
        let addr = Addr {
            offset,
            size: held.size,
            sum: held.sum,
        };
        Some(Lone {
            leaf: held.leaf,
            addr,
        })
    }

    // One more, whose block stands at an address. Without memory they are as they were. `O(log n)`.
    pub(crate) fn hold(&mut self, leaf: u64, addr: Addr) -> Result<(), NoMemory>
        ensures held { OnOk result (self.new ≡ put_lone (record { leaf = leaf; addr = addr }) self.old) }
        ensures kept { OnErr result (self.new ≡ self.old) }
    {
        let held = Held {
            leaf,
            size: addr.size,
            sum: addr.sum,
        };
        match self.by_offset.insert(addr.offset, held) {
            Ok(_) => Ok(()),
            Err(_) => Err(NoMemory),
        }
    }

    // The one that begins at an offset, if there is one, is of another leaf from now on. `O(log n)`.
    pub(crate) fn name_at(&mut self, offset: u64, leaf: u64)
        ensures { self.new ≡ named_at self.old offset leaf }
    {
        if let Some(held) = self.by_offset.get_mut(&offset) {
            held.leaf = leaf;
        }
    }

    // The one that begins at an offset, if there is one, is none of them any more. `O(log n)`.
    pub(crate) fn drop_at(&mut self, offset: u64)
        ensures { self.new ≡ gone_at self.old offset }
    {
        let _ = self.by_offset.remove(&offset);
    }
}
