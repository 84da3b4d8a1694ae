// What there is to be read of a device.
ghost use Rattle.std.specs.Prelude.{◌≡◌, ℕ, List};
ghost use Rattle.device_layout.specs.declared.addr.Addr.{Addr as StoredAddr};
ghost use Rattle.stored.specs.Records.{Root as StoredRoot};
ghost use Rattle.stored.specs.Tree.{bottom, inner_blocks};
ghost use Rattle.stored.specs.TableTree.{Entry as StoredEntry, TableTree, table_kind};
ghost use Rattle.tree_open.specs.Trees.{HasTree, InnerIs, places, root_own};

/// Where a device has a tree, the entries of its leaves are there to be read, and where its inner
/// pages stand: so where damage is told, the device has no tree of this root.
pub fn a_tree_is_read()
    ensures { (bytes : List ℕ) (root : StoredRoot) (t : TableTree) → HasTree bytes root t → InnerIs bytes root (bottom (root_own root) t.layers) (places (inner_blocks table_kind (root_own root) t.layers)) }
{}

/// A root leads to the entries of one tree at most, whose inner pages stand in one place.
pub fn one_tree()
    ensures { (bytes : List ℕ) (root : StoredRoot) (es other : List StoredEntry) (addrs others : List StoredAddr) → InnerIs bytes root es addrs → InnerIs bytes root other others → (es ≡ other) × (addrs ≡ others) }
{}
