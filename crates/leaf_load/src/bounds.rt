//! The keys of a page, between two others.

ghost use Rattle.std.specs.Prelude.{option_map, IsTrue, None, Some, ◌↔◌};
ghost use Rattle.row_page.specs.Rows.{Ascends};
ghost use Rattle.recover_open.specs.Leaves.{IsFrom, IsUpTo};
ghost use Rattle.leaf_load.specs.Loads.{AreBetween};

use byte_order::order;
use row_page::Leaf;

/// Whether the keys, which ascend, are from low up to high, where there is one. `O(1)`
/// comparisons.
pub(crate) fn are_between(low: &[u8], high: Option<&[u8]>, leaf: &Leaf) -> bool
    requires { Ascends None leaf.now }
    ensures { let next = option_map (λ k. k.now) high.entry in IsTrue result ↔ AreBetween low.now next leaf.now }
{
    begin_from(low, leaf) && stay_below(high, leaf)
}

// Whether no key, of those that ascend, is below this one.
fn begin_from(low: &[u8], leaf: &Leaf) -> bool
    requires { Ascends None leaf.now }
    ensures { IsTrue result ↔ IsFrom low.now leaf.now }
{
    if leaf.is_empty() {
        return true;
    }
    !order(leaf.key(0), low).is_lt()
}

// Whether the keys, which ascend, are below this one, where there is one.
fn stay_below(high: Option<&[u8]>, leaf: &Leaf) -> bool
    requires { Ascends None leaf.now }
    ensures { let next = option_map (λ k. k.now) high.entry in IsTrue result ↔ IsUpTo next leaf.now }
{
    match high {
        Some(next) => end_below(next, leaf),
        None => true,
    }
}

// Whether the keys, which ascend, are below this one.
fn end_below(next: &[u8], leaf: &Leaf) -> bool
    requires { Ascends None leaf.now }
    ensures { IsTrue result ↔ IsUpTo (Some next.now) leaf.now }
{
    if leaf.is_empty() {
        return true;
    }
    order(leaf.key(leaf.len() - 1), next).is_lt()
}
