// Halving, by a comparison that the caller gives.
ghost use Rattle.std.specs.Prelude.{◌≡◌, ◌-◌, ◌<◌, ◌≤◌, length};
ghost use Rattle.std.specs.List.{HoldsAt};
ghost use Rattle.std.specs.declared.cmp.Ordering.{Ordering};
ghost use Rattle.ordered_groups.specs.Groups.{entries, lists, group_at, AreSound, before};
ghost use Rattle.ordered_groups.specs.Places.{Answers, BelowAlong, NotBelowAt, EndsNotBelow};

use std::cmp::Ordering;

// The last entry of a group.
#[inline(always)]
fn last_of<T: Copy + Drop>(groups: &[Vec<T>], group: usize) -> T
    requires within { group < length groups.now }
    requires sound { AreSound 256 (lists groups.now) }
    ensures { HoldsAt (λ y. result ≡ y) (group_at (lists groups.now) group) (length (group_at (lists groups.now) group) - 1) }
{
    let entries = groups[group].as_slice();
    entries[entries.len() - 1]
}

// How many groups have a last entry that is below what is looked for.
pub(crate) fn group_of<T: Copy + Drop, F: Fn(T) -> Ordering>(groups: &[Vec<T>], order: &F) -> usize
    requires callable { F.IsAlwaysCallable order.now }
    requires sound { AreSound 256 (lists groups.now) }
    ensures bound { result ≤ length groups.now }
    ensures below { (ord : T → Ordering) → Answers F.Fn order.now ord → BelowAlong ord (entries (lists groups.now)) (before (lists groups.now) result) }
    ensures here { (ord : T → Ordering) → Answers F.Fn order.now ord → EndsNotBelow ord (lists groups.now) result }
{
    let mut low = 0;
    let mut high = groups.len();
    while low < high {
        let middle = low + (high - low) / 2;
        let entry = last_of(groups, middle);
        if order(entry).is_lt() {
            low = middle + 1;
        } else {
            high = middle;
        }
    }
    low
}

// How many entries of a group, the last left out, are below what is looked for.
pub(crate) fn within<T: Copy + Drop, F: Fn(T) -> Ordering>(group: &[T], order: &F) -> usize
    requires callable { F.IsAlwaysCallable order.now }
    requires some { 0 < length group.now }
    ensures bound { result < length group.now }
    ensures below { (ord : T → Ordering) → Answers F.Fn order.now ord → BelowAlong ord group.now result }
    ensures here { (ord : T → Ordering) → Answers F.Fn order.now ord → NotBelowAt ord group.now result }
{
    let mut low = 0;
    let mut high = group.len() - 1;
    while low < high {
        let middle = low + (high - low) / 2;
        let entry = group[middle];
        if order(entry).is_lt() {
            low = middle + 1;
        } else {
            high = middle;
        }
    }
    low
}
