// Changes of the list of groups. Each either is made whole or, where memory is refused, not at all.
ghost use Rattle.std.specs.Prelude.{◌≡◌, ◌+◌, ◌<◌, ◌≤◌, [], ◌∷◌, ◌++◌, length, IfOk, OnOk, OnErr, vec_len, slice_set, slice_index_or};
ghost use Rattle.std.specs.List.{insert, remove};
ghost use Rattle.ordered_groups.specs.Groups.{lists, group_at, replaced};

use crate::GROUP_MAX;
use std::alloc::{AllocError, Global};

// A new last group with one entry.
pub(crate) fn add_group<T: Copy + Drop>(
    alloc: Global,
    groups: &mut Vec<Vec<T>>,
    entry: T,
) -> Result<(), AllocError>
    ensures ok { OnOk result (lists groups.new.items ≡ lists groups.old.items ++ (entry ∷ []) ∷ []) }
    ensures err { OnErr result (lists groups.new.items ≡ lists groups.old.items) }
{
    let mut group = if groups.is_empty() {
        Vec::new(alloc)
    } else {
        Vec::with_capacity(alloc, GROUP_MAX)?
    };
    group.push(entry)?;
    groups.push(group)?;
    Ok(())
}

// One more entry in a group.
pub(crate) fn put_in<T: Copy + Drop>(
    groups: &mut Vec<Vec<T>>,
    group: usize,
    at: usize,
    entry: T,
) -> Result<(), AllocError>
    requires { (group < vec_len groups.old) × (at ≤ length (group_at (lists groups.old.items) group)) }
    ensures ok { OnOk result (lists groups.new.items ≡ slice_set (lists groups.old.items) group (insert (group_at (lists groups.old.items) group) at entry)) }
    ensures err { OnErr result (lists groups.new.items ≡ lists groups.old.items) }
{
    groups[group].insert(at, entry)?;
    Ok(())
}

// The group with `news` in place of what lies from `at` to `end`.
pub(crate) fn edited<T: Copy + Drop>(
    alloc: Global,
    group: &[T],
    at: usize,
    end: usize,
    news: &[T],
) -> Result<Vec<T>, AllocError>
    requires { (at ≤ end) × (end ≤ length group.now) }
    ensures { IfOk result (λ v. v.items ≡ replaced group.now at end news.now) }
{
    let mut all = Vec::new(alloc);
    all.extend_from_slice(&group[..at])?;
    all.extend_from_slice(news)?;
    all.extend_from_slice(&group[end..])?;
    Ok(all)
}

// The group with one entry more.
pub(crate) fn widened<T: Copy + Drop>(
    alloc: Global,
    group: &[T],
    at: usize,
    entry: T,
) -> Result<Vec<T>, AllocError>
    requires { at ≤ length group.now }
    ensures { IfOk result (λ v. v.items ≡ insert group.now at entry) }
{
    let mut all = Vec::with_capacity(alloc, GROUP_MAX + 1)?;
    all.extend_from_slice(&group[..at])?;
    all.push(entry)?;
    all.extend_from_slice(&group[at..])?;
    Ok(all)
}

// Another group in the place of one.
pub(crate) fn store_one<T: Copy + Drop>(groups: &mut Vec<Vec<T>>, group: usize, edited: Vec<T>)
    requires { group < vec_len groups.old }
    ensures { lists groups.new.items ≡ slice_set (lists groups.old.items) group edited.items }
{
    groups[group] = edited;
}

// Two groups in the place of one.
pub(crate) fn store_two<T: Copy + Drop>(
    groups: &mut Vec<Vec<T>>,
    group: usize,
    lower: Vec<T>,
    upper: Vec<T>,
) -> Result<(), AllocError>
    requires { group < vec_len groups.old }
    ensures ok { OnOk result (lists groups.new.items ≡ slice_set (insert (lists groups.old.items) (group + 1) upper.items) group lower.items) }
    ensures err { OnErr result (lists groups.new.items ≡ lists groups.old.items) }
{
    groups.insert(group + 1, upper)?;
    store_one(groups, group, lower);
    Ok(())
}

// Writes over an entry.
pub(crate) fn write<T: Copy + Drop>(groups: &mut Vec<Vec<T>>, group: usize, at: usize, entry: T)
    requires { (group < vec_len groups.old) × (at < length (group_at (lists groups.old.items) group)) }
    ensures { lists groups.new.items ≡ slice_set (lists groups.old.items) group (slice_set (group_at (lists groups.old.items) group) at entry) }
{
    groups[group][at] = entry;
}

// Takes an entry out of a group.
pub(crate) fn remove_entry<T: Copy + Drop>(groups: &mut Vec<Vec<T>>, group: usize, at: usize) -> T
    requires { (group < vec_len groups.old) × (at < length (group_at (lists groups.old.items) group)) }
    ensures entry { (d : T) → result ≡ slice_index_or (group_at (lists groups.old.items) group) at d }
    ensures after { lists groups.new.items ≡ slice_set (lists groups.old.items) group (remove (group_at (lists groups.old.items) group) at) }
{
    groups[group].remove(at)
}

// Takes a group out that has one entry.
pub(crate) fn remove_group<T: Copy + Drop>(groups: &mut Vec<Vec<T>>, group: usize) -> T
    requires { (group < vec_len groups.old) × (0 < length (group_at (lists groups.old.items) group)) }
    ensures entry { (d : T) → result ≡ slice_index_or (group_at (lists groups.old.items) group) 0 d }
    ensures after { lists groups.new.items ≡ remove (lists groups.old.items) group }
{
    let entry = groups[group][0];
    groups.remove(group);
    entry
}
