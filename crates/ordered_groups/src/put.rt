// Entries put into the groups, which split where they are full.
ghost use Rattle.std.specs.Prelude.{◌≡◌, ◌+◌, ◌<◌, ◌≤◌, length, IfOk, OnErr, vec_len};
ghost use Rattle.std.specs.List.{remove};
ghost use Rattle.ordered_groups.specs.Groups.{entries, lists, AreSound};
ghost use Rattle.ordered_groups.specs.Places.{rank, IsEntryAt, IsPlace, IsGap, IsPut, IsReplaced, IsStored};

use crate::edit::{
    add_group, edited, put_in, remove_entry, remove_group, store_one, store_two, widened,
};
use crate::{GROUP_MAX, Place};
use std::alloc::AllocError;

// Puts the list in the place of a group: as it is, or in two halves.
fn store<T: Copy + Drop>(
    groups: &mut Vec<Vec<T>>,
    group: usize,
    at: usize,
    mut all: Vec<T>,
) -> Result<Place, AllocError>
    requires group { group < vec_len groups.old }
    requires sound { AreSound 256 (lists groups.old.items) }
    requires at { at < vec_len all }
    requires len { vec_len all ≤ 384 }
    ensures ok { IfOk result (IsStored (lists groups.old.items) group at all.items (lists groups.new.items)) }
    ensures err { OnErr result (lists groups.new.items ≡ lists groups.old.items) }
{
    if all.len() <= GROUP_MAX {
        store_one(groups, group, all);
        return Ok(Place { group, at });
    }
    let half = all.len() / 2;
    let upper = all.split_off(half)?;
    store_two(groups, group, all, upper)?;
    Ok(if at < half {
        Place { group, at }
    } else {
        Place {
            group: group + 1,
            at: at - half,
        }
    })
}

// Puts an entry before the one at the place.
pub(crate) fn put_at<T: Copy + Drop>(
    groups: &mut Vec<Vec<T>>,
    place: Place,
    entry: T,
) -> Result<Place, AllocError>
    requires gap { IsGap (lists groups.old.items) place }
    requires sound { AreSound 256 (lists groups.old.items) }
    ensures sound { AreSound 256 (lists groups.new.items) }
    ensures ok { IfOk result (IsPut (lists groups.old.items) place entry (lists groups.new.items)) }
    ensures err { OnErr result (lists groups.new.items ≡ lists groups.old.items) }
{
    let Place { group, at } = place;
    let alloc = *groups.allocator();
    let count = groups.len();
    if group == count {
        add_group(alloc, groups, entry)?;
        return Ok(Place { group, at: 0 });
    }
    let len = groups[group].len();
    if len < GROUP_MAX {
        put_in(groups, group, at, entry)?;
        return Ok(place);
    }
    if at == len && group + 1 == count {
        add_group(alloc, groups, entry)?;
        return Ok(Place {
            group: group + 1,
            at: 0,
        });
    }
    let all = widened(alloc, &groups[group], at, entry)?;
    store(groups, group, at, all)
}

// Some entries in the place of one.
pub(crate) fn replace_at<T: Copy + Drop>(
    groups: &mut Vec<Vec<T>>,
    place: Place,
    news: &[T],
) -> Result<Place, AllocError>
    requires place { IsPlace (lists groups.old.items) place }
    requires sound { AreSound 256 (lists groups.old.items) }
    requires some { 0 < length news.now }
    requires few { length news.now ≤ 128 }
    ensures sound { AreSound 256 (lists groups.new.items) }
    ensures ok { IfOk result (IsReplaced (lists groups.old.items) place news.now (lists groups.new.items)) }
    ensures err { OnErr result (lists groups.new.items ≡ lists groups.old.items) }
{
    let Place { group, at } = place;
    let alloc = *groups.allocator();
    let all = edited(alloc, &groups[group], at, at + 1, news)?;
    store(groups, group, at, all)
}

// Takes an entry out, and its group where that is then empty.
pub(crate) fn take_at<T: Copy + Drop>(groups: &mut Vec<Vec<T>>, place: Place) -> T
    requires place { IsPlace (lists groups.old.items) place }
    requires sound { AreSound 256 (lists groups.old.items) }
    ensures sound { AreSound 256 (lists groups.new.items) }
    ensures entry { IsEntryAt (lists groups.old.items) place result }
    ensures after { entries (lists groups.new.items) ≡ remove (entries (lists groups.old.items)) (rank (lists groups.old.items) place) }
{
    if groups[place.group].len() == 1 {
        remove_group(groups, place.group)
    } else {
        remove_entry(groups, place.group, place.at)
    }
}
