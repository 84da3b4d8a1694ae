// Orders over groups that split, and what lies about a gap.
ghost use Rattle.ordered_groups.specs.Places.{IsPlace};
ghost use Rattle.std.specs.Prelude.{IfSome};

use ordered_groups::{OrderedGroups, Place};
use std::alloc::AllocError;
use std::test::Fail;

fn put(all: &mut OrderedGroups<u32>, number: u32) -> Result<(), AllocError> {
    if let Err(gap) = all.find(|x: u32| x.cmp(&number)) {
        all.insert(gap, number)?;
    }
    Ok(())
}

// Whether the entries ascend, and how many there are.
fn goes_up(all: &OrderedGroups<u32>) -> (bool, usize) {
    let mut is_up = true;
    let mut count = 0usize;
    let mut before: Option<u32> = None;
    if let Some(first) = all.first() {
        let mut walk = all.walk(first);
        for _ in 0..5000u32 {
            if let Some(x) = walk.next_entry() {
                is_up = is_up && before < Some(x);
                before = Some(x);
                count = count.wrapping_add(1);
            }
        }
    }
    (is_up, count)
}

fn by_three(all: &mut OrderedGroups<u32>, number: u32) -> Result<(), AllocError> {
    if let Ok(place) = all.find_from_last(|x: u32| x.cmp(&number)) {
        let news = [number, number.wrapping_add(3), number.wrapping_add(6)];
        all.replace(place, &news)?;
    }
    Ok(())
}

fn take_last(all: &mut OrderedGroups<u32>) -> Option<u32> {
    let place = all.last()?;
    Some(all.remove(place))
}

fn entry(all: &OrderedGroups<u32>, place: Option<Place>) -> u32
    requires { IfSome place (λ p. IsPlace all.now p) }
{
    match place {
        None => 0,
        Some(place) => all.get(place),
    }
}

// The entries before and behind the gap of a number that is not there, 0 for none.
fn around(all: &OrderedGroups<u32>, number: u32) -> (u32, u32) {
    match all.find(|x: u32| x.cmp(&number)) {
        Ok(_) => (number, number),
        Err(gap) => (
            entry(all, all.before_gap(gap)),
            entry(all, all.behind_gap(gap)),
        ),
    }
}

#[test]
fn numbers_of_a_shuffle_stand_in_order_and_go_out_from_behind(rt: HostRuntime) -> Result<(), Fail> {
    let mut all = OrderedGroups::new(rt.alloc());
    let mut seed = 1u32;
    for _ in 0..3000u32 {
        seed = seed.wrapping_mul(1_103_515_245).wrapping_add(12_345);
        put(&mut all, seed / 65_536)?;
    }
    let (is_up, count) = goes_up(&all);
    assert!(rt; is_up);
    assert_eq!(rt; count, all.len());
    for _ in 0..3000u32 {
        take_last(&mut all);
    }
    assert_eq!(rt; all.len(), 0);
    Ok(())
}

#[test]
fn an_entry_gives_way_to_several_and_a_gap_has_neighbours(rt: HostRuntime) -> Result<(), Fail> {
    let mut all = OrderedGroups::new(rt.alloc());
    for i in 1..=1000u32 {
        put(&mut all, i * 10)?;
    }
    for (number, before, behind) in [
        (5u32, 0u32, 10u32),
        (15, 10, 20),
        (2565, 2560, 2570),
        (9995, 9990, 10_000),
        (10_005, 10_000, 0),
        (2560, 2560, 2560),
    ] {
        assert_eq!(rt; around(&all, number), (before, behind));
    }
    for i in 1..=1000u32 {
        by_three(&mut all, i * 10)?;
    }
    let (is_up, count) = goes_up(&all);
    assert!(rt; is_up);
    assert_eq!(rt; count, 3000);
    assert_eq!(rt; all.len(), 3000);
    assert_eq!(rt; take_last(&mut all), Some(10_006));
    Ok(())
}
