// Searches that leave out what a bound says is too short, and lower a bound that is too high.
ghost use Rattle.std.specs.Prelude.{◌≡◌, ◌+◌, ◌*◌, ◌<◌, ◌≤◌, ◌^◌, IfOk, IfErr, IfSome, None, ℕ, length};
ghost use Rattle.extent_list.specs.Units.{IsLowest, Misses, Bounds, Grouped, Summed, Run};

use crate::scan::lowest_within;

// Units of a group, groups of a region, and regions of an area.
pub(crate) const GROUP: usize = 64;

// Longer runs count as this long.
pub(crate) const LONG: usize = 256;

// A length as a bound.
fn bound_of(length: usize) -> u16
    ensures most { result ≤ 256 }
    ensures short { result ≤ length }
    ensures whole { length ≤ 256 → result ≡ length }
    ensures long { 256 ≤ length → result ≡ 256 }
{
    if length < LONG { length as u16 } else { 256 }
}

// The lowest start of `count` free units among those of one group.
pub(crate) fn in_group(
    units: &[bool],
    groups: &mut Vec<u16>,
    g: usize,
    count: usize,
) -> Result<usize, usize>
    requires some { 1 ≤ count }
    requires few { count < 2 ^ 62 }
    requires small { length groups.old.items < 2 ^ 50 }
    requires within { g < length groups.old.items }
    requires bounds { Bounds 64 units.now groups.old.items }
    ensures found { IfOk result (IsLowest units.now (64 * g) (64 * (g + 1)) count) }
    ensures none { IfErr result (Misses units.now (64 * g) (64 * (g + 1)) count) }
    ensures bounds { Bounds 64 units.now groups.new.items }
    ensures len { length groups.new.items ≡ length groups.old.items }
{
    let bound = groups[g] as usize;
    if bound < count.min(LONG) {
        return Err(bound);
    }
    match lowest_within(units, GROUP * g, GROUP * (g + 1), count) {
        Ok(a) => Ok(a),
        Err(longest) => {
            groups[g] = bound_of(longest);
            Err(longest)
        }
    }
}

// The same among the units of the groups of a range.
pub(crate) fn in_groups(
    units: &[bool],
    groups: &mut Vec<u16>,
    from: usize,
    to: usize,
    count: usize,
) -> Result<usize, usize>
    requires some { 1 ≤ count }
    requires few { count < 2 ^ 62 }
    requires small { length groups.old.items < 2 ^ 50 }
    requires order { from ≤ to }
    requires within { to ≤ length groups.old.items }
    requires bounds { Bounds 64 units.now groups.old.items }
    ensures found { IfOk result (IsLowest units.now (64 * from) (64 * to) count) }
    ensures none { IfErr result (Misses units.now (64 * from) (64 * to) count) }
    ensures bounds { Bounds 64 units.now groups.new.items }
    ensures len { length groups.new.items ≡ length groups.old.items }
{
    let mut longest = 0;
    for g in from..to {
        match in_group(units, groups, g, count) {
            Ok(a) => return Ok(a),
            Err(length) => longest = longest.max(length),
        }
    }
    Err(longest)
}

// The lowest start of `count` free units among those of one region.
pub(crate) fn in_region(
    units: &[bool],
    groups: &mut Vec<u16>,
    regions: &mut Vec<u16>,
    r: usize,
    count: usize,
) -> Result<usize, usize>
    requires some { 1 ≤ count }
    requires few { count < 2 ^ 62 }
    requires within { r < length regions.old.items }
    requires grouped { Grouped units.now groups.old.items regions.old.items }
    ensures found { IfOk result (IsLowest units.now (4096 * r) (4096 * (r + 1)) count) }
    ensures none { IfErr result (Misses units.now (4096 * r) (4096 * (r + 1)) count) }
    ensures grouped { Grouped units.now groups.new.items regions.new.items }
    ensures len { length regions.new.items ≡ length regions.old.items }
{
    let bound = regions[r] as usize;
    if bound < count.min(LONG) {
        return Err(bound);
    }
    let to = groups.len().min(GROUP * (r + 1));
    match in_groups(units, groups, GROUP * r, to, count) {
        Ok(a) => Ok(a),
        Err(longest) => {
            regions[r] = bound_of(longest);
            Err(longest)
        }
    }
}

// The same among the units of the regions of a range.
pub(crate) fn in_regions(
    units: &[bool],
    groups: &mut Vec<u16>,
    regions: &mut Vec<u16>,
    from: usize,
    to: usize,
    count: usize,
) -> Result<usize, usize>
    requires some { 1 ≤ count }
    requires few { count < 2 ^ 62 }
    requires order { from ≤ to }
    requires within { to ≤ length regions.old.items }
    requires grouped { Grouped units.now groups.old.items regions.old.items }
    ensures found { IfOk result (IsLowest units.now (4096 * from) (4096 * to) count) }
    ensures none { IfErr result (Misses units.now (4096 * from) (4096 * to) count) }
    ensures grouped { Grouped units.now groups.new.items regions.new.items }
    ensures len { length regions.new.items ≡ length regions.old.items }
{
    let mut longest = 0;
    for r in from..to {
        match in_region(units, groups, regions, r, count) {
            Ok(a) => return Ok(a),
            Err(length) => longest = longest.max(length),
        }
    }
    Err(longest)
}

// The lowest start of `count` free units among those of one area.
pub(crate) fn in_area(
    units: &[bool],
    groups: &mut Vec<u16>,
    regions: &mut Vec<u16>,
    areas: &mut Vec<u16>,
    index: usize,
    count: usize,
) -> Result<usize, usize>
    requires some { 1 ≤ count }
    requires few { count < 2 ^ 62 }
    requires within { index < length areas.old.items }
    requires summed { Summed units.now groups.old.items regions.old.items areas.old.items }
    ensures found { IfOk result (IsLowest units.now (262144 * index) (262144 * (index + 1)) count) }
    ensures none { IfErr result (Misses units.now (262144 * index) (262144 * (index + 1)) count) }
    ensures summed { Summed units.now groups.new.items regions.new.items areas.new.items }
    ensures len { length areas.new.items ≡ length areas.old.items }
{
    let bound = areas[index] as usize;
    if bound < count.min(LONG) {
        return Err(bound);
    }
    let to = regions.len().min(GROUP * (index + 1));
    match in_regions(units, groups, regions, GROUP * index, to, count) {
        Ok(a) => Ok(a),
        Err(longest) => {
            areas[index] = bound_of(longest);
            Err(longest)
        }
    }
}

// The lowest unit from which `count` are free.
pub(crate) fn in_areas(
    units: &[bool],
    groups: &mut Vec<u16>,
    regions: &mut Vec<u16>,
    areas: &mut Vec<u16>,
    count: usize,
) -> Option<usize>
    requires some { 1 ≤ count }
    requires few { count < 2 ^ 62 }
    requires summed { Summed units.now groups.old.items regions.old.items areas.old.items }
    ensures found { IfSome result (λ a. Run units.now a count × ((c : ℕ) → Run units.now c count → a ≤ c)) }
    ensures none { result ≡ None → (c : ℕ) → Run units.now c count → ⊥ }
    ensures summed { Summed units.now groups.new.items regions.new.items areas.new.items }
{
    for index in 0..areas.len() {
        if let Ok(a) = in_area(units, groups, regions, areas, index, count) {
            return Some(a);
        }
    }
    None
}
