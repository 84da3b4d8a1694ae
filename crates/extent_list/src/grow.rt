// More units at the end.
ghost use Rattle.std.specs.Prelude.{◌≡◌, ◌+◌, ◌<◌, ◌≤◌, ◌^◌, ◌++◌, ◌-◌, vec_capacity, OnOk, OnErr, false, length, replicate};
ghost use Rattle.extent_list.specs.Units.{Summed};

use crate::bounds::GROUP;
use failure::NoMemory;

// So many units behind the last one, in use.
pub(crate) fn grow(
    units: &mut Vec<bool>,
    groups: &mut Vec<u16>,
    regions: &mut Vec<u16>,
    areas: &mut Vec<u16>,
    count: usize,
) -> Result<(), NoMemory>
    requires small { length units.old.items + count + 2 < 2 ^ 52 }
    requires summed { Summed units.old.items groups.old.items regions.old.items areas.old.items }
    ensures more { OnOk result (units.new.items ≡ units.old.items ++ replicate count false) }
    ensures err { OnErr result (units.new.items ≡ units.old.items) }
    ensures summed { Summed units.new.items groups.new.items regions.new.items areas.new.items }
{
    let total = units.len() + count;
    let group_count = (total + GROUP - 1) / GROUP;
    let region_count = (group_count + GROUP - 1) / GROUP;
    let area_count = (region_count + GROUP - 1) / GROUP;
    groups.reserve(group_count - groups.len())?;
    regions.reserve(region_count - regions.len())?;
    areas.reserve(area_count - areas.len())?;
    units.resize(total, false)?;
    fill_up(groups, group_count);
    fill_up(regions, region_count);
    fill_up(areas, area_count);
    Ok(())
}

// Bounds of nothing free behind the last one, for which there is memory.
fn fill_up(bounds: &mut Vec<u16>, total: usize)
    requires more { length bounds.old.items ≤ total }
    requires room { total ≤ vec_capacity bounds.old }
    ensures { bounds.new.items ≡ bounds.old.items ++ replicate (total - length bounds.old.items) 0 }
{
    let _done = bounds.resize(total, 0);
}
