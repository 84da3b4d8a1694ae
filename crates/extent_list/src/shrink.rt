// Fewer units at the end.
ghost use Rattle.std.specs.Prelude.{◌≡◌, ◌≤◌, length, take};
ghost use Rattle.extent_list.specs.Units.{Summed};

use crate::bounds::GROUP;

// Leaves the first so many units.
pub(crate) fn shrink(
    units: &mut Vec<bool>,
    groups: &mut Vec<u16>,
    regions: &mut Vec<u16>,
    areas: &mut Vec<u16>,
    total: usize,
)
    requires fewer { total ≤ length units.old.items }
    requires summed { Summed units.old.items groups.old.items regions.old.items areas.old.items }
    ensures first { units.new.items ≡ take total units.old.items }
    ensures summed { Summed units.new.items groups.new.items regions.new.items areas.new.items }
{
    let group_count = (total + GROUP - 1) / GROUP;
    let region_count = (group_count + GROUP - 1) / GROUP;
    let area_count = (region_count + GROUP - 1) / GROUP;
    units.truncate(total);
    groups.truncate(group_count);
    regions.truncate(region_count);
    areas.truncate(area_count);
}
