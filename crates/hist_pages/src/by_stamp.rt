//! The versions of a key in the order of the device.

ghost use Rattle.std.specs.Prelude.{◌≡◌, map, IfOk};
ghost use Rattle.kv_model.specs.Holds.{Descends};
ghost use Rattle.kv_model.specs.Ordered.{Older};
ghost use Rattle.hist_pages.specs.Making.{AreByStamp};
ghost use Rattle.hist_pages.specs.Records.{stamp_cmp};

use failure::NoMemory;
use hist_store::Versions;
use item::Change;
use stamp::Version;
use std::alloc::Global;
use std::cmp::Ordering;

// The versions by commit stamp, then by name, least first. `O(k log k)` with k versions, and one
// allocation of k references.
pub(crate) fn by_stamp<'a>(
    alloc: Global,
    versions: &'a Versions,
) -> Result<Vec<&'a Version<Change>>, NoMemory>
    requires { Descends Older versions.now }
    ensures { IfOk result (λ v. AreByStamp versions.now (map (λ b. b.now) v.items)) }
{
    let mut lent = lent(alloc, versions)?;
    lent.sort_unstable_by(|first, other| compare(first, other));
    Ok(lent)
}

// The versions, newest first.
fn lent<'a>(alloc: Global, versions: &'a Versions) -> Result<Vec<&'a Version<Change>>, NoMemory>
    ensures { IfOk result (λ v. map (λ b. b.now) v.items ≡ versions.now) }
{
    let count = versions.len();
    let mut lent = Vec::with_capacity(alloc, count)?;
    for place in 0..count {
        if let Some(version) = versions.get(place) {
            lent.push_reserved(version);
        }
    }
    Ok(lent)
}

fn compare(first: &Version<Change>, other: &Version<Change>) -> Ordering
    ensures { result ≡ stamp_cmp first.now other.now }
{
    let window = first.window;
    let others = other.window;
    let names = window.name.compare(&others.name);
    window.commit.cmp(&others.commit).then(names)
}
