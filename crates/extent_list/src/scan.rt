// Walks over the flags of units.
ghost use Rattle.std.specs.Prelude.{◌≡◌, ◌+◌, ◌-◌, ◌<◌, ◌≤◌, ◌^◌, IfOk, IfErr, IsTrue, ℕ, false, length, slice_index_or};
ghost use Rattle.extent_list.specs.Units.{IsLowest, Misses, FreeBefore, FreeBehind, Reaches, Run};

use crate::bounds::LONG;

// How far a run is followed on each side.
const NEAR: usize = 32;

// The lowest unit from `from` on and before `to` from which `count` units are free; else how long
// the longest run is that begins there.
pub(crate) fn lowest_within(
    units: &[bool],
    from: usize,
    to: usize,
    count: usize,
) -> Result<usize, usize>
    requires some { 1 ≤ count }
    requires order { from < to }
    requires sum { to + count < 2 ^ 64 }
    ensures found { IfOk result (IsLowest units.now from to count) }
    ensures none { IfErr result (λ w. Misses units.now from to count w × (w < count)) }
{
    let stop = units.len().min(to + count - 1);
    let mut run = 0;
    let mut longest = 0;
    for i in from..stop {
        if units[i] {
            run += 1;
            if run == count {
                return Ok(i + 1 - count);
            }
        } else {
            if longest < run {
                longest = run;
            }
            run = 0;
        }
    }
    if longest < run {
        return Err(run);
    }
    Err(longest)
}

// Whether all units of a range are free.
pub(crate) fn are_free(units: &[bool], from: usize, to: usize) -> bool
    requires order { from ≤ to }
    requires within { to ≤ length units.now }
    ensures all { IsTrue result → Run units.now from (to - from) }
    ensures one { result ≡ false → (u : ℕ) × (from ≤ u) × (u < to) × (slice_index_or units.now u false ≡ false) }
{
    for u in from..to {
        if !units[u] {
            return false;
        }
    }
    true
}

// Where runs begin at the earliest that reach into a range of units, and how long they are at most,
// counted up to 256. `O(1)`.
pub(crate) fn reach(units: &[bool], at: usize, stop: usize) -> (usize, usize)
    requires order { at < stop }
    requires within { stop ≤ length units.now }
    ensures reaches { Reaches units.now at stop result.0 result.1 }
    ensures first { result.0 ≤ at }
    ensures most { result.1 ≤ 256 }
{
    let first = free_before(units, at);
    let last = free_behind(units, stop);
    if at - first >= NEAR {
        return (at.saturating_sub(LONG - 1), LONG);
    }
    if last - stop >= NEAR {
        return (first, LONG);
    }
    (first, LONG.min(last - first))
}

// Where the free units before this one begin, followed over 32 units at most.
fn free_before(units: &[bool], at: usize) -> usize
    requires { at ≤ length units.now }
    ensures { FreeBefore units.now at result }
{
    let mut start = at;
    while start > 0 && at - start < NEAR && units[start - 1] {
        start -= 1;
    }
    start
}

// Where the free units from this one on end, followed over 32 units at most.
fn free_behind(units: &[bool], at: usize) -> usize
    requires { at ≤ length units.now }
    ensures { FreeBehind units.now at result }
{
    let mut stop = at;
    while stop < units.len() && stop - at < NEAR && units[stop] {
        stop += 1;
    }
    stop
}
