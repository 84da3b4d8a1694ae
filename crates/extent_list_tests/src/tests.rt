// A thousand takes and gives, beside a plain set of units.
ghost use Rattle.std.specs.Prelude.{◌≤◌, IsTrue};
ghost use Rattle.extent_list.specs.Space.{IsHeld, IsPlace, IsWhole};

use extent_list::Extents;

// Bytes of a unit.
const UNIT: u64 = 4096;

// Which of the first 64 units are free, and how many are in use or free.
#[derive(Drop)]
struct Plain {
    free: [bool; 64],
    end: u64,
}

impl Plain {
    // Where the lowest free run of so many units begins, or else the end.
    fn lowest(&self, count: u64) -> u64 {
        let mut run: u64 = 0;
        for (unit, is_free) in self.free.iter().enumerate() {
            run = if *is_free { run.saturating_add(1) } else { 0 };
            if run == count {
                return (unit as u64 + 1).saturating_sub(count);
            }
        }
        self.end
    }

    fn mark(&mut self, unit: u64, count: u64, is_free: bool) {
        let after = unit.saturating_add(count);
        for k in 0..64 {
            if unit <= k as u64 && (k as u64) < after {
                self.free[k] = is_free;
            }
        }
        self.end = self.end.max(after);
    }

    fn agrees(&self, extents: &Extents) -> bool {
        for k in 0..64 {
            if extents.holds(k as u64 * UNIT + 5) != self.free[k] {
                return false;
            }
        }
        extents.end() == self.end.saturating_mul(UNIT)
    }
}

// The next of a sequence that looks like chance.
fn next(seed: &mut u64) -> u64 {
    *seed = seed
        .wrapping_mul(6364136223846793005)
        .wrapping_add(1442695040888963407);
    *seed >> 33
}

fn may_be_given(extents: &Extents, at: u64, size: u64) -> bool
    ensures some { IsTrue result → 1 ≤ size }
    ensures whole { IsTrue result → IsWhole size }
    ensures place { IsTrue result → IsPlace extents.now at size }
    ensures held { IsTrue result → IsHeld extents.now at size }
{
    let end = extents.end();
    if size == 0 || size % UNIT != 0 || at % UNIT != 0 || at < 2 * UNIT || end < at {
        return false;
    }
    if end - at < size {
        return false;
    }
    for b in at..at + size {
        if extents.holds(b) {
            return false;
        }
    }
    true
}

fn takes_as_told(extents: &mut Extents, size: u64, want: Option<u64>) -> bool
    requires some { 1 ≤ size }
    requires whole { IsWhole size }
{
    let spot = extents.find(size, 64 * UNIT);
    match extents.take(size, 64 * UNIT) {
        Ok(taken) => taken == want && spot == want,
        Err(_) => false,
    }
}

#[test]
fn a_thousand_takes_and_gives_agree_with_a_plain_set(rt: HostRuntime) {
    let mut extents = Extents::new(rt.alloc());
    let mut plain = Plain {
        free: [false; 64],
        end: 2,
    };
    let mut blocks: Vec<(u64, u64)> = Vec::new(rt.alloc());
    let mut seed = 1;
    for _ in 0..1000 {
        if next(&mut seed) % 2 == 0 {
            let count = next(&mut seed) % 4 + 1;
            let unit = plain.lowest(count);
            let fits = unit.saturating_add(count) <= 64;
            let want = if fits {
                Some(unit.saturating_mul(UNIT))
            } else {
                None
            };
            assert!(rt; takes_as_told(&mut extents, count * UNIT, want));
            if fits {
                plain.mark(unit, count, false);
                blocks.push((unit, count)).expect(&rt, "there is memory");
            }
        } else if !blocks.is_empty() {
            let index = next(&mut seed) as usize % blocks.len();
            let (unit, count) = blocks.swap_remove(index);
            let (at, size) = (unit.saturating_mul(UNIT), count.saturating_mul(UNIT));
            assert!(rt; may_be_given(&extents, at, size));
            extents.give(at, size);
            plain.mark(unit, count, true);
        }
        assert!(rt; plain.agrees(&extents));
    }
}
