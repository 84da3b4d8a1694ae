//! Names of transactions.

ghost use Rattle.std.specs.Prelude.{◌≡◌, false};
ghost use Rattle.std.specs.Ordering.{nat_cmp, on, then_cmp};
ghost use Rattle.stamp.specs.Order.{is_before, later};

use std::cmp::Ordering;

/// A transaction's name, which each version that it writes bears. Names are ordered by run, then
/// by id.
#[derive(Clone, Copy, Debug, PartialEq, Eq, PartialOrd, Ord, Hash)]
pub struct Name {
    /// The run that drew it: a new device starts run 1, each opening the next.
    pub run: u64,
    /// Drawn in this run as 1, 2, 3 and on; 0 is no id.
    pub id: u64,
}

impl Name {
    /// Orders by run, then by id.
    pub fn compare(&self, other: &Name) -> Ordering
        ensures { result ≡ then_cmp (on (λ n. n.run) nat_cmp) (on (λ n. n.id) nat_cmp) self.now other.now }
    {
        self.run.cmp(&other.run).then(self.id.cmp(&other.id))
    }

    /// Whether this name is of an earlier run than the other, or of its run with a lower id.
    #[inline(always)]
    pub fn is_before(self, other: Name) -> bool
        ensures { result ≡ is_before self other }
    {
        self.run < other.run || (self.run == other.run && self.id < other.id)
    }

    /// The one of the two names that is not before the other.
    #[inline(always)]
    pub fn later(self, other: Name) -> Name
        ensures is { result ≡ later self other }
        ensures first { is_before result self ≡ false }
        ensures second { is_before result other ≡ false }
    {
        if self.is_before(other) { other } else { self }
    }
}
