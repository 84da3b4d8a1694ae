// Going along the entries.
ghost use Rattle.std.specs.Prelude.{◌≡◌, ◌++◌, [], IfNone};
ghost use Rattle.std.specs.Option.{option_to_list};
ghost use Rattle.ordered_groups.specs.Groups.{entries, lists, AreSound};

use std::marker::Model;

/// The entries that are left, in order.
#[derive(Drop)]
pub struct Walk<'a, T> {
    here: &'a [T],
    behind: &'a [Vec<T>],
}

impl<'a, T> Model for Walk<'a, T> {
    ghost use Rattle.std.specs.Prelude.{List, ◌++◌};
    ghost use Rattle.ordered_groups.specs.Groups.{entries, lists, AreSound};

    ghost Value = { List T };

    ghost view = { λ a. a.here.now ++ entries (lists a.behind.now) };

    ghost invariant = { λ a. AreSound 256 (lists a.behind.now) };
}

impl<'a, T: Copy + Drop> Walk<'a, T> {
    #[inline(always)]
    pub(crate) fn over(here: &'a [T], behind: &'a [Vec<T>]) -> Walk<'a, T>
        requires { AreSound 256 (lists behind.now) }
        ensures { result ≡ here.now ++ entries (lists behind.now) }
    {
        Walk { here, behind }
    }

    // How many entries are left in the group that it is in, and how many groups behind that.
    #[inline(always)]
    pub(crate) fn left(&self) -> (usize, usize) {
        (self.here.len(), self.behind.len())
    }

    /// The next entry, if one is left.
    #[inline(always)]
    pub fn next_entry(&mut self) -> Option<T>
        ensures after { self.old ≡ option_to_list result ++ self.new }
        ensures ends { IfNone result (self.old ≡ []) }
    {
        if let Some((entry, rest)) = self.here.split_first() {
            self.here = rest;
            return Some(*entry);
        }
        let (group, behind) = self.behind.split_first()?;
        let (entry, rest) = group.as_slice().split_first()?;
        self.here = rest;
        self.behind = behind;
        Some(*entry)
    }
}
