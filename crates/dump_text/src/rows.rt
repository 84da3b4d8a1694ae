// The rows of a dump that is in order.
ghost use Rattle.std.specs.Prelude.{◌≡◌, ◌<◌, ◌∷◌, [], length, IfOk, OnErr, MatchOption};
ghost use Rattle.dump_text.specs.RowLines.{AreRowLines, HasItem, item_at, rows_in};
ghost use Rattle.dump_text.specs.Cuts.{lines_in};

use crate::cut::first_line;
use crate::form::Form;
use crate::items::item_on;
use failure::NoMemory;
use item::Item;
use std::alloc::Global;
use std::marker::Model;

/// The rows of a dump, one after the other. It stands for those that are left: each a key and a
/// value, as stored.
#[derive(Drop)]
pub struct DumpRows<'a> {
    form: Form,
    // The lines of the rows that are left.
    rest: &'a [u8],
}

impl<'a> Model for DumpRows<'a> {
    ghost use Rattle.std.specs.Prelude.{List, ℕ};
    ghost use Rattle.dump_text.specs.Cuts.{lines_in};
    ghost use Rattle.dump_text.specs.RowLines.{AreRowLines, rows_in};

    ghost Value = { List (List ℕ × List ℕ) };

    ghost view = { λ r. rows_in r.form (lines_in r.rest.now) };

    ghost invariant = { λ r. AreRowLines r.form (lines_in r.rest.now) };
}

impl<'a> DumpRows<'a> {
    // The rows that these lines write.
    pub(crate) fn new(form: Form, rest: &'a [u8]) -> DumpRows<'a>
        requires { AreRowLines form (lines_in rest.now) }
        ensures { result ≡ rows_in form (lines_in rest.now) }
    {
        DumpRows { form, rest }
    }

    /// The next row, where there is one. `O(bytes)` of the row's lines, and one allocation for each
    /// item.
    ///
    /// # Errors
    ///
    /// Memory is wanted for a row, which is still the next one then.
    pub fn next(&mut self, alloc: Global) -> Result<Option<(Item, Item)>, NoMemory>
        ensures row { IfOk result (λ r. MatchOption r (self.old ≡ []) (λ row. self.old ≡ row ∷ self.new)) }
        ensures same { OnErr result (self.new ≡ self.old) }
        ensures some { OnErr result (0 < length self.old) }
    {
        if self.rest.is_empty() {
            return Ok(None);
        }
        let (key, behind) = first_line(self.rest);
        let (value, behind) = first_line(behind);
        let key = item_at(alloc, self.form, key)?;
        let value = item_at(alloc, self.form, value)?;
        self.rest = behind;
        Ok(Some((key, value)))
    }
}

// The item that a line writes.
fn item_at(alloc: Global, form: Form, line: &[u8]) -> Result<Item, NoMemory>
    requires { HasItem form line.now }
    ensures { IfOk result (λ item. item ≡ item_at form line.now) }
{
    match item_on(alloc, form, line)? {
        Some(item) => Ok(item),
        // Each line here writes an item.
        None => Err(NoMemory),
    }
}
