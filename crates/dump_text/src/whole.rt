// A dump, read as a whole.
ghost use Rattle.std.specs.Prelude.{◌≡◌, ◌<◌, ◌^◌, ◌++◌, ◌∷◌, [], ℕ, List, length, true, false, IfOk, IfErr, OnOk, None};
ghost use Rattle.dump_text.specs.Cuts.{lines_in};
ghost use Rattle.dump_text.specs.Texts.{IsDumped, IsRefused};
ghost use Rattle.dump_text.specs.Wholes.{HasTaken, IsCutOff, IsKept, IsRowAnswer, IsStop};

use crate::cut::first_line;
use crate::form::Form;
use crate::items::is_item_line;
use crate::reader::{DumpReader, Step, Table};
use crate::rows::DumpRows;
use std::alloc::Global;
use wt_code::{Invalid, Refusal};

/// What a dump tells.
#[derive(Drop)]
pub struct Dumped<'a> {
    /// Its table.
    pub table: Table,
    /// Its rows, in their order.
    pub rows: DumpRows<'a>,
}

// The table that was told, the form of its rows, and the text behind the lines that tell it.
#[derive(Drop)]
pub(crate) struct Found<'a> {
    form: Form,
    table: Table,
    rows: &'a [u8],
}

// A text that is read. The reader takes the lines before the rows; those of the rows are looked at
// where they stand, and it counts them.
#[derive(Drop)]
pub(crate) struct Reading<'a> {
    reader: DumpReader,
    // The table once it was told.
    found: Option<Found<'a>>,
    // Whether a key was read, whose value is on the next line.
    at_value: bool,
}

/// The dump that a text is. `ended` tells whether the text is all of its input. Every line is looked
/// at; no item of a row is made, so the rows take no memory. `O(bytes)`.
///
/// # Errors
///
/// `Text` with the number of the first line that is wrong or missing, counted from 1, exactly where
/// the text is no dump; where the input has not ended, of the first that is wrong, or of the last.
/// `NoMemory`.
pub fn read_dump<'a>(alloc: Global, text: &'a [u8], ended: bool) -> Result<Dumped<'a>, Refusal>
    requires short { length text.now < 2 ^ 63 }
    requires some { ended ≡ false → 0 < length text.now }
    ensures dump { IfOk result (IsDumped (lines_in text.now)) }
    ensures ended { OnOk result (ended ≡ true) }
    ensures refused { IfErr result (IsRefused ended text.now) }
{
    let mut reading = Reading::nothing();
    let mut rest = text;
    let mut count = 0;
    'lines: while !rest.is_empty() {
        let (line, behind) = first_line(rest);
        match reading.take(alloc, line, behind) {
            Ok(()) => {}
            Err(refusal) => return Err(refusal),
        }
        rest = behind;
        count += 1;
    }
    if ended {
        reading.whole()
    } else {
        Err(Refusal::Invalid(Invalid::Text { line: count }))
    }
}

impl<'a> Reading<'a> {
    fn nothing() -> Reading<'a>
        ensures { (left : List (List ℕ)) → HasTaken [] left result }
    {
        Reading {
            reader: DumpReader::new(),
            found: None,
            at_value: false,
        }
    }

    // Takes one line more. This text is behind it.
    fn take(&mut self, alloc: Global, line: &[u8], behind: &'a [u8]) -> Result<(), Refusal>
        ensures taken { (lines : List (List ℕ)) → HasTaken lines (line.now ∷ lines_in behind.now) self.old → OnOk result (HasTaken (lines ++ line.now ∷ []) (lines_in behind.now) self.new) }
        ensures refused { (lines left : List (List ℕ)) → length lines < 2 ^ 63 → HasTaken lines left self.old → IfErr result (IsStop lines line.now) }
    {
        match self.is_row_line(line) {
            None => self.take_head(alloc, line, behind),
            Some(true) => {
                self.reader.count_line();
                self.at_value = !self.at_value;
                Ok(())
            }
            Some(false) => Err(Refusal::Invalid(Invalid::Text {
                line: self.reader.number(),
            })),
        }
    }

    // Whether a line writes the item that is next; none where the rows have not come.
    fn is_row_line(&self, line: &[u8]) -> Option<bool>
        ensures { IsRowAnswer self.now.found self.now.at_value line.now result }
    {
        let Some(found) = &self.found else {
            return None;
        };
        let format = if self.at_value {
            found.table.formats.value
        } else {
            found.table.formats.key
        };
        Some(is_item_line(found.form, format, line))
    }

    // Takes a line before the rows.
    fn take_head(&mut self, alloc: Global, line: &[u8], behind: &'a [u8]) -> Result<(), Refusal>
        requires { self.old.found ≡ None }
        ensures taken { (lines : List (List ℕ)) → HasTaken lines (line.now ∷ lines_in behind.now) self.old → OnOk result (HasTaken (lines ++ line.now ∷ []) (lines_in behind.now) self.new) }
        ensures refused { (lines left : List (List ℕ)) → length lines < 2 ^ 63 → HasTaken lines left self.old → IfErr result (IsStop lines line.now) }
    {
        match self.reader.line(alloc, line) {
            Ok(step) => {
                self.keep(step, behind);
                Ok(())
            }
            Err(refusal) => Err(refusal),
        }
    }

    // Keeps the table where a line told it, with the text behind that line.
    fn keep(&mut self, step: Step, behind: &'a [u8])
        ensures { IsKept step behind.now self.old self.new }
    {
        let Step::Table(table) = step else {
            return;
        };
        let Some(form) = self.reader.rows_form() else {
            return;
        };
        self.found = Some(Found {
            form,
            table,
            rows: behind,
        });
    }

    // What was read, where it is a whole dump.
    fn whole(self) -> Result<Dumped<'a>, Refusal>
        requires { (lines : List (List ℕ)) × HasTaken lines [] self }
        ensures dump { (lines : List (List ℕ)) → HasTaken lines [] self.entry → IfOk result (IsDumped lines) }
        ensures refused { (lines : List (List ℕ)) → length lines < 2 ^ 63 → HasTaken lines [] self.entry → IfErr result (IsCutOff lines) }
    {
        let Reading {
            reader,
            found,
            at_value,
        } = self;
        let number = reader.number();
        if at_value {
            return Err(Refusal::Invalid(Invalid::Text { line: number }));
        }
        let Some(found) = found else {
            return Err(Refusal::Invalid(Invalid::Text { line: number }));
        };
        Ok(Dumped {
            table: found.table,
            rows: DumpRows::new(found.form, found.rows),
        })
    }
}
