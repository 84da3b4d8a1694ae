// A dump, read line by line.
ghost use Rattle.std.specs.Prelude.{◌≡◌, ◌⊎◌, ◌↔◌, IfOk, IfErr, MatchOption, OnErr, IsOk};
ghost use Rattle.dump_text.specs.Lines.{first_reader, number_behind, refusal_of_next, HasWhole, IsAtKey, IsOver, Reads, ReadsNone};
ghost use Rattle.wt_code.specs.declared.refusals.Refusal.TheVariants.{NoMemory as WantOfMemory};

use crate::form::Form;
use crate::taken::taken;
use item::{Formats, Item};
use std::alloc::Global;
use std::mem;
use wt_code::{Invalid, Refusal};

/// The table that a dump is of.
#[derive(Drop)]
pub struct Table {
    /// Its name, without what stands before it.
    pub name: Item,
    /// How its items are stored.
    pub formats: Formats,
}

/// What a line of a dump completes.
#[derive(Drop)]
pub enum Step {
    /// Nothing yet.
    More,
    /// The lines before the rows.
    Table(Table),
    /// A key, whose value is on the next line.
    Key,
    /// A row: its key and its value, as stored.
    Row(Item, Item),
}

// What is next.
#[derive(Drop)]
pub(crate) enum Next {
    // The line that begins every dump.
    Title,
    // The line that tells the form of items.
    Form,
    // The line `Header`.
    Header(Form),
    // The first line of a pair, or the line `Data`; with the table of the first pair that counts.
    Pair(Form, Option<Table>),
    // The second line of a pair that does not count.
    Skipped(Form, Option<Table>),
    // The second line of the pair that counts, whose table has this name.
    Config(Form, Item),
    // The line of a key.
    Key(Form, Formats),
    // The line of the value of this key.
    Value(Form, Formats, Item),
    // Nothing: a line was refused.
    Over,
}

/// Reads a dump, line by line.
#[derive(Drop)]
pub struct DumpReader {
    // How many lines were taken; the count stands still at its type's greatest number.
    lines: u64,
    next: Next,
}

impl DumpReader {
    /// A reader that waits for the first line.
    pub fn new() -> DumpReader
        ensures { result ≡ first_reader }
    {
        DumpReader {
            lines: 0,
            next: Next::Title,
        }
    }

    // The number of the next line, counted from 1.
    pub(crate) fn number(&self) -> u64
        ensures { result ≡ number_behind self.now.lines }
    {
        self.lines.saturating_add(1)
    }

    // Counts a line that is taken elsewhere.
    pub(crate) fn count_line(&mut self)
        ensures { self.new ≡ record self.old { lines = number_behind self.old.lines } }
    {
        self.lines = self.number();
    }

    /// Takes the next line, without its newline, and tells what it completes. `O(bytes)`.
    ///
    /// # Errors
    ///
    /// `Text` with the number of the line, counted from 1, exactly where the grammar has no such
    /// line here; `NoMemory`. After an error the reader is over: it refuses what comes.
    pub fn line(&mut self, alloc: Global, line: &[u8]) -> Result<Step, Refusal>
        ensures ok { IfOk result (Reads self.old line.now self.new) }
        ensures refused { IfErr result (λ r. (r ≡ WantOfMemory) ⊎ ((r ≡ refusal_of_next self.old) × ReadsNone self.old line.now)) }
        ensures over { OnErr result (IsOver self.new) }
    {
        let number = self.number();
        let next = mem::replace(&mut self.next, Next::Over);
        match taken(alloc, next, line)? {
            None => Err(Refusal::Invalid(Invalid::Text { line: number })),
            Some((next, step)) => {
                self.next = next;
                self.lines = number;
                Ok(step)
            }
        }
    }

    // The form of the rows, where the lines may end here.
    pub(crate) fn rows_form(&self) -> Option<Form>
        ensures { MatchOption result (HasWhole self.now → ⊥) (λ form. IsAtKey form self.now) }
    {
        match &self.next {
            Next::Key(form, _) => Some(*form),
            _ => None,
        }
    }

    /// The end of the lines.
    ///
    /// # Errors
    ///
    /// `Text` with the number of the line that is missing, counted from 1, exactly where the lines
    /// are no whole dump.
    pub fn finish(&self) -> Result<(), Refusal>
        ensures whole { IsOk result ↔ HasWhole self.now }
        ensures refused { IfErr result (λ r. r ≡ refusal_of_next self.now) }
    {
        match &self.next {
            Next::Key(_, _) => Ok(()),
            _ => Err(Refusal::Invalid(Invalid::Text {
                line: self.number(),
            })),
        }
    }
}
