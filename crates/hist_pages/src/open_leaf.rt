//! The leaf that is open.

ghost use Rattle.std.specs.Prelude.{◌≡◌, ◌<◌, ◌++◌, List, [], ◌∷◌, IfOk};
ghost use Rattle.std.specs.Bool.{MatchBool};
ghost use Rattle.stored.specs.HistoryTree.{HistoryRecord, RecordFits};
ghost use Rattle.hist_pages.specs.Leaves.{image_length};
ghost use Rattle.hist_pages.specs.Making.{HasRecords, Holds};
ghost use Rattle.hist_pages.specs.Views.{record_seen};

use crate::leaf::HistoryLeaf;
use crate::lent_record::{LentRecord, mark_of};
use crate::record_writer::RecordWriter;
use failure::NoMemory;
use inner_page::RecordMark;
use stamp::Name;
use std::alloc::Global;

// The block of the records so far, of which there are some, and what is greatest in them.
#[derive(Drop)]
pub(crate) struct OpenLeaf {
    pub least: RecordMark,
    pub writer: RecordWriter,
    pub greatest: Name,
    pub durable: u64,
}

impl OpenLeaf {
    // The leaf of a first record. Two allocations: the bytes of the largest block, of which none is
    // written, and the key.
    pub(crate) fn with(alloc: Global, lent: &LentRecord<'_>) -> Result<OpenLeaf, NoMemory>
        requires { RecordFits (record_seen lent.now) }
        ensures { IfOk result (λ o. HasRecords o (record_seen lent.now ∷ [])) }
    {
        let least = mark_of(alloc, lent)?;
        let mut writer = RecordWriter::new(alloc)?;
        let _has_room = writer.push(lent);
        let window = lent.version.window;
        Ok(OpenLeaf {
            least,
            writer,
            greatest: window.name,
            durable: window.durable,
        })
    }

    // Puts a record behind the others. False where there is no room for it, and then nothing is
    // changed. Its bytes are copied once.
    pub(crate) fn push(&mut self, lent: &LentRecord<'_>) -> bool
        requires { RecordFits (record_seen lent.now) }
        ensures { (records : List HistoryRecord) → HasRecords self.old records → MatchBool result (HasRecords self.new (records ++ record_seen lent.now ∷ [])) (HasRecords self.new records × (32768 < image_length (records ++ record_seen lent.now ∷ []))) }
    {
        if !self.writer.push(lent) {
            return false;
        }
        let window = lent.version.window;
        self.greatest = self.greatest.later(window.name);
        self.durable = self.durable.max(window.durable);
        true
    }

    // The leaf of the records.
    pub(crate) fn finish(self) -> HistoryLeaf
        ensures { (records : List HistoryRecord) → HasRecords self records → Holds result records }
    {
        HistoryLeaf {
            least: self.least,
            block: self.writer.finish(),
            greatest: self.greatest,
            durable: self.durable,
        }
    }
}
