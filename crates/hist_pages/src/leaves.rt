//! Records as they are cut into leaves.

ghost use Rattle.std.specs.Prelude.{◌≡◌, ◌≢◌, ◌<◌, ◌++◌, List, [], ◌∷◌, false, IfOk, OnOk, None};
ghost use Rattle.std.specs.Bool.{MatchBool};
ghost use Rattle.stored.specs.HistoryTree.{HistoryRecord, RecordFits};
ghost use Rattle.hist_pages.specs.Leaves.{image_length};
ghost use Rattle.hist_pages.specs.Making.{Have, HaveRecords, IsClosed, OpenHas};
ghost use Rattle.hist_pages.specs.Views.{record_seen};

use crate::leaf::HistoryLeaf;
use crate::lent_record::LentRecord;
use crate::open_leaf::OpenLeaf;
use failure::NoMemory;
use std::alloc::Global;

// The leaves that are done, and the one that records are put into.
#[derive(Drop)]
pub(crate) struct Leaves {
    pub done: Vec<HistoryLeaf>,
    pub opened: Option<OpenLeaf>,
}

impl Leaves {
    // Without records. Takes no memory.
    pub(crate) fn new(alloc: Global) -> Leaves
        ensures { HaveRecords result [] }
    {
        Leaves {
            done: Vec::new(alloc),
            opened: None,
        }
    }

    // Puts a record behind the others: into the leaf that is open, or into a new one where it has no
    // room. Its bytes are copied once.
    pub(crate) fn push(&mut self, alloc: Global, lent: &LentRecord<'_>) -> Result<(), NoMemory>
        requires { RecordFits (record_seen lent.now) }
        ensures { OnOk result ((records : List HistoryRecord) → HaveRecords self.old records → HaveRecords self.new (records ++ record_seen lent.now ∷ [])) }
    {
        if push_open(&mut self.opened, lent) {
            return Ok(());
        }
        let next = OpenLeaf::with(alloc, lent)?;
        close(&mut self.done, self.opened.take())?;
        self.opened = Some(next);
        Ok(())
    }

    // The leaves of the records.
    pub(crate) fn finish(self) -> Result<Vec<HistoryLeaf>, NoMemory>
        ensures { IfOk result (λ leaves. (records : List HistoryRecord) → HaveRecords self records → Have leaves.items records) }
    {
        let Leaves { mut done, opened } = self;
        close(&mut done, opened)?;
        Ok(done)
    }
}

// Puts a record into the leaf that is open. False where none is, or it has no room.
fn push_open(opened: &mut Option<OpenLeaf>, lent: &LentRecord<'_>) -> bool
    requires { RecordFits (record_seen lent.now) }
    ensures put { (records : List HistoryRecord) → OpenHas opened.old records → MatchBool result (OpenHas opened.new (records ++ record_seen lent.now ∷ [])) (OpenHas opened.new records × (records ≢ [] → 32768 < image_length (records ++ record_seen lent.now ∷ []))) }
    ensures none { opened.old ≡ None → (result ≡ false) × (opened.new ≡ None) }
{
    match opened {
        None => false,
        Some(leaf) => leaf.push(lent),
    }
}

// Puts the leaf that was open behind those that are done.
fn close(done: &mut Vec<HistoryLeaf>, opened: Option<OpenLeaf>) -> Result<(), NoMemory>
    ensures { OnOk result ((records : List HistoryRecord) → OpenHas opened records → IsClosed done.old.items opened records done.new.items) }
{
    if let Some(leaf) = opened {
        done.reserve(1)?;
        done.push_reserved(leaf.finish());
    }
    Ok(())
}
