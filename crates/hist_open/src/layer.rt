// The pages of one layer.
ghost use Rattle.std.specs.Prelude.{◌≡◌, ◌++◌, IfOk, IfErr, OnOk, IsTrue};
ghost use Rattle.failure.specs.Counts.{Rose};
ghost use Rattle.disk_model.specs.Crash.{Looked};
ghost use Rattle.tree_open.specs.Damage.{Refused};
ghost use Rattle.hist_open.specs.Pages.{LayerIs};
ghost use Rattle.hist_open.specs.Damage.{LayerSpoils};

use crate::page::read_page;
use disk_model::Disk;
use inner_page::HistoryEntry;
use std::alloc::Global;
use wt_code::Refusal;

// The entries of the inner pages of this level that these entries lead to. The buffer has any bytes
// afterwards. `O(bytes)`, each page read once.
pub(crate) fn read_layer<D: Disk>(
    alloc: Global,
    disk: &mut D,
    level: u8,
    entries: &[HistoryEntry],
    buffer: &mut Vec<u8>,
) -> Result<Vec<HistoryEntry>, Refusal>
    ensures ok { IsTrue (D.honest disk.old) → IfOk result (λ v. LayerIs (D.seen disk.old) level entries.now v.items) }
    ensures err { IfErr result (Refused (Rose (D.faults disk.old) (D.faults disk.new)) (IsTrue (D.honest disk.old)) (LayerSpoils (D.seen disk.old) level entries.now)) }
    ensures looked { Looked D.Disk disk.old disk.new }
    ensures home { D.home disk.new ≡ D.home disk.old }
{
    let mut below = Vec::new(alloc);
    for i in 0..entries.len() {
        let page = match read_page(alloc, disk, level, &entries[i], &entries[i + 1..], buffer) {
            Ok(page) => page,
            Err(refusal) => return Err(refusal),
        };
        match append(&mut below, page) {
            Ok(()) => {}
            Err(refusal) => return Err(refusal),
        }
    }
    Ok(below)
}

fn append(below: &mut Vec<HistoryEntry>, page: Vec<HistoryEntry>) -> Result<(), Refusal>
    ensures ok { OnOk result (below.new.items ≡ below.old.items ++ page.items) }
    ensures err { IfErr result (λ r. r ≡ Refusal.NoMemory) }
{
    let mut page = page;
    match below.append(&mut page) {
        Ok(()) => Ok(()),
        Err(_) => Err(Refusal::NoMemory),
    }
}
