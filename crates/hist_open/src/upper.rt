// The inner pages of a history, layer by layer.
ghost use Rattle.std.specs.Prelude.{◌≡◌, [], ◌∷◌, IfOk, IfErr, IsTrue};
ghost use Rattle.failure.specs.Counts.{Rose};
ghost use Rattle.disk_model.specs.Crash.{Looked};
ghost use Rattle.stored.specs.HistoryTree.{history_root_entry};
ghost use Rattle.tree_open.specs.Damage.{Refused};
ghost use Rattle.hist_open.specs.Trees.{InnerIs};
ghost use Rattle.hist_open.specs.Damage.{InnerSpoils};

use crate::layer::read_layer;
use crate::place::append_pages;
use checkpoint_record::Root;
use device_layout::{Addr, Link};
use disk_model::Disk;
use inner_page::{HistoryEntry, RecordMark};
use item::Item;
use stamp::Name;
use std::alloc::Global;
use wt_code::Refusal;

// What a history has above its leaves.
#[derive(Drop)]
pub(crate) struct UpperHistory {
    // The entries of its leaves, in the order of their records.
    pub entries: Vec<HistoryEntry>,
    // Where its inner pages stand, from the root down.
    pub addrs: Vec<Addr>,
}

// The entries of the leaves of the history that a root leads to, and where its inner pages stand: the
// root's own entry alone where its level is 0, and then nothing is read. `O(bytes)` of the inner pages,
// each read once.
pub(crate) fn read_upper<D: Disk>(
    alloc: Global,
    disk: &mut D,
    root: Root,
) -> Result<UpperHistory, Refusal>
    ensures ok { IsTrue (D.honest disk.old) → IfOk result (λ u. InnerIs (D.seen disk.old) root u.entries.items u.addrs.items) }
    ensures err { IfErr result (Refused (Rose (D.faults disk.old) (D.faults disk.new)) (IsTrue (D.honest disk.old)) (InnerSpoils (D.seen disk.old) root)) }
    ensures looked { Looked D.Disk disk.old disk.new }
    ensures home { D.home disk.new ≡ D.home disk.old }
{
    let mut buffer = Vec::new(alloc);
    let mut entries = match root_alone(alloc, root.link) {
        Ok(entries) => entries,
        Err(refusal) => return Err(refusal),
    };
    let mut addrs = Vec::new(alloc);
    let mut level = root.level;
    while level > 0 {
        append_pages(&mut addrs, &entries)?;
        entries = match read_layer(alloc, disk, level, &entries, &mut buffer) {
            Ok(below) => below,
            Err(refusal) => return Err(refusal),
        };
        level -= 1;
    }
    Ok(UpperHistory { entries, addrs })
}

// The entry that a root is: any record may stand below it.
fn root_alone(alloc: Global, link: Link) -> Result<Vec<HistoryEntry>, Refusal>
    ensures ok { IfOk result (λ v. v.items ≡ history_root_entry link ∷ []) }
    ensures err { IfErr result (λ r. r ≡ Refusal.NoMemory) }
{
    let mut entries = Vec::new(alloc);
    let least = RecordMark {
        table: 0,
        key: Item::new(Vec::new(alloc)),
        commit: 0,
        name: Name { run: 0, id: 0 },
    };
    match entries.push(HistoryEntry { least, link }) {
        Ok(()) => Ok(entries),
        Err(_) => Err(Refusal::NoMemory),
    }
}
