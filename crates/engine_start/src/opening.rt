//! The start of an engine.

ghost use Rattle.std.specs.Prelude.{◌≡◌, ◌<◌, ◌+◌, ◌-◌, ◌^◌, ℕ, List, length, max, IfOk};
ghost use Rattle.std.specs.List.{AllByRecursion};
ghost use Rattle.limits.specs.declared.TheConstants.{TABLES_MAX};
ghost use Rattle.kv_model.specs.Allowed.{StampsFit};
ghost use Rattle.kv_model.specs.Content.{Content};
ghost use Rattle.kv_model.specs.Regular.{IsRegular};
ghost use Rattle.row_page.specs.Rows.{Row};
ghost use Rattle.stored.specs.TableTree.{Climbs};
ghost use Rattle.catalog.specs.Opens.{AreRecorded};
ghost use Rattle.engine_world.specs.Stands.{Stands};
ghost use Rattle.engine_world.specs.Systems.{first_world};
ghost use Rattle.engine_world.specs.Worlds.{Records};
ghost use Rattle.engine.specs.Openings.{IsOpened};
ghost use Rattle.engine_start.specs.declared.table_entries.TableEntries.{TableEntries};
ghost use Rattle.engine_start.specs.Entries.{IsContentOf, IsParted, IsUnread, Led, StartsOn, entries_of, tables_of};

use crate::parting::part;
use crate::table_entries::TableEntries;
use crate::unread::unread_stand;
use catalog::Catalog;
use engine::Local;
use failure::NoMemory;
use leaf_rows::Marks;
use std::alloc::Global;

/// An engine on what a device holds: the marks of its checkpoint, the number of its next table, and
/// its tables in the order of their names, each with the entries of its leaves, of which none is
/// read. Its run is the one after that of the checkpoint, and it has no session. The error is want of
/// memory, or (never of a device that reads) a table whose first leaf does not begin with the empty
/// key. `O(n log n)` in the leaves and `O(n^2)` in the tables at most.
pub fn start(
    alloc: Global,
    marks: Marks,
    next_table: u32,
    tables: Vec<TableEntries>,
) -> Result<Local, NoMemory>
    requires recorded { AreRecorded (tables_of tables.items) next_table }
    requires numbers { next_table + TABLES_MAX < 2 ^ 32 + length tables.items }
    requires run { marks.run < 2 ^ 62 - 1 }
    requires stamps { StampsFit marks.oldest marks.stable }
    requires climb { AllByRecursion (λ (t : TableEntries). Climbs (entries_of t)) tables.items }
    ensures unread { IfOk result (IsUnread marks tables.items) }
    ensures opened { IfOk result (λ l. IsOpened (marks.run + 1) marks.oldest marks.stable l.hub.tables l.hub.dir l) }
    ensures next { IfOk result (λ l. l.hub.tables.next ≡ max next_table 1) }
    ensures stands { (led : Led) (c : Content) (shelf : ℕ → List Row) (records : Records) → AllByRecursion (IsParted led) tables.items → IsContentOf marks tables.items c → IsRegular c → IfOk result (λ l. StartsOn c shelf records l → Stands l (first_world c shelf records l)) }
{
    unread_stand();
    let parted = part(alloc, tables)?;
    let known = Catalog::open(alloc, parted.tables, next_table)?;
    // What holds of every catalog and of every directory holds of these.
    let _count = known.len();
    parted.dir.stands();
    Local::open(
        alloc,
        marks.run + 1,
        marks.oldest,
        marks.stable,
        known,
        parted.dir,
    )
}
