// What leads to the trees of the tables, by name.
ghost use Rattle.std.specs.Prelude.{◌≡◌, ◌≤◌, ◌++◌, ◌∷◌, [], Some, None, slice_get, slice_index_or, take, IfOk, OnOk};
ghost use Rattle.std.specs.List.{AllByRecursion};
ghost use Rattle.le_codec.specs.Fields.{IsBytes};
ghost use Rattle.stored.specs.Links.{LinkFits, nowhere};
ghost use Rattle.stored.specs.Records.{RootFits};
ghost use Rattle.kv_model.specs.History.{Table as ATable};
ghost use Rattle.catalog.specs.Known.{AreTables};
ghost use Rattle.device_leaf.specs.NoHistory.{no_root as the_no_root};
ghost use Rattle.ckpt_step.specs.Records.{IsTyped, roots_by_name};
ghost use Rattle.ckpt_step.specs.Trees.{AreTold, placed_by, roots_of as roots_in, table_root};

use catalog::{Catalog, Table};
use checkpoint_record::{LentRoot, Root};
use device_layout::{Addr, Link};
use failure::NoMemory;
use stamp::Name;
use std::alloc::Global;
use tree_open::TreePlace;

// The root of a tree of no rows, which is not stored.
pub(crate) fn no_root() -> Root
    ensures { result ≡ the_no_root }
{
    Root {
        level: 0,
        link: Link {
            addr: Addr {
                offset: 0,
                size: 0,
                sum: 0,
            },
            greatest: Name { run: 0, id: 0 },
            durable: 0,
        },
    }
}

// The tables of a record, in the order of their names: the first ones of the catalog. The trees are
// those of these tables, by place; where none is told, it stands where it did before. The error is want
// of memory. `O(n)` in the tables, and one allocation; the names are lent.
pub(crate) fn roots_of<'a>(
    alloc: Global,
    tables: &'a Catalog,
    first: u32,
    was: &[TreePlace],
    told: &[Option<TreePlace>],
) -> Result<Vec<LentRoot<'a>>, NoMemory>
    requires known { AreTables tables.now }
    requires told { AreTold was.now told.now }
    ensures roots { IfOk result (λ roots. roots.items ≡ roots_by_name (take first tables.now.tables) (roots_in (placed_by was.now told.now))) }
    ensures typed { IfOk result (λ roots. AllByRecursion IsTyped roots.items) }
{
    let mut roots = Vec::with_capacity(alloc, tables.len())?;
    let mut i = 0;
    while let Some(place) = tables.place_at(i) {
        if place < first {
            push_table(&mut roots, tables, was, told, place)?;
        }
        i += 1;
    }
    Ok(roots)
}

// Puts the table at a place, with its tree, behind the others.
fn push_table<'a>(
    roots: &mut Vec<LentRoot<'a>>,
    tables: &'a Catalog,
    was: &[TreePlace],
    told: &[Option<TreePlace>],
    place: u32,
) -> Result<(), NoMemory>
    requires known { AreTables tables.now }
    requires told { AreTold was.now told.now }
    requires typed { AllByRecursion IsTyped roots.old.items }
    ensures some { OnOk result ((t : ATable) → slice_get tables.now.tables place ≡ Some t → roots.new.items ≡ roots.old.items ++ table_root t (slice_index_or (roots_in (placed_by was.now told.now)) place the_no_root) ∷ []) }
    ensures none { OnOk result (slice_get tables.now.tables place ≡ None → roots.new.items ≡ roots.old.items) }
    ensures typed { OnOk result (AllByRecursion IsTyped roots.new.items) }
{
    match tables.table(place) {
        Some(table) => push_root(roots, root_of(table, root_at(was, told, place as usize))),
        None => Ok(()),
    }
}

// The root of a place, that of a tree of no rows where there is none.
fn root_at(was: &[TreePlace], told: &[Option<TreePlace>], place: usize) -> Root
    requires told { AreTold was.now told.now }
    ensures is { result ≡ slice_index_or (roots_in (placed_by was.now told.now)) place the_no_root }
    ensures fits { RootFits result }
{
    match told.get(place) {
        Some(Some(tree)) => typed(tree.root),
        Some(None) => root_in(was, place),
        None => no_root(),
    }
}

// The same root. That each number of its link fits its type is known of every root.
pub(crate) fn typed(root: Root) -> Root
    ensures is { result ≡ root }
    ensures link { LinkFits result.link }
{
    root
}

// The root of a place of before, that of a tree of no rows where there is none.
fn root_in(was: &[TreePlace], place: usize) -> Root
    ensures { result ≡ slice_index_or (roots_in was.now) place the_no_root }
{
    match was.get(place) {
        Some(tree) => tree.root,
        None => no_root(),
    }
}

// Puts a table with its tree behind the others.
fn push_root<'a>(roots: &mut Vec<LentRoot<'a>>, root: LentRoot<'a>) -> Result<(), NoMemory>
    requires fits { IsTyped root }
    requires typed { AllByRecursion IsTyped roots.old.items }
    ensures pushed { OnOk result (roots.new.items ≡ roots.old.items ++ root.entry ∷ []) }
    ensures typed { OnOk result (AllByRecursion IsTyped roots.new.items) }
{
    roots.reserve(1)?;
    roots.push_reserved(root);
    Ok(())
}

// The table with its tree.
fn root_of(table: &Table, root: Root) -> LentRoot<'_>
    requires fits { RootFits root }
    ensures root { result ≡ table_root table.now root }
    ensures typed { IsTyped result }
{
    are_bytes(table.name.as_bytes());
    LentRoot { table, root }
}

// That each is a byte is known of every slice of bytes.
fn are_bytes(bytes: &[u8])
    ensures { IsBytes bytes.now }
{
    let _ = bytes;
}
