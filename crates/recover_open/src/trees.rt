// The trees of the tables.
ghost use Rattle.std.specs.Prelude.{◌≡◌, ◌++◌, [], ◌∷◌, length, map, IfOk, IfErr, OnOk, IsTrue};
ghost use Rattle.failure.specs.Counts.{Rose};
ghost use Rattle.disk_model.specs.Crash.{Looked};
ghost use Rattle.stored.specs.TableTree.{Climbs};
ghost use Rattle.tree_open.specs.Trees.{InnerIs};
ghost use Rattle.tree_open.specs.Damage.{Refused};
ghost use Rattle.recover_open.specs.Leaves.{TreeIs};
ghost use Rattle.recover_open.specs.Bare.{HaveUppers, AllClimb, kept_of, marks_of};
ghost use Rattle.recover_open.specs.Damage.{TreeSpoils};
ghost use Rattle.recover_open.specs.Recoveries.{TreesAre, TreesRefused, placed_roots, table_roots};

use crate::leaves::load_leaves;
use checkpoint_record::{Record, Root, TableRoot};
use disk_model::Disk;
use failure::NoMemory;
use leaf_rows::{Marks, Rows};
use std::alloc::Global;
use tree_open::{TreePlace, Upper, place_of};
use wt_code::Refusal;

// Where a tree stands, and its rows.
#[derive(Drop)]
pub(crate) struct OneTree {
    pub(crate) place: TreePlace,
    pub(crate) rows: Rows,
}

// By table: where its tree stands, and its rows.
#[derive(Drop)]
pub(crate) struct AllTrees {
    pub(crate) places: Vec<TreePlace>,
    pub(crate) leaves: Vec<Rows>,
}

// The trees of the tables, which have this above their leaves. `O(bytes)` of the leaves, each read
// once.
pub(crate) fn read_all<D: Disk>(
    alloc: Global,
    disk: &mut D,
    tables: &[TableRoot],
    uppers: Vec<Upper>,
) -> Result<AllTrees, Refusal>
    requires climb { AllClimb uppers.items }
    requires count { length uppers.items ≡ length tables.now }
    ensures ok { IsTrue (D.honest disk.old) → HaveUppers (D.seen disk.old) tables.now uppers.items → IfOk result (λ t. TreesAre (D.seen disk.old) tables.now t.places.items t.leaves.items) }
    ensures count { IfOk result (λ t. length t.leaves.items ≡ length tables.now) }
    ensures roots { IfOk result (λ t. placed_roots t.places.items ≡ table_roots tables.now) }
    ensures err { IfErr result (TreesRefused (Rose (D.faults disk.old) (D.faults disk.new)) (IsTrue (D.honest disk.old) × HaveUppers (D.seen disk.old) tables.now uppers.items) (D.seen disk.old) tables.now) }
    ensures looked { Looked D.Disk disk.old disk.new }
    ensures home { D.home disk.new ≡ D.home disk.old }
{
    let mut places = Vec::new(alloc);
    let mut leaves = Vec::new(alloc);
    let mut i = 0;
    for upper in uppers {
        let tree = match read_one(alloc, disk, root_of(&tables[i]), upper) {
            Ok(tree) => tree,
            Err(refusal) => return Err(refusal),
        };
        match put_tree(&mut places, &mut leaves, tree) {
            Ok(()) => {}
            Err(NoMemory) => return Err(Refusal::NoMemory),
        }
        i += 1;
    }
    Ok(AllTrees { places, leaves })
}

pub(crate) fn root_of(table: &TableRoot) -> Root
    ensures { result ≡ table.now.root }
{
    table.root
}

fn put_tree(
    places: &mut Vec<TreePlace>,
    leaves: &mut Vec<Rows>,
    tree: OneTree,
) -> Result<(), NoMemory>
    ensures places { OnOk result (places.new.items ≡ places.old.items ++ tree.place ∷ []) }
    ensures leaves { OnOk result (leaves.new.items ≡ leaves.old.items ++ tree.rows ∷ []) }
{
    let OneTree { place, rows } = tree;
    if places.push(place).is_err() || leaves.push(rows).is_err() {
        return Err(NoMemory);
    }
    Ok(())
}

// The tree of a root, which has this above its leaves.
fn read_one<D: Disk>(
    alloc: Global,
    disk: &mut D,
    root: Root,
    upper: Upper,
) -> Result<OneTree, Refusal>
    requires { Climbs upper.entries.items }
    ensures ok { IsTrue (D.honest disk.old) → InnerIs (D.seen disk.old) root upper.entries.items upper.addrs.items → IfOk result (λ t. TreeIs (D.seen disk.old) root t.place t.rows) }
    ensures root { IfOk result (λ t. t.place.root ≡ root) }
    ensures err { IfErr result (Refused (Rose (D.faults disk.old) (D.faults disk.new)) (IsTrue (D.honest disk.old) × InnerIs (D.seen disk.old) root upper.entries.items upper.addrs.items) (TreeSpoils (D.seen disk.old) root)) }
    ensures looked { Looked D.Disk disk.old disk.new }
    ensures home { D.home disk.new ≡ D.home disk.old }
{
    let rows = match load_leaves(alloc, disk, &upper.entries) {
        Ok(rows) => rows,
        Err(refusal) => return Err(refusal),
    };
    match place_of(alloc, root, upper) {
        Ok(place) => Ok(OneTree { place, rows }),
        Err(NoMemory) => Err(Refusal::NoMemory),
    }
}

// Takes out of the rows of each tree what an opening does not keep.
pub(crate) fn keep_all(found: &Record, leaves: &mut [Rows])
    ensures { leaves.new ≡ map (kept_of found.now) leaves.old }
{
    for rows in leaves.iter_mut() {
        keep(found, rows);
    }
}

fn keep(found: &Record, rows: &mut Rows)
    ensures { rows.new ≡ kept_of found.now rows.old }
{
    let snapshot = &found.snapshot;
    rows.keep_seen(marks_of(found), &snapshot.ids);
}

fn marks_of(found: &Record) -> Marks
    ensures { result ≡ marks_of found.now }
{
    let snapshot = &found.snapshot;
    Marks {
        run: found.run,
        oldest: found.oldest,
        stable: found.stable,
        min: snapshot.min,
        max: snapshot.max,
    }
}
