// An engine on what a device holds.

ghost use Rattle.std.specs.Prelude.{◌≡◌, ◌<◌, ◌≤◌, ◌+◌, ◌^◌, ◌∷◌, ℕ, [], None, List, length, IfOk};
ghost use Rattle.limits.specs.declared.TheConstants.{NUMBER_MAX, TABLES_MAX};
ghost use Rattle.kv_model.specs.Allowed.{StampsFit};
ghost use Rattle.kv_model.specs.Content.{Content};
ghost use Rattle.kv_model.specs.Regular.{IsRegular};
ghost use Rattle.row_page.specs.Rows.{Row as ARow};
ghost use Rattle.engine_world.specs.Leaves.{LeavesOwned};
ghost use Rattle.engine_world.specs.Stands.{Stands};
ghost use Rattle.engine_world.specs.Systems.{first_world};
ghost use Rattle.engine_world.specs.Worlds.{Records};
ghost use Rattle.engine.specs.Bases.{IsBaseOf};
ghost use Rattle.engine.specs.Openings.{IsOpened};
ghost use Rattle.engine.specs.Sound.{IsSound};

use crate::parts::Parts;
use call_steps::Hub;
use catalog::Catalog;
use engine_world::engines_start;
use failure::NoMemory;
use limits::SESSIONS_MAX;
use std::alloc::Global;
use tree_dir::Dir;
use ts_rules::Stamps;
use txn_table::Txns;
use wt_calls::SystemCall;

// How many hazard words there are, five for each session.
const HAZARDS: usize = 5 * SESSIONS_MAX;

impl Parts {
    /// An engine on what a device holds: the run that begins, its two stamps, its tables, and their
    /// leaves, which are in no frame. The error is want of memory.
    pub(crate) fn new(
        alloc: Global,
        run: u64,
        oldest: u64,
        stable: u64,
        tables: Catalog,
        dir: Dir,
    ) -> Result<Parts, NoMemory>
        requires numbers { tables.next + TABLES_MAX < 2 ^ 32 + length tables.tables }
        requires owned { LeavesOwned tables.tables dir.leaves }
        requires stamps { StampsFit oldest stable }
        requires begun { 1 ≤ run }
        requires run { run ≤ NUMBER_MAX }
        ensures stands { (c : Content) (shelf : ℕ → List ARow) (records : Records) → IsRegular c → IsBaseOf c shelf records run oldest stable tables dir → IfOk result (λ p. Stands p (first_world c shelf records p)) }
        ensures opened { IfOk result (λ p. IsOpened run oldest stable tables dir p) }
        ensures sound { IfOk result (λ p. IsSound p) }
    {
        engines_start();
        // What holds of every catalog and of every directory holds of these.
        let _count = tables.len();
        dir.stands();
        let txns = Txns::new(alloc, run, 0)?;
        let hazards = zeros(alloc, HAZARDS)?;
        let systems = no_calls(alloc)?;
        Ok(Parts {
            hub: Hub {
                txns,
                stamps: Stamps { oldest, stable },
                tables,
                dir,
                fault: None,
            },
            pieces: Vec::new(alloc),
            states: Vec::new(alloc),
            hazards,
            sessions: Vec::new(alloc),
            systems,
            bare: Vec::new(alloc),
        })
    }
}

// So many zeros.
fn zeros(alloc: Global, count: usize) -> Result<Vec<u64>, NoMemory> {
    let mut words = Vec::with_capacity(alloc, count)?;
    for _ in 0..count {
        if let Err(_) = words.push(0) {
            return Err(NoMemory);
        }
    }
    Ok(words)
}

// Four actors of the system, without a call.
fn no_calls(alloc: Global) -> Result<Vec<Option<SystemCall>>, NoMemory>
    ensures { IfOk result (λ v. v.items ≡ None ∷ (None ∷ (None ∷ (None ∷ [])))) }
{
    let mut calls = Vec::with_capacity(alloc, 4)?;
    calls.push_reserved(None);
    calls.push_reserved(None);
    calls.push_reserved(None);
    calls.push_reserved(None);
    Ok(calls)
}
