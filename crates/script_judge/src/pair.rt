// The engine and the plain runner, side by side, on a new device.

use catalog::Catalog;
use engine::{Called, Local};
use failure::NoMemory;
use item::Item;
use kv_plain::{Around, Machine, Storing, Unfinished, new_device};
use std::alloc::Global;
use tree_dir::Dir;
use wt_calls::{Call, SystemCall};
use wt_code::{Answer, Refusal};

/// Both, with the same sessions.
#[derive(Drop)]
pub(crate) struct Pair {
    engine: Local,
    // None once memory was wanted.
    model: Option<Machine>,
    around: Around,
}

// Nothing is unfinished, and nothing is in the way.
fn nothing_around(alloc: Global) -> Around {
    Around {
        in_call: false,
        unfinished: Unfinished {
            eviction: None,
            calls: Vec::new(alloc),
        },
        number: 0,
        uncaptured: 0,
        storing: Storing::Stored,
    }
}

// An engine on nothing, without sessions.
#[tactic(auto, using(crate::proofs::Bases::none_owned, crate::proofs::Bases::unset_fit))]
fn new_engine(alloc: Global) -> Result<Local, NoMemory> {
    Local::open(alloc, 1, 0, 0, Catalog::new(alloc), Dir::new(alloc))
}

// The answer of a call. None waits: each table's leaf is in a frame from the start.
fn answer_of(called: Called) -> Answer<Item> {
    match called {
        Called::Ended(answer) => answer,
        Called::Waits(_) => Answer::Refused(Refusal::CacheFull),
    }
}

impl Pair {
    pub(crate) fn new(alloc: Global) -> Result<Pair, NoMemory> {
        Ok(Pair {
            engine: new_engine(alloc)?,
            model: Some(kv_plain::open(alloc, &new_device(alloc))?),
            around: nothing_around(alloc),
        })
    }

    /// Opens one session more in both.
    pub(crate) fn open_session(&mut self, alloc: Global) -> Result<(), NoMemory> {
        if self.engine.open_session(alloc).is_err() {
            return Err(NoMemory);
        }
        let machine = self.take_model()?;
        let opened = kv_plain::open_session(alloc, machine)?;
        self.model = Some(opened.machine);
        Ok(())
    }

    fn take_model(&mut self) -> Result<Machine, NoMemory> {
        match self.model.take() {
            None => Err(NoMemory),
            Some(machine) => Ok(machine),
        }
    }

    /// What the model answers to a call.
    pub(crate) fn ask_model(
        &mut self,
        alloc: Global,
        call: Call,
    ) -> Result<Answer<Item>, NoMemory> {
        let machine = self.take_model()?;
        let answered = kv_plain::run(alloc, machine, call, &self.around)?;
        self.model = Some(answered.machine);
        Ok(answered.answer)
    }

    /// What the engine answers to a call; none to one that it does not have.
    pub(crate) fn ask_engine(&mut self, alloc: Global, call: Call) -> Option<Answer<Item>> {
        match call {
            Call::Session(session, call) => {
                if session >= self.engine.sessions() {
                    return None;
                }
                Some(answer_of(self.engine.call(alloc, session, call)))
            }
            Call::System(number, call) => self.ask_system(alloc, number, call),
        }
    }

    fn ask_system(&mut self, alloc: Global, number: u32, call: SystemCall) -> Option<Answer<Item>> {
        if number >= self.engine.actors() {
            return None;
        }
        match call {
            SystemCall::Create { table, formats } => {
                let create = SystemCall::Create { table, formats };
                Some(self.engine.call_system(alloc, number, create))
            }
            SystemCall::SetStamps { oldest, stable } => {
                let set = SystemCall::SetStamps { oldest, stable };
                Some(self.engine.call_system(alloc, number, set))
            }
            _ => None,
        }
    }
}
