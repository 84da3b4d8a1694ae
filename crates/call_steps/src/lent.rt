// The start of a call whose items are lent.

ghost use Rattle.std.specs.Prelude.{◌≡◌, IfOk, OnOk, OnErr};
ghost use Rattle.call_steps.specs.Starts.{Starts, asks};

use crate::reply::Reply;
use crate::stage::{KeyCall, Stage};
use crate::starts::{empty, in_call};
use crate::state::SessionState;
use crate::text::copy_both;
use failure::NoMemory;
use item::Item;
use std::alloc::Global;
use wt_calls::{Demand, SessionCall};

impl SessionState {
    /// Starts a get of this key, as `start` does; its bytes are copied into buffers that are used
    /// again. The error is want of memory for that, where a call would have started: nothing is
    /// changed then.
    pub fn start_get(&mut self, alloc: Global, table: &[u8], key: &[u8]) -> Result<Reply, NoMemory>
        ensures started { IfOk result (λ told. Starts (SessionCall.Get table.now key.now) self.old told self.new) }
        ensures rests { OnErr result (self.old.stage ≡ Stage.Rest) }
        ensures kept { OnErr result (self.new ≡ self.old) }
    {
        match self.stage {
            Stage::Rest => {
                self.ask_lent(KeyCall::Get, table, key, empty(alloc))?;
                Ok(Reply::Started)
            }
            _ => Ok(in_call()),
        }
    }

    /// Starts a put of this value, as `start` does; the value is copied once, and the others as for
    /// `start_get`.
    pub fn start_put(
        &mut self,
        alloc: Global,
        table: &[u8],
        key: &[u8],
        value: &[u8],
        demand: Demand,
    ) -> Result<Reply, NoMemory>
        ensures started { IfOk result (λ told. Starts (SessionCall.Put table.now key.now value.now demand) self.old told self.new) }
        ensures rests { OnErr result (self.old.stage ≡ Stage.Rest) }
        ensures kept { OnErr result (self.new ≡ self.old) }
    {
        match self.stage {
            Stage::Rest => {
                let value = Item::new(Vec::from_slice(alloc, value)?);
                self.ask_lent(KeyCall::Put(demand), table, key, value)?;
                Ok(Reply::Started)
            }
            _ => Ok(in_call()),
        }
    }

    #[inline(always)]
    fn ask_lent(
        &mut self,
        call: KeyCall,
        table: &[u8],
        key: &[u8],
        value: Item,
    ) -> Result<(), NoMemory>
        ensures asked { OnOk result (self.new ≡ asks call table.now key.now value self.old) }
        ensures kept { OnErr result (self.new ≡ self.old) }
    {
        copy_both(&mut self.name, table, &mut self.key, key)?;
        self.stage = Stage::Find(call);
        self.value = value;
        Ok(())
    }
}
