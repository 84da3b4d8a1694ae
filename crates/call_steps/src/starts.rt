// The start of a call.

ghost use Rattle.std.specs.Prelude.{◌≡◌, [], length};
ghost use Rattle.call_steps.specs.Starts.{Arranges, AreArranged, Starts, StartsAt, asks, stamps_given};
ghost use Rattle.call_steps.specs.State.{at_stage};

use crate::reply::Reply;
use crate::stage::{CommitStamps, KeyCall, Stage, first_mark, first_order, first_undo};
use crate::state::SessionState;
use crate::written::WrittenKey;
use item::Item;
use std::alloc::Global;
use wt_calls::SessionCall;
use wt_code::{Answer, Invalid, Refusal};

impl SessionState {
    /// Starts a call: its events follow. Refused, and nothing is changed, where a call is not
    /// finished. Takes no memory. `O(1)`; a prepare, a commit and a rollback sort the keys that the
    /// transaction wrote, by leaf.
    #[inline(always)]
    pub fn start(&mut self, alloc: Global, call: SessionCall) -> Reply
        ensures { Starts call self.old result self.new }
    {
        match self.stage {
            Stage::Rest => {
                self.begin_call(alloc, call);
                Reply::Started
            }
            _ => in_call(),
        }
    }

    #[inline(always)]
    fn begin_call(&mut self, alloc: Global, call: SessionCall)
        ensures { StartsAt call self.old self.new }
    {
        match call {
            SessionCall::Begin(read) => self.go_to(Stage::Begin(read)),
            SessionCall::Get { table, key } => self.ask(KeyCall::Get, table, key, empty(alloc)),
            SessionCall::Put {
                table,
                key,
                value,
                demand,
            } => self.ask(KeyCall::Put(demand), table, key, value),
            SessionCall::Remove { table, key } => {
                self.ask(KeyCall::Remove, table, key, empty(alloc))
            }
            SessionCall::Seek { cursor, table, key } => {
                self.ask(KeyCall::Seek(cursor), table, key, empty(alloc))
            }
            SessionCall::Step { cursor, table, way } => self.ask(
                KeyCall::Step(cursor, way),
                table,
                empty(alloc),
                empty(alloc),
            ),
            SessionCall::Reset(cursor) => self.go_to(Stage::Reset(cursor)),
            SessionCall::Prepare(stamp) => {
                let stage = first_mark(self.phase, stamp, self.written.len());
                self.arrange(stage);
            }
            SessionCall::Commit { commit, durable } => {
                let stamps = stamps_given(commit, durable);
                let stage = first_order(self.phase, stamps, self.written.len());
                self.arrange(stage);
            }
            SessionCall::Rollback => {
                let stage = first_undo(self.phase, self.written.len());
                self.arrange(stage);
            }
        }
    }

    fn ask(&mut self, call: KeyCall, name: Item, key: Item, value: Item)
        ensures { self.new ≡ asks call name key value self.old }
    {
        self.stage = Stage::Find(call);
        self.name.give(name);
        self.key.give(key);
        self.value = value;
    }

    // The keys that were written, by leaf, and the first event.
    #[inline(always)]
    fn arrange(&mut self, stage: Stage)
        ensures { Arranges stage self.old self.new }
    {
        sort(&mut self.written);
        self.stage = stage;
    }
}

// A call that is not finished is in the way.
pub(crate) fn in_call() -> Reply
    ensures { result ≡ Reply.Answer (Answer.Refused (Refusal.Invalid Invalid.InCall)) }
{
    Reply::Answer(Answer::Refused(Refusal::Invalid(Invalid::InCall)))
}

pub(crate) fn empty(alloc: Global) -> Item
    ensures { result ≡ [] }
{
    Item::new(Vec::new(alloc))
}

fn stamps_given(commit: Option<u64>, durable: Option<u64>) -> CommitStamps
    ensures { result ≡ stamps_given commit durable }
{
    CommitStamps {
        commit,
        durable,
        prev: 0,
    }
}

fn sort(keys: &mut Vec<WrittenKey>)
    ensures { AreArranged keys.old.items keys.new.items }
{
    keys.sort_unstable_by_key(|key| key.frame);
}
