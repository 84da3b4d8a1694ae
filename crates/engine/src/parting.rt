// Leaves that part while sessions are at work: why one does not, and the leaves that take its place.

ghost use Rattle.std.specs.Prelude.{◌≡◌, ◌≢◌, ◌<◌, ◌^◌, ℕ, List, None, Some, false, length, IfOk, IfSome, IsTrue, OnErr};
ghost use Rattle.row_page.specs.Rows.{Row as ARow};
ghost use Rattle.tree_dir.specs.Leaves.{TakePlace, leaves_with};
ghost use Rattle.engine_world.specs.Parting.{IsPartedTo, leaf_ahead_of, table_walked, walked_by};
ghost use Rattle.engine_world.specs.Stands.{Stands};
ghost use Rattle.engine_world.specs.Worlds.{Records, World};
ghost use Rattle.engine.specs.Partings.{HasParted, IsComingTo, IsWalking, KeepsWhole, MayPart, NoneComes, NoneWalks};
ghost use Rattle.engine.specs.Sound.{IsSound};
ghost use Rattle.engine.specs.Told.{KeepOwn};

use crate::evicting::Stays;
use crate::local::Local;
use crate::parts::Parts;
use call_steps::{KeyCall, SessionState, Stage};
use engine_world::leaves_part;
use failure::NoMemory;
use inner_page::Entry;

impl Local {
    /// Why the leaf of this id may not part at this moment; none exactly where it may: it may be evicted
    /// (`why_it_stays`), no call is on its way to it, and none goes over its table leaf by leaf. `O(n)`
    /// in the sessions and in what their transactions wrote.
    pub fn why_it_does_not_part(&self, leaf: u64) -> Option<Stays>
        ensures none { result ≡ None → MayPart self.now leaf }
        ensures some { IfSome result (λ why. KeepsWhole self.now leaf why) }
        ensures not { IfSome result (λ why. MayPart self.now leaf → ⊥) }
    {
        self.parts.why_it_does_not_part(leaf)
    }

    /// Others take the place of the leaf of this id, where it may part (`why_it_does_not_part`), the first
    /// from its low key on, whoever is at work. They are in no frame, and another leaf may come into its
    /// own. Nobody sees it where their blocks have the newest version of each of its keys, and the history
    /// those older ones that are in reach. `Ok(false)` where it may not; then, and without memory, nothing
    /// is changed. `O(n)` in the sessions and in what their transactions wrote, and `O(log n)` comparisons
    /// for each with n leaves.
    pub fn part(&mut self, leaf: u64, entries: Vec<Entry>) -> Result<bool, NoMemory>
        requires { TakePlace leaf entries.items self.old.hub.dir.leaves }
        ensures parted { IfOk result (λ parted. IsTrue parted → HasParted self.old self.new leaf entries.items) }
        ensures not { IfOk result (λ parted. parted ≡ false → (MayPart self.old leaf → ⊥) × (self.new ≡ self.old)) }
        ensures kept { OnErr result (self.new ≡ self.old) }
        ensures stands { IfOk result (λ parted. IsTrue parted → (p : HasParted self.old self.new leaf entries.items) (w : World) (shelf : ℕ → List ARow) (records : Records) → Stands self.old w
            → IsPartedTo w self.old.hub.dir self.new.hub.dir p.way.leaf p.may.may.frame (leaves_with p.way.leaf.table p.way.ids entries.items) shelf records → Stands self.new (record w { shelf = shelf; records = records })) }
        ensures own { KeepOwn self.old self.new }
    {
        self.parts.part(leaf, entries)
    }
}

impl Parts {
    fn why_it_does_not_part(&self, leaf: u64) -> Option<Stays>
        requires sound { IsSound self.now }
        ensures none { result ≡ None → MayPart self.now leaf }
        ensures some { IfSome result (λ why. KeepsWhole self.now leaf why) }
        ensures not { IfSome result (λ why. MayPart self.now leaf → ⊥) }
    {
        if let Some(why) = self.why_it_stays(leaf) {
            return Some(why);
        }
        let _count = self.count();
        if let Some(session) = session_coming(&self.sessions, leaf) {
            return Some(Stays::Coming(session));
        }
        let Some(found) = self.hub.dir.leaf(leaf) else {
            return Some(Stays::Away);
        };
        match session_walking(&self.sessions, found.table) {
            None => None,
            Some(session) => Some(Stays::Walked(session)),
        }
    }

    fn part(&mut self, leaf: u64, entries: Vec<Entry>) -> Result<bool, NoMemory>
        requires place { TakePlace leaf entries.items self.old.hub.dir.leaves }
        requires sound { IsSound self.old }
        ensures parted { IfOk result (λ parted. IsTrue parted → HasParted self.old self.new leaf entries.items) }
        ensures not { IfOk result (λ parted. parted ≡ false → (MayPart self.old leaf → ⊥) × (self.new ≡ self.old)) }
        ensures kept { OnErr result (self.new ≡ self.old) }
        ensures stands { IfOk result (λ parted. IsTrue parted → (p : HasParted self.old self.new leaf entries.items) (w : World) (shelf : ℕ → List ARow) (records : Records) → Stands self.old w
            → IsPartedTo w self.old.hub.dir self.new.hub.dir p.way.leaf p.may.may.frame (leaves_with p.way.leaf.table p.way.ids entries.items) shelf records → Stands self.new (record w { shelf = shelf; records = records })) }
        ensures own { KeepOwn self.old self.new }
        ensures sound { IsSound self.new }
    {
        leaves_part();
        if let Some(_why) = self.why_it_does_not_part(leaf) {
            return Ok(false);
        }
        self.replace_leaf(leaf, entries)?;
        Ok(true)
    }
}

// The first session whose call is on its way to the leaf.
fn session_coming(sessions: &[SessionState], leaf: u64) -> Option<u32>
    requires { length sessions.now < 2 ^ 32 }
    ensures none { result ≡ None → NoneComes leaf sessions.now }
    ensures some { IfSome result (λ session. IsComingTo leaf sessions.now session) }
{
    for (at, session) in sessions.iter().enumerate() {
        if is_coming(session, leaf) {
            return Some(at as u32);
        }
    }
    None
}

fn is_coming(session: &SessionState, leaf: u64) -> bool
    ensures yes { IsTrue result → leaf_ahead_of session.now.stage ≡ Some leaf }
    ensures no { result ≡ false → leaf_ahead_of session.now.stage ≢ Some leaf }
{
    match leaf_ahead_of(session.stage()) {
        None => false,
        Some(ahead) => ahead == leaf,
    }
}

// The leaf that a call has not come to yet.
fn leaf_ahead_of(stage: Stage) -> Option<u64>
    ensures { result ≡ leaf_ahead_of stage }
{
    match stage {
        Stage::Fill(_, wanted) => Some(wanted.leaf),
        Stage::Publish(_, target) | Stage::Validate(_, target) => Some(target.leaf),
        _ => None,
    }
}

// The first session whose call goes over the table leaf by leaf.
fn session_walking(sessions: &[SessionState], table: u32) -> Option<u32>
    requires { length sessions.now < 2 ^ 32 }
    ensures none { result ≡ None → NoneWalks table sessions.now }
    ensures some { IfSome result (λ session. IsWalking table sessions.now session) }
{
    for (at, session) in sessions.iter().enumerate() {
        if is_walking(session, table) {
            return Some(at as u32);
        }
    }
    None
}

fn is_walking(session: &SessionState, table: u32) -> bool
    ensures yes { IsTrue result → table_walked session.now.stage ≡ Some table }
    ensures no { result ≡ false → table_walked session.now.stage ≢ Some table }
{
    match table_walked(session.stage()) {
        None => false,
        Some(walked) => walked == table,
    }
}

// The table that a call goes over leaf by leaf.
fn table_walked(stage: Stage) -> Option<u32>
    ensures { result ≡ table_walked stage }
{
    match stage {
        Stage::Fill(call, wanted) => walked_by(call, wanted.table),
        Stage::Publish(call, target)
        | Stage::Validate(call, target)
        | Stage::Look(call, target)
        | Stage::Pass(call, target) => walked_by(call, target.table),
        _ => None,
    }
}

fn walked_by(call: KeyCall, table: u32) -> Option<u32>
    ensures { result ≡ walked_by call table }
{
    match call {
        KeyCall::Step(_, _) => Some(table),
        _ => None,
    }
}
