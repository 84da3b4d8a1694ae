//! Looks at all updates of a leaf.

ghost use Rattle.std.specs.Prelude.{◌≡◌, ◌≢◌, ℕ, List, [], IfSome, MatchBool, MatchOption, Some};
ghost use Rattle.snapshot.specs.Sight.{is_seen};
ghost use Rattle.leaf_chains.specs.Slots.{chain_at};
ghost use Rattle.update_chain.specs.FrameLaws.{durable_of};
ghost use Rattle.leaf_frame.specs.Updates.{AllSeen, IsLeastUnseen, least_in, lesser, unseen_id};

use leaf_chains::LeafChains;
use snapshot::Snapshot;
use update_chain::{Chain, Update};

// Whether there is an update. `O(1)` where the first key has one, else `O(n)` in the keys.
pub(crate) fn has_updates(chains: &LeafChains) -> bool
    ensures { MatchBool result ((key : List ℕ) × (chain_at key chains.now ≢ [])) ((key : List ℕ) → chain_at key chains.now ≡ []) }
{
    let mut walk = chains.walk_above(None);
    while let Some(slot) = walk.next_entry() {
        if let Some(there) = chains.slot(slot) {
            if !there.chain.is_empty() {
                return true;
            }
        }
    }
    false
}

// The least id of an update that the snapshot does not see. `O(n + k)` in keys and updates.
pub(crate) fn least_unseen(chains: &LeafChains, live: &Snapshot) -> Option<u64>
    ensures { MatchOption result (AllSeen live.now.sight chains.now) (IsLeastUnseen live.now.sight chains.now) }
{
    let mut least = None;
    let mut walk = chains.walk_above(None);
    while let Some(slot) = walk.next_entry() {
        if let Some(there) = chains.slot(slot) {
            least = lesser(least, least_in(&there.chain, live));
        }
    }
    least
}

// The same, of a chain.
fn least_in(chain: &Chain, live: &Snapshot) -> Option<u64>
    ensures { result ≡ least_in live.now.sight chain.now }
{
    let mut least = None;
    for place in 0..chain.len() {
        if let Some(update) = chain.get(place) {
            least = lesser(least, unseen_id(update, live));
        }
    }
    least
}

fn unseen_id(update: &Update, live: &Snapshot) -> Option<u64>
    ensures { result ≡ unseen_id live.now.sight update.now }
{
    let name = update.version.window.name;
    if live.sees(name) { None } else { Some(name.id) }
}

fn lesser(a: Option<u64>, b: Option<u64>) -> Option<u64>
    ensures { result ≡ lesser a b }
{
    match a {
        None => b,
        Some(x) => match b {
            None => Some(x),
            Some(y) => Some(x.min(y)),
        },
    }
}
