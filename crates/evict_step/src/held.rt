// Versions of a leaf in memory whose transactions have not ended.

ghost use Rattle.std.specs.Prelude.{◌≡◌, ℕ, Some, None, true, false, IfSome, slice_get};
ghost use Rattle.row_page.specs.Rows.{Row as ARow};
ghost use Rattle.snapshot.specs.Sight.{is_seen};
ghost use Rattle.evict_step.specs.Cuts.{AllHeldSeen, HoldsLeastUnseen};

use leaf_frame::LeafFrame;
use row_page::Leaf;
use snapshot::Snapshot;

// The least id of an update's transaction that the snapshot does not see; where it sees each of these,
// that of a row. `O(n + k + r)` with n keys in the chains, k updates and r rows.
pub(crate) fn unresolved_in(leaf: &LeafFrame, live: &Snapshot) -> Option<u64>
    ensures none { result ≡ None → AllHeldSeen live.now.sight leaf.now }
    ensures some { IfSome result (λ id. HoldsLeastUnseen live.now.sight leaf.now id) }
{
    if let Some(id) = leaf.unresolved(live) {
        return Some(id);
    }
    match leaf.page() {
        None => None,
        Some(page) => row_unseen(page, live),
    }
}

// The id of a row's transaction that the snapshot does not see.
fn row_unseen(page: &Leaf, live: &Snapshot) -> Option<u64>
    ensures none { result ≡ None → (i : ℕ) (r : ARow) → slice_get page.now i ≡ Some r → is_seen live.now.sight r.1.window.name ≡ true }
    ensures some { IfSome result (λ id. (i : ℕ) × (r : ARow) × (slice_get page.now i ≡ Some r) × (is_seen live.now.sight r.1.window.name ≡ false) × (r.1.window.name.id ≡ id)) }
{
    for i in 0..page.len() {
        let name = page.cell(i).window.name;
        if !live.sees(name) {
            return Some(name.id);
        }
    }
    None
}
