// What there is to be read of a device.
ghost use Rattle.std.specs.Prelude.{◌≡◌, ℕ, List};
ghost use Rattle.stored.specs.Records.{Root as StoredRoot};
ghost use Rattle.stored.specs.HistoryTree.{HistoryTree};
ghost use Rattle.hist_open.specs.Trees.{HasHistory, NoHistory};
ghost use Rattle.hist_open.specs.Damage.{HistorySpoils};

/// Where damage is told, the device has no history of this root.
pub fn damage_is_no_history()
    ensures { (bytes : List ℕ) (root : StoredRoot) (at want found : ℕ) → HistorySpoils bytes root at want found → NoHistory bytes root }
{}

/// A root leads to one history at most.
pub fn one_history()
    ensures { (bytes : List ℕ) (root : StoredRoot) (t other : HistoryTree) → HasHistory bytes root t → HasHistory bytes root other → t ≡ other }
{}
