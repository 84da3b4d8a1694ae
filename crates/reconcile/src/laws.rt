//! A law of what is made of a key.

ghost use Rattle.reconcile.specs.Laws.{KeysAreReconciled};

/// Of what a leaf holds of a key, newest first, the newest live version and those that move lose
/// nothing but what a live version that is past makes unreachable.
pub fn keys_are_reconciled()
    ensures { KeysAreReconciled }
{}
