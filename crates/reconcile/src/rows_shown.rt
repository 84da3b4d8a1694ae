// What the rows of a leaf show: a law.
ghost use Rattle.reconcile.specs.ShowsLaws.{RowsAreOne};

/// Rows in order that show of each key the same are the same rows.
pub fn rows_tell()
    ensures { RowsAreOne }
{}
