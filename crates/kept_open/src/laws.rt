// Laws of what an opening keeps.
ghost use Rattle.kept_open.specs.Laws.{NoOthersOpen, OpenedRowsReturn, OpenedRowsShow, ReadHistoriesFit, RowsOpen, ShownRowsOpen, WholeRowsOpen};

/// What is read of a device's history fits, and a name stands once for each key of a table: so
/// `keep_history` takes it.
pub fn read_histories_fit()
    ensures { ReadHistoriesFit }
{}

/// The rows of a leaf's block that an opening keeps, with the first version that is kept of each key that
/// they do not show, show the newest version of each key of the leaf, and the others that are kept are the
/// older ones; so do any rows that show the same. A leaf that comes back with its own rows alone has the
/// same versions. Where an opening keeps each row, and each key of which versions are kept has one, they
/// are the rows of the block.
pub fn rows_open()
    ensures show { OpenedRowsShow }
    ensures open { RowsOpen }
    ensures alike { ShownRowsOpen }
    ensures none { NoOthersOpen }
    ensures back { OpenedRowsReturn }
    ensures whole { WholeRowsOpen }
{}
