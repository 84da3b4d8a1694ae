// Whether records fit rows of their keys, as those of a device's history do.
ghost use Rattle.std.specs.Prelude.{◌≡◌, length};
ghost use Rattle.std.specs.List.{list_all};
ghost use Rattle.row_page.specs.Reading.{is_number, window_fits};
ghost use Rattle.row_page.specs.Rows.{value_of};
ghost use Rattle.kept_open.specs.Keeping.{record_fits};

use inner_page::HistoryRecord;
use item::Item;
use limits::{KEY_MAX, VALUE_MAX};
use row_page::CellChange;
use stamp::Window;

// Each number is below this.
const NUMBERS_END: u64 = 1 << 62;

// `O(n)`.
pub(crate) fn all_fit(records: &[HistoryRecord]) -> bool
    ensures { result ≡ list_all record_fits records.now }
{
    records.iter().all(|of| fits(of))
}

fn fits(of: &HistoryRecord) -> bool
    ensures { result ≡ record_fits of.now }
{
    let window = of.version.window;
    let _table = of.table;
    of.key.len() <= KEY_MAX && value_len(&of.version.change) <= VALUE_MAX && window_fits(window)
}

fn value_len(change: &CellChange<Item>) -> usize
    ensures { result ≡ length (value_of change.now) }
{
    match change {
        CellChange::Put(value) => value.len(),
        CellChange::Remove => 0,
    }
}

fn window_fits(window: Window) -> bool
    ensures { result ≡ window_fits window }
{
    is_number(window.name.run) && is_number(window.name.id) && window.commit <= window.durable
}

fn is_number(n: u64) -> bool
    ensures { result ≡ is_number n }
{
    1 <= n && n < NUMBERS_END
}
