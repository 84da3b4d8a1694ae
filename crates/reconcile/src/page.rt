//! The rows of a page, where there is one.

ghost use Rattle.std.specs.Prelude.{◌≡◌, ◌+◌, ◌<◌, ◌^◌, option_map, slice_get, IfSome};
ghost use Rattle.row_page.specs.Views.{row_seen};
ghost use Rattle.reconcile.specs.Held.{page_rows};

use row_page::{Cell, Leaf};

/// The i-th row, lent; none past the last one. `O(1)`.
pub fn row_at<'a>(page: Option<&'a Leaf>, i: usize) -> Option<Cell<'a>>
    ensures row { option_map row_seen result ≡ slice_get (page_rows page.entry) i }
    ensures room { IfSome result (λ _. i + 1 < 2 ^ 64) }
{
    let leaf = page?;
    if i < leaf.len() {
        Some(leaf.cell(i))
    } else {
        None
    }
}
