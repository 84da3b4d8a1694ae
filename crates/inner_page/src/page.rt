// What the pages of both kinds have in common.
ghost use Rattle.std.specs.Prelude.{◌≡◌, ◌*◌, ◌<◌, ◌^◌};
ghost use Rattle.inner_page.specs.Pages.{page_fits};

use limits::LEVELS_MAX;

// The greatest length of a page's text, in bytes: its image without the header.
const TEXT_MAX: usize = 4_080;

// Whether a page may have this level, so many entries of at least so many bytes, and a text of this
// length.
pub(crate) fn page_fits(least: usize, level: u64, count: u16, len: usize) -> bool
    requires { least < 2 ^ 16 }
    ensures { result ≡ page_fits least level count len }
{
    let has_level = 1 <= level && level <= LEVELS_MAX as u64;
    let has_room = least * count as usize <= len && len <= TEXT_MAX;
    has_level && 1 <= count && has_room
}
