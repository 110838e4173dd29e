// The points of the module: which there are, and which messages each takes.
ghost use Rattle.std.specs.Prelude.{◌≡◌, ◌&&◌, ◌+◌, leb};
ghost use Rattle.radio_target.specs.Model.{is_point, is_taken};

use radio_flash::{CONFIGURATION, FLASH_BYTES, PAGE_BYTES};
use radio_target::ModulePoint;

// The pages up to the configuration and with it, which can be set; all, which can be read; the most for XRAM,
// of which radio_deeds has its own, a byte of a command.
const SET_PAGES: usize = CONFIGURATION + 1;

const FLASH_PAGES: usize = FLASH_BYTES / PAGE_BYTES;

const XRAM_PAGES: usize = 4;

// Whether there is a page at least, and none past the last. `as`, for a usize has no `From` of a u32.
fn spans(page: u32, left: u32, pages: usize) -> bool
    ensures { result ≡ (leb 1 left && leb (page + left) pages) }
{
    1 <= left && page as usize + left as usize <= pages
}

pub(crate) fn is_point(p: ModulePoint) -> bool
    ensures { result ≡ is_point p }
{
    match p {
        ModulePoint::Waits => true,
        ModulePoint::Takes { page, left } => spans(page, left, SET_PAGES),
        ModulePoint::Loads { left } => spans(0, left, XRAM_PAGES),
        ModulePoint::Sends { page, left } => spans(page, left, FLASH_PAGES),
    }
}

// A command by its length and head, data by their length.
pub(crate) fn is_taken(p: ModulePoint, m: &[u8]) -> bool
    ensures { result ≡ is_taken p m.now }
{
    match p {
        ModulePoint::Waits => matches!(m, [0xA5, 0x5A, 0xA5, _, _, _, _, _]),
        ModulePoint::Takes { .. } | ModulePoint::Loads { .. } => m.len() == PAGE_BYTES,
        ModulePoint::Sends { .. } => m.is_empty(),
    }
}
