// Pages of the flash that are set.
ghost use Rattle.std.specs.Prelude.{◌≡◌};
ghost use Rattle.radio_flash.specs.Code.Changes.{page_put};

use crate::{CONFIGURATION, FLASH_BYTES, PAGE_BYTES};

// Sets a page that can be set, if there are as many bytes as it has. The configuration's first four bytes stay.
#[tactic(auto, unfolding(crate::specs::Code::Changes::page_put, crate::specs::Flash::page_set))]
pub fn put_page(page: usize, bytes: &[u8], flash: &mut [u8])
    ensures { flash.new ≡ page_put page bytes.now flash.old }
{
    if flash.len() != FLASH_BYTES || CONFIGURATION < page || bytes.len() != PAGE_BYTES {
        return;
    }
    let start = PAGE_BYTES * page;
    let kept = if page == CONFIGURATION { 4 } else { 0 };
    flash[start + kept..start + PAGE_BYTES].copy_from_slice(&bytes[kept..]);
}
