// The changes that commands make to the flash.
ghost use Rattle.std.specs.Prelude.{◌≡◌};
ghost use Rattle.radio_flash.specs.Code.Changes.{change_made};

use crate::pages::put_page;
use crate::{AREA_BYTES, FLASH_BYTES, FlashChange, PAGE_BYTES};

// Makes a change that lies in program area and configuration.
#[tactic(auto, unfolding(crate::specs::Code::Changes::change_made, crate::specs::Code::Changes::page_put, crate::specs::Flash::byte_set, crate::specs::Flash::mass_erased))]
pub fn change(c: FlashChange, flash: &mut [u8])
    ensures { flash.new ≡ change_made c flash.old }
{
    if flash.len() != FLASH_BYTES {
        return;
    }
    match c {
        FlashChange::Byte { at, to } if at < AREA_BYTES => flash[at] = to,
        FlashChange::Page { page } => put_page(page, &[0xFF; PAGE_BYTES], flash),
        FlashChange::Area => flash[..AREA_BYTES].fill(0xFF),
        _ => {}
    }
}
