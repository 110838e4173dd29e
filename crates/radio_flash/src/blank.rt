// Whether program area and configuration are erased.
ghost use Rattle.std.specs.Prelude.{◌≡◌};
ghost use Rattle.radio_flash.specs.Flash.{is_blank};

use crate::AREA_BYTES;

pub fn is_blank(flash: &[u8]) -> bool
    ensures { result ≡ is_blank flash.now }
{
    for b in &flash[..AREA_BYTES.min(flash.len())] {
        if *b != 0xFF {
            return false;
        }
    }
    true
}
