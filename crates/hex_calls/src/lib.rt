// The C face of reading and writing Intel HEX files; include/c2_hex.h declares it.
#![tactic(auto)]

ghost use Rattle.std.specs.Prelude.{◌≡◌, length};
ghost use Rattle.hex_format.specs.Reading.{reading_done, image_in_buffer, hex_read};
ghost use Rattle.hex_format.specs.Writing.{writing_done, file_in_buffer};

use hex_read::read::HexImage;
use hex_write::write::Written;
use settings::Settings;

#[unsafe(no_mangle)]
pub extern "C" fn c2_hex_read(settings: Settings, file: &[u8], image: &mut [u8]) -> HexImage
    ensures { reading_done result.number result.line result.first result.bytes image.new
        ≡ image_in_buffer (hex_read settings (length image.old) file.now) image.old }
{
    hex_read::read::read(settings, file, image)
}

#[unsafe(no_mangle)]
pub extern "C" fn c2_hex_write(
    settings: Settings,
    first: u32,
    image: &[u8],
    file: &mut [u8],
) -> Written
    ensures { writing_done result.number result.bytes file.new ≡ file_in_buffer settings first image.now file.old }
{
    hex_write::write::write(settings, first, image, file)
}
