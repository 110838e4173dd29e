// The file's image.
ghost use Rattle.std.specs.Prelude.{◌≡◌, false, ◌*◌, ◌≤◌, ◌<◌, length, replicate};
ghost use Rattle.hex_format.specs.Reading.{unset, lines, lines_taken, reading_done, image_in_buffer, read_answer, hex_read};
ghost use Rattle.hex_read.specs.Code.Read.{reading_of};

use super::fill::fill;
use super::map::MAP_BYTES;
use super::walk::{Fault, walk};
use numbers::Refusal;
use settings::Settings;

// The answer: number, faulty line, first page and length of the image.
// For C, which has no Result: a number, 0 where nothing is refused; and line 0 where it isn't a line's fault.
#[repr(C)]
#[derive(Clone, Copy)]
pub struct HexImage {
    pub number: u32,
    pub line: u64,
    pub first: u32,
    pub bytes: u64,
}

// The image that was filled: its first page and its length.
#[derive(Clone, Copy)]
struct Filled {
    first: u32,
    bytes: usize,
}

// The image by way of a map that covers the flash.
fn read_map(
    map: &mut [u8; MAP_BYTES],
    size: usize,
    count: usize,
    file: &[u8],
    image: &mut [u8],
) -> Result<Filled, Fault>
    requires { (0 < size) × (size * count ≤ 65536) }
    ensures { reading_of result image.new
        ≡ image_in_buffer (read_answer size (length image.old) (lines_taken 0 false (replicate (size * count) unset) (lines file.now))) image.old }
{
    map.fill(0);
    let w = walk(map, size * count, file)?;
    if w.high == 0 {
        return Err(Refusal::NoData.into());
    }
    let page = w.low / size;
    let start = page * size;
    let bytes = (w.high - 1) / size * size + size - start;
    if image.len() < bytes {
        return Err(Refusal::BufferTooSmall.into());
    }
    fill(&mut image[..bytes], start, file);
    Ok(Filled {
        first: page as u32,
        bytes,
    })
}

// The image, for settings that are tested first.
fn read_tested(s: Settings, file: &[u8], image: &mut [u8]) -> Result<Filled, Fault>
    ensures { reading_of result image.new ≡ image_in_buffer (hex_read s (length image.old) file.now) image.old }
{
    settings::refusal(s)?;
    let mut map = [0u8; MAP_BYTES];
    read_map(&mut map, s.size as usize, s.count as usize, file, image)
}

// The file's image into the lent buffer; a refusal leaves that untouched.
pub fn read(s: Settings, file: &[u8], image: &mut [u8]) -> HexImage
    ensures { reading_done result.number result.line result.first result.bytes image.new
        ≡ image_in_buffer (hex_read s (length image.old) file.now) image.old }
{
    match read_tested(s, file, image) {
        Ok(filled) => HexImage {
            number: 0,
            line: 0,
            first: filled.first,
            bytes: filled.bytes as u64,
        },
        Err(fault) => HexImage {
            number: fault.refusal.into(),
            line: fault.line.unwrap_or(0),
            first: 0,
            bytes: 0,
        },
    }
}
