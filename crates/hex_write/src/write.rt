// The file of an image.
ghost use Rattle.std.specs.Prelude.{◌≡◌, ◌+◌, ◌*◌, ◌/◌, ◌≤◌, ◌++◌, length, drop, OnOk};
ghost use Rattle.numbers.specs.Numbers.{number_of};
ghost use Rattle.hex_format.specs.Writing.{data_lines, file_bytes, write_refusal, writing_done, file_in_buffer};
ghost use Rattle.hex_write.specs.Code.Firsts.{firsts};
ghost use Rattle.hex_write.specs.Code.Write.{writing_of};

use super::line::put_line;
use numbers::Refusal;
use settings::Settings;

// The answer: number, and length of the file.
// For C, which has no Result: a number, 0 where nothing is refused.
#[repr(C)]
#[derive(Clone, Copy)]
pub struct Written {
    pub number: u32,
    pub bytes: u64,
}

// The lines of an image. Tried by arrays of as_chunks_mut::<44>() and as_chunks::<16>(): the first promises nothing of
// what the slice holds afterwards; nor has an invariant a name for what is written by a zip of chunks_exact_mut(44).
fn put_lines(out: &mut [u8], a: usize, image: &[u8], n: usize)
    requires { (length image.now ≡ 16 * n) × (length out.old ≡ 44 * n + 12) × (a + 16 * n ≤ 65536) }
    ensures { out.new ≡ firsts n a image.now ++ drop (44 * n) out.old }
{
    for r in 0..n {
        let b = a + 16 * r;
        put_line(
            &mut out[44 * r..44 * r + 44],
            (b / 256) as u8,
            (b % 256) as u8,
            &image[16 * r..16 * r + 16],
        );
    }
}

// The lines of an image, and the end line.
fn put_file(out: &mut [u8], a: usize, image: &[u8], n: usize)
    requires { (length image.now ≡ 16 * n) × (length out.old ≡ 44 * n + 12) × (a + 16 * n ≤ 65536) }
    ensures { out.new ≡ data_lines n a image.now }
{
    put_lines(out, a, image, n);
    out[44 * n..].copy_from_slice(b":00000001FF\n");
}

// Whether writing is refused: what an opening asks, then the room. What isn't is whole records of 16 bytes, at
// addresses of two bytes.
fn refusal(s: Settings, first: u32, bytes: usize, room: usize) -> Result<(), Refusal>
    ensures number { number_of result ≡ write_refusal s first bytes room }
    ensures fits { OnOk result ((bytes ≡ 16 * (bytes / 16)) × (first * s.size + bytes ≤ 65536) × (file_bytes bytes ≤ room)) }
{
    settings::opening_refusal(s, first, bytes)?;
    if room < 44 * (bytes / 16) + 12 {
        return Err(Refusal::BufferTooSmall);
    }
    Ok(())
}

// The file of an image into the lent buffer, and its length.
fn write_tested(s: Settings, first: u32, image: &[u8], file: &mut [u8]) -> Result<usize, Refusal>
    ensures { writing_of result file.new ≡ file_in_buffer s first image.now file.old }
{
    refusal(s, first, image.len(), file.len())?;
    let records = image.len() / 16;
    let bytes = 44 * records + 12;
    let address = (first as usize) * (s.size as usize);
    put_file(&mut file[..bytes], address, image, records);
    Ok(bytes)
}

// The file of an image from its first page on into the lent buffer; a refusal leaves that untouched.
pub fn write(s: Settings, first: u32, image: &[u8], file: &mut [u8]) -> Written
    ensures { writing_done result.number result.bytes file.new ≡ file_in_buffer s first image.now file.old }
{
    match write_tested(s, first, image, file) {
        Ok(bytes) => Written {
            number: 0,
            bytes: bytes as u64,
        },
        Err(e) => Written {
            number: e.into(),
            bytes: 0,
        },
    }
}
