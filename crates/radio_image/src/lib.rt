// What an opening asks of mask, data and image, and two pages compared.
#![tactic(auto)]

ghost use Rattle.std.specs.Prelude.{◌≡◌};
ghost use Rattle.numbers.specs.Numbers.{number_of};
ghost use Rattle.radio_job.specs.Image.{is_mask, mask_fits, image_fits, input_number, pages_for};
ghost use Rattle.radio_job.specs.Job.{shared};
ghost use Rattle.radio_image.specs.Page.{image_page_put};

use numbers::Refusal;

// A page of the module's flash, and so the length of mask and data.
pub const PAGE_BYTES: usize = 256;

// The most bytes of an image: pages 0 to 125.
pub const MOST_BYTES: usize = 32256;

// Whether each byte is 0x00 or 0xFF.
#[tactic(auto, unfolding(radio_job::specs::Image::is_mask))]
fn is_mask(m: &[u8]) -> bool
    ensures { result ≡ is_mask m.now }
{
    for b in m {
        if *b != 0x00 && *b != 0xFF {
            return false;
        }
    }
    true
}

// Whether a mask is one: 256 such bytes, of which 2 and 3 name nothing.
#[tactic(auto, unfolding(radio_job::specs::Image::mask_fits))]
pub fn mask_fits(m: &[u8]) -> bool
    ensures { result ≡ mask_fits m.now }
{
    m.len() == PAGE_BYTES && m[2] == 0x00 && m[3] == 0x00 && is_mask(m)
}

// Whether an image may be so long.
#[tactic(auto, unfolding(radio_job::specs::Image::image_fits))]
pub fn image_fits(bytes: usize) -> bool
    ensures { result ≡ image_fits bytes }
{
    1 <= bytes && bytes <= MOST_BYTES
}

// What an opening asks of mask, data and image.
#[tactic(auto, unfolding(radio_job::specs::Image::input_number))]
pub fn input_refusal(mask: &[u8], ours: usize, bytes: usize) -> Result<(), Refusal>
    ensures { number_of result ≡ input_number mask.now ours bytes }
{
    if !mask_fits(mask) || ours != PAGE_BYTES {
        return Err(Refusal::BadMask);
    }
    if !image_fits(bytes) {
        return Err(Refusal::BadImageLength);
    }
    Ok(())
}

// The number of pages that so many bytes take.
pub fn pages_for(bytes: usize) -> usize
    ensures { result ≡ pages_for bytes }
{
    bytes.div_ceil(PAGE_BYTES)
}

// How many bytes two slices share before the first that differs.
#[tactic(auto, unfolding(radio_job::specs::Job::shared))]
pub fn shared(a: &[u8], b: &[u8]) -> usize
    ensures { result ≡ shared a.now b.now }
{
    for (i, x) in a.iter().enumerate() {
        if b.len() <= i || *x != b[i] {
            return i;
        }
    }
    a.len()
}

// Writes a page of the padded image into a buffer of 256 bytes. Another buffer, and one for a page that the
// image does not have, is left as it was.
pub fn put_page(image: &[u8], page: usize, out: &mut [u8])
    ensures { out.new ≡ image_page_put image.now page out.old }
{
    if out.len() != PAGE_BYTES || pages_for(image.len()) <= page {
        return;
    }
    let start = page * PAGE_BYTES;
    let end = image.len().min(start + PAGE_BYTES);
    out.fill(0xFF);
    out[..end - start].copy_from_slice(&image[start..end]);
}
