// What an opening asks of settings, first page and image: the numbers 1 to 3, 18, 19, 4 and 5.
ghost use Rattle.std.specs.Prelude.{◌≡◌, cond, leb, ◌+◌, ◌*◌, ◌<◌};
ghost use Rattle.numbers.specs.Numbers.{number_of, bad_image, past_last_page};
ghost use Rattle.settings.specs.Opening.{is_image, are_pages, opening_refusal};

use crate::Settings;
use crate::accepted::refusal;
use numbers::Refusal;

// The test of an image's pages, from the first page on.
fn pages_refusal(first: u32, count: u32, pages: usize) -> Result<(), Refusal>
    ensures { number_of result ≡ cond (leb (first + pages) count) 0 past_last_page }
{
    match (count as usize).checked_sub(pages) {
        Some(last) if (first as usize) <= last => Ok(()),
        _ => Err(Refusal::PastLastPage),
    }
}

#[tactic(auto, using(std::proofs::lemmas::Bool::Decides::nat_tests), unfolding(crate::specs::Opening::is_image, crate::specs::Opening::are_pages))]
fn image_refusal(t: Settings, first: u32, bytes: usize) -> Result<(), Refusal>
    requires { 0 < t.size }
    ensures { number_of result ≡ cond (is_image t.size bytes) (cond (are_pages t first bytes) 0 past_last_page) bad_image }
{
    let size = t.size as usize;
    if bytes == 0 || bytes % size != 0 {
        return Err(Refusal::BadImage);
    }
    pages_refusal(first, t.count, bytes / size)
}

// Whether an opening is accepted, or why not.
pub fn opening_refusal(t: Settings, first: u32, bytes: usize) -> Result<(), Refusal>
    ensures { number_of result ≡ opening_refusal t first bytes }
{
    refusal(t)?;
    image_refusal(t, first, bytes)
}

// The length of an image of so many pages. One in range has at most 65,536 bytes.
pub fn image_bytes(size: u32, pages: u16) -> usize
    ensures { result ≡ size * pages }
{
    (size as usize) * usize::from(pages)
}
