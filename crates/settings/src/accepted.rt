// Which settings are accepted: the numbers 1 to 3, 18 and 19.
ghost use Rattle.std.specs.Prelude.{◌≡◌, cond, ◌&&◌, leb};
ghost use Rattle.numbers.specs.Numbers.{number_of, bad_page_count, bad_wait_limit, bad_pairs};
ghost use Rattle.settings.specs.Accepted.{settings_refusal};
ghost use Rattle.settings.specs.Registers.{are_pairs};

use crate::Settings;
use crate::registers::are_pairs;
use numbers::Refusal;

// The tests of a WAIT limit and of pairs.
fn wait_refusal(s: Settings) -> Result<(), Refusal>
    ensures { number_of result ≡ cond (leb 1 s.wait) (cond (are_pairs s.fpdat s.pairs) 0 bad_pairs) bad_wait_limit }
{
    if s.wait == 0 {
        return Err(Refusal::BadWaitLimit);
    }
    if !are_pairs(s.fpdat, s.pairs) {
        return Err(Refusal::BadPairs);
    }
    Ok(())
}

// The tests from the page count on; `most` pages are 65,536 bytes.
fn count_refusal(s: Settings, most: u32) -> Result<(), Refusal>
    ensures { number_of result ≡ cond (leb 1 s.count && leb s.count most) (cond (leb 1 s.wait) (cond (are_pairs s.fpdat s.pairs) 0 bad_pairs) bad_wait_limit) bad_page_count }
{
    if s.count == 0 || most < s.count {
        return Err(Refusal::BadPageCount);
    }
    wait_refusal(s)
}

// Whether settings are accepted, or why not.
pub fn refusal(s: Settings) -> Result<(), Refusal>
    ensures { number_of result ≡ settings_refusal s }
{
    if s.fpdat < 3 {
        return Err(Refusal::BadFpdat);
    }
    match s.size {
        512 => count_refusal(s, 128),
        1024 => count_refusal(s, 64),
        _ => Err(Refusal::BadPageSize),
    }
}
