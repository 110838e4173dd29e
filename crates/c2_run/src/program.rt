// A session run whole against a fresh target.
ghost use Rattle.std.specs.Prelude.{◌≡◌};
ghost use Rattle.c2_run.specs.Run.{run_answer, run_flash};
ghost use Rattle.c2_run.specs.Code.{answered};

use crate::Run;
use c2_outcome::outcome_of;
use c2_target_step::{Ran, play};
use numbers::Refusal;
use settings::{Settings, opening_refusal};

// Opens a session and plays it, if neither the opening nor the target refuses.
fn played(
    t: Settings,
    first: u32,
    image: &[u8],
    flash: &mut [u8],
    delays: &[u8],
    budget: usize,
) -> Result<Ran, Refusal>
    ensures value { answered result ≡ run_answer t first image.now flash.old delays.now budget }
    ensures flash_after { flash.new ≡ run_flash t first image.now flash.old delays.now budget }
{
    opening_refusal(t, first, image.len())?;
    let start = c2_opening::start(t, first, image.len());
    play(t, start, image, flash, delays, budget)
}

// Programs a fresh target that wants no pairs, with these settings, flash and delays: opens a session for the
// image from the first page on, and runs it for at most so many replies. Refused by 1 to 5, 18 and 19 as an
// opening is, and by 17 for a flash that is not size times count bytes; the flash is then unchanged. The
// program calls it, and by its C name (c2_run_c) the benchmark.
pub fn c2_program(
    t: Settings,
    first: u32,
    image: &[u8],
    flash: &mut [u8],
    delays: &[u8],
    budget: usize,
) -> Run
    ensures value { result ≡ run_answer t first image.now flash.old delays.now budget }
    ensures flash_after { flash.new ≡ run_flash t first image.now flash.old delays.now budget }
{
    match played(t, first, image, flash, delays, budget) {
        Ok(ran) => {
            let outcome = outcome_of(ran.point);
            Run {
                number: outcome.number,
                offset: outcome.offset,
                replies: ran.replies,
                collision: ran.collision,
            }
        }
        Err(refused) => Run {
            number: refused.into(),
            offset: 0,
            replies: 0,
            collision: false,
        },
    }
}
