// What the program says of an image: a fresh modelled target is programmed with it from page 0.
#![tactic(auto)]

ghost use Rattle.std.specs.Prelude.{◌≡◌, length};
ghost use Rattle.c2_report.specs.Report.{reported};
ghost use Rattle.c2_report.specs.Code.{answered};

use c2_run::{Run, c2_program};
use c2_session::Session;
use numbers::Refusal;
use settings::{NO_PAIRS, Settings, opening_refusal};

// The pages that were programmed, the replies that this took, and the outcome.
#[derive(Clone, Copy)]
pub struct Report {
    pub pages: usize,
    pub replies: usize,
    pub outcome: u32,
}

const PAGE: usize = 512;

const FLASH: usize = 16384;

const DEVICE: Settings = Settings {
    id: 0x04,
    fpdat: 0xb4,
    size: 512,
    count: 32,
    wait: Session::WAIT_LIMIT,
    pairs: NO_PAIRS,
};

// Runs a session over the image. One that is larger than the flash has too many pages. The budget is above the most
// steps that a session on this device has.
fn programmed(image: &[u8]) -> Result<Run, Refusal>
    ensures { answered (length image.now) result ≡ reported image.now }
{
    if FLASH < image.len() {
        return Err(Refusal::PastLastPage);
    }
    opening_refusal(DEVICE, 0, image.len())?;
    let mut flash = [0; FLASH];
    Ok(c2_program(DEVICE, 0, image, &mut flash, &[], usize::MAX))
}

pub fn report_of(image: &[u8]) -> Report
    ensures { result ≡ reported image.now }
{
    match programmed(image) {
        Ok(run) => Report {
            pages: image.len() / PAGE,
            replies: run.replies,
            outcome: run.number,
        },
        Err(refused) => Report {
            pages: 0,
            replies: 0,
            outcome: refused.into(),
        },
    }
}
