// A frame of an act as numbers, and tests of numbers below others.
ghost use Rattle.std.specs.Prelude.{◌≡◌, ◌^◌, ◌≤◌};
ghost use Rattle.c2_acts.specs.Code.Acts.{acts_in};
ghost use Rattle.c2_range.specs.Range.{place_in_range};
ghost use Rattle.c2_range.specs.Code.Bounds.{strobes_in, reads_in, strobes_by, limit_by, sampled_by, limit_from, sampled_from, inside};

use c2_acts::{Task, acts_in};
use c2_session::At;
use c2_wire::{
    ADDRESS_SAMPLES, ADDRESS_STROBES, DATA_SAMPLES, DATA_STROBES, Place, READ_WAIT, WRITE_WAIT,
};

// What the numbers of a place are below: its strobe, its count, and its bits, of which so many are sampled.
#[derive(Clone, Copy)]
struct Bounds {
    strobes: u32,
    limit: u32,
    sampled: u32,
    ghost byte: { sampled ≤ 8 },
}

impl Bounds {
    // What the value of the sampled bits is below.
    fn bits(self) -> u32
        ensures { result ≡ 2 ^ self.sampled }
    {
        1u32 << self.sampled
    }
}

// What a count is below at a strobe: in the WAIT its limit; elsewhere there is nothing to count, so 1.
fn limit_from(waits: u32, wait: u32, strobe: u32) -> u32
    ensures { result ≡ limit_from waits wait strobe }
{
    if strobe == waits { wait } else { 1 }
}

// How many of the eight strobes from this first one on are passed.
fn sampled_from(first: u32, strobe: u32) -> u32
    ensures { result ≡ sampled_from first strobe }
{
    strobe.saturating_sub(first).min(8)
}

// The bounds at a strobe of an act.
fn bounds_of(wait: u32, reads: u32, task: Task, strobe: u32) -> Bounds
    ensures strobes { result.strobes ≡ strobes_by task }
    ensures limit { result.limit ≡ limit_by wait reads task strobe }
    ensures sampled { result.sampled ≡ sampled_by task strobe }
{
    match task {
        Task::Reset | Task::Pause => Bounds {
            strobes: 1,
            limit: 1,
            sampled: 0,
        },
        Task::Address => Bounds {
            strobes: ADDRESS_STROBES,
            limit: 1,
            sampled: 0,
        },
        Task::Send => Bounds {
            strobes: DATA_STROBES,
            limit: limit_from(WRITE_WAIT, wait, strobe),
            sampled: 0,
        },
        Task::Input | Task::Output => Bounds {
            strobes: ADDRESS_STROBES,
            limit: reads,
            sampled: sampled_from(ADDRESS_SAMPLES, strobe),
        },
        Task::Ident | Task::Status | Task::Compare => Bounds {
            strobes: DATA_STROBES,
            limit: limit_from(READ_WAIT, wait, strobe),
            sampled: sampled_from(DATA_SAMPLES, strobe),
        },
    }
}

// Whether a place is one of an act's frame, with its count below the limit and no bit beyond those sampled.
#[tactic(auto, using(crate::proofs::Laws::Bounds::place_by))]
pub(crate) fn place_in_range(wait: u32, reads: u32, task: Task, place: Place) -> bool
    ensures { result ≡ place_in_range wait (reads_in reads task) (strobes_in task) place.strobe place.count place.bits }
{
    let bounds = bounds_of(wait, reads, task, place.strobe);
    place.strobe < bounds.strobes && place.count < bounds.limit && place.bits < bounds.bits()
}

// Whether an act is one of its stage, in one of so many blocks of so many pages.
pub(crate) fn inside(pages: u16, blocks: u32, at: At) -> bool
    ensures { result ≡ inside pages blocks (acts_in at.stage) at.page at.block at.act }
{
    at.page < u32::from(pages) && at.block < blocks && at.act < acts_in(at.stage)
}
