// Which sessions are within their ranges (document 01, "What the driver keeps over sleep").
ghost use Rattle.std.specs.Prelude.{◌≡◌};
ghost use Rattle.c2_acts.specs.Code.Acts.{acts_in};
ghost use Rattle.c2_range.specs.Range.{pages_in, blocks_in, opening_in_range, running_in_range, ends_session, offsets_of, ended_in_range};
ghost use Rattle.c2_range.specs.Code.Bounds.{inside};

use crate::bounds::{inside, place_in_range};
use c2_acts::{Stage, task_of};
use c2_session::At;
use c2_wire::Place;
use numbers::{BAD_REPLY, COMPARE_DIFFERS, DONE};
use settings::{Settings, is_tidy, refusal};

// Whether settings and pages are in range: what opening asks of them would pass, and entries of pairs that are not
// named are 0.
#[tactic(auto, using(crate::proofs::Laws::Decide::decides))]
pub fn opening_in_range(t: Settings, first: u16, pages: u16) -> bool
    ensures { result ≡ opening_in_range t first pages }
{
    pages != 0
        && u32::from(first) + u32::from(pages) <= t.count
        && refusal(t).is_ok()
        && is_tidy(t.pairs)
}

fn act_in_range(size: u32, pairs: u8, pages: u16, at: At) -> bool
    ensures { result ≡ inside (pages_in at.stage pairs pages) (blocks_in at.stage size) (acts_in at.stage) at.page at.block at.act }
{
    match at.stage {
        Stage::Lead | Stage::Close => inside(1, 1, at),
        Stage::Erase => inside(pages, 1, at),
        Stage::Write | Stage::Read => inside(pages, size / 256, at),
        Stage::Register => inside(u16::from(pairs), 1, at),
    }
}

// Whether a running point exists in the order of a session with so many pairs, over this many pages of this size.
// The numbers are loose, as its definition has them: c2_record, which calls it, and `RangesAre` speak of each.
#[tactic(auto, using(crate::proofs::Laws::Bounds::running_is), unfolding(crate::specs::Code::Bounds::running_by))]
pub fn running_in_range(
    wait: u32,
    reads: u32,
    size: u32,
    pairs: u8,
    pages: u16,
    at: At,
    place: Place,
) -> bool
    ensures { result ≡ running_in_range wait reads size pairs pages at.stage at.page at.block at.act place.strobe place.count place.bits }
{
    act_in_range(size, pairs, pages, at)
        && place_in_range(wait, reads, task_of(at.stage, at.act), place)
}

#[tactic(auto, unfolding(crate::specs::Range::ends_session))]
fn ends_session(number: u32) -> bool
    ensures { result ≡ ends_session number }
{
    matches!(number, DONE | BAD_REPLY..=COMPARE_DIFFERS)
}

// What the offset of an outcome is below, for an image of this many bytes.
#[tactic(auto, unfolding(crate::specs::Range::offsets_of))]
fn offsets_of(number: u32, bytes: usize) -> usize
    ensures { result ≡ offsets_of number bytes }
{
    if number == COMPARE_DIFFERS { bytes } else { 1 }
}

// Whether an outcome ends a session over an image of this many bytes, with an offset that it may have.
#[tactic(auto, unfolding(crate::specs::Range::ended_in_range))]
pub fn ended_in_range(bytes: usize, number: u32, offset: u32) -> bool
    ensures { result ≡ ended_in_range bytes number offset }
{
    ends_session(number) && (offset as usize) < offsets_of(number, bytes)
}
