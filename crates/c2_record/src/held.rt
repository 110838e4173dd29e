// A record taken apart: the point that its session has reached, or none.
ghost use Rattle.std.specs.Prelude.{◌≡◌};
ghost use Rattle.c2_order.specs.Conversation.{limits_of};
ghost use Rattle.c2_record.specs.Record.{unpacked, reached_in};
ghost use Rattle.c2_record.specs.Code.Holds.{is_session, running_holds, point_holds};

use crate::read::{read_act, read_place, read_point, read_settings};
use crate::spare::{spare, unused};
use crate::words::two_bytes;
use crate::{FIRST_PAGE, NUMBER, OFFSET, OFFSET_HIGH, PAGES, RECORD_BYTES, STAGE, STAGES};
use c2_range::{ended_in_range, opening_in_range, running_in_range};
use c2_session::{Point, Session};
use settings::{Settings, image_bytes};

#[tactic(auto, using(laws::proofs::Pick::picks), unfolding(crate::specs::Code::Holds::running_holds))]
fn running_holds(t: Settings, pages: u16, r: &[u8; RECORD_BYTES]) -> bool
    ensures { result ≡ running_holds (limits_of t) t.size t.pairs.count pages r.now }
{
    r[STAGE] < STAGES
        && running_in_range(
            u32::from(t.wait),
            Session::POLL_LIMIT,
            t.size,
            t.pairs.count,
            pages,
            read_act(r),
            read_place(r),
        )
}

// Whether the point is in range, of a session with these settings over so many pages.
#[tactic(auto, using(laws::proofs::Pick::picks), unfolding(crate::specs::Code::Holds::point_holds))]
fn point_holds(t: Settings, pages: u16, r: &[u8; RECORD_BYTES]) -> bool
    ensures { result ≡ point_holds (limits_of t) t.size t.pairs.count pages r.now }
{
    if r[NUMBER] == 0 {
        running_holds(t, pages, r)
    } else {
        ended_in_range(
            image_bytes(t.size, pages),
            u32::from(r[NUMBER]),
            two_bytes(r[OFFSET], r[OFFSET_HIGH]),
        )
    }
}

// Whether a record holds a session in range. Only its bytes are tested: no session is put together.
fn holds(r: &[u8; RECORD_BYTES]) -> bool
    ensures { result ≡ is_session (unpacked r.now) }
{
    let t = read_settings(r);
    let pages = u16::from(r[PAGES]);
    spare(r)
        && opening_in_range(t, u16::from(r[FIRST_PAGE]), pages)
        && unused(r)
        && point_holds(t, pages, r)
}

// The point that the session of a record has reached, or none: it holds no session in range.
pub fn point(r: &[u8]) -> Option<Point>
    ensures { result ≡ reached_in (unpacked r.now) }
{
    let r = r.as_array()?;
    if holds(r) { Some(read_point(r)) } else { None }
}
