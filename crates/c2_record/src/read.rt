// What the bytes of a record say, whatever they are.
ghost use Rattle.std.specs.Prelude.{◌≡◌};
ghost use Rattle.c2_record.specs.Record.{settings_read};
ghost use Rattle.c2_record.specs.Code.Said.{stage_said, act_said, place_said, point_said, no_session, session_beside};

use crate::words::two_bytes;
use crate::{
    ACT, ACT_HIGH, BITS, BLOCK, COUNT, DEVICE_ID, FIRST_PAGE, FIRST_REGISTER, FIRST_VALUE,
    FOURTH_REGISTER, FOURTH_VALUE, FPDAT, NUMBER, OFFSET, OFFSET_HIGH, PAGE, PAGE_COUNT, PAGE_SIZE,
    PAGE_SIZE_HIGH, PAGES, PAIR_COUNT, RECORD_BYTES, SECOND_REGISTER, SECOND_VALUE, STAGE, STROBE,
    THIRD_REGISTER, THIRD_VALUE, WAIT,
};
use c2_acts::Stage;
use c2_session::{At, Point, Session};
use c2_wire::Place;
use settings::{NO_PAIRS, Pairs, Settings};

#[tactic(auto, unfolding(crate::specs::Record::settings_read))]
fn read_pairs(r: &[u8; RECORD_BYTES]) -> Pairs
    ensures { result ≡ (settings_read r.now).pairs }
{
    Pairs {
        count: r[PAIR_COUNT],
        registers: [
            r[FIRST_REGISTER],
            r[SECOND_REGISTER],
            r[THIRD_REGISTER],
            r[FOURTH_REGISTER],
        ],
        values: [
            r[FIRST_VALUE],
            r[SECOND_VALUE],
            r[THIRD_VALUE],
            r[FOURTH_VALUE],
        ],
    }
}

#[tactic(auto, unfolding(crate::specs::Record::settings_read))]
pub(crate) fn read_settings(r: &[u8; RECORD_BYTES]) -> Settings
    ensures { result ≡ settings_read r.now }
{
    Settings {
        id: r[DEVICE_ID],
        fpdat: r[FPDAT],
        size: two_bytes(r[PAGE_SIZE], r[PAGE_SIZE_HIGH]),
        count: u32::from(r[PAGE_COUNT]),
        wait: r[WAIT],
        pairs: read_pairs(r),
    }
}

// The stage of a byte; one that is no stage's says Register, so it is no TryFrom.
#[tactic(auto, using(laws::proofs::Pick::picks), unfolding(crate::specs::Code::Said::stage_said))]
fn read_stage(n: u8) -> Stage
    ensures { result ≡ stage_said n }
{
    match n {
        0 => Stage::Lead,
        1 => Stage::Erase,
        2 => Stage::Write,
        3 => Stage::Read,
        4 => Stage::Close,
        _ => Stage::Register,
    }
}

pub(crate) fn read_act(r: &[u8; RECORD_BYTES]) -> At
    ensures { result ≡ act_said r.now }
{
    At {
        stage: read_stage(r[STAGE]),
        page: u32::from(r[PAGE]),
        block: u32::from(r[BLOCK]),
        act: two_bytes(r[ACT], r[ACT_HIGH]),
    }
}

pub(crate) fn read_place(r: &[u8; RECORD_BYTES]) -> Place
    ensures { result ≡ place_said r.now }
{
    Place {
        strobe: u32::from(r[STROBE]),
        count: u32::from(r[COUNT]),
        bits: u32::from(r[BITS]),
    }
}

#[tactic(auto, using(laws::proofs::Pick::picks), unfolding(crate::specs::Code::Said::point_said))]
pub(crate) fn read_point(r: &[u8; RECORD_BYTES]) -> Point
    ensures { result ≡ point_said r.now }
{
    if r[NUMBER] == 0 {
        let At {
            stage,
            page,
            block,
            act,
        } = read_act(r);
        let Place {
            strobe,
            count,
            bits,
        } = read_place(r);
        Point::Running {
            stage,
            page,
            block,
            act,
            strobe,
            count,
            bits,
        }
    } else {
        Point::Ended {
            number: u32::from(r[NUMBER]),
            offset: two_bytes(r[OFFSET], r[OFFSET_HIGH]),
        }
    }
}

// What stands for a session where there are not the 32 bytes of one: `session` never fails.
fn no_session() -> Session
    ensures { result ≡ no_session }
{
    Session {
        settings: Settings {
            id: 0,
            fpdat: 0,
            size: 0,
            count: 0,
            wait: 0,
            pairs: NO_PAIRS,
        },
        first: 0,
        pages: 0,
        point: Point::Ended {
            number: 0,
            offset: 0,
        },
    }
}

// The session of 32 bytes beside its point, which was unpacked before.
#[tactic(auto, using(laws::proofs::Pick::picks), unfolding(crate::specs::Code::Said::session_beside))]
pub fn session(r: &[u8], point: Point) -> Session
    ensures { result ≡ session_beside point r.now }
{
    let Some(r) = r.as_array() else {
        return no_session();
    };
    Session {
        settings: read_settings(r),
        first: u16::from(r[FIRST_PAGE]),
        pages: u16::from(r[PAGES]),
        point,
    }
}
