// The record of a session.
ghost use Rattle.std.specs.Prelude.{◌≡◌};
ghost use Rattle.c2_record.specs.Record.{stage_code, fields_of, laid, packed};
ghost use Rattle.c2_record.specs.Code.Put.{outcome_put, act_put, place_put, point_put};

use crate::words::{byte, high, low};
use crate::{
    ACT, ACT_HIGH, BITS, BLOCK, COUNT, Fields, NUMBER, OFFSET, OFFSET_HIGH, PAGE, RECORD_BYTES,
    STAGE, STROBE,
};
use c2_acts::Stage;
use c2_session::{Point, Session};
use settings::{Pairs, Settings};

// No From: the type is c2_acts's.
fn stage_code(stage: Stage) -> u8
    ensures { result ≡ stage_code stage }
{
    stage as u8
}

impl From<Point> for Fields {
    ghost from_gives = { λ p f. f ≡ fields_of p };

    fn from(point: Point) -> Fields {
        match point {
            Point::Running {
                stage,
                page,
                block,
                act,
                strobe,
                count,
                bits,
            } => Fields {
                stage: stage_code(stage),
                page,
                block,
                act,
                strobe,
                count,
                bits,
                ..Fields::default()
            },
            Point::Ended { number, offset } => Fields {
                number,
                offset,
                ..Fields::default()
            },
        }
    }
}

// The 32 bytes of a record.
#[tactic(auto, unfolding(crate::specs::Record::laid))]
fn lay(t: Settings, first: u16, pages: u16, f: Fields) -> [u8; RECORD_BYTES]
    ensures { result ≡ laid t first pages f }
{
    let Pairs {
        count,
        registers,
        values,
    } = t.pairs;
    [
        byte(t.id),
        byte(t.fpdat),
        low(t.size),
        high(t.size),
        low(t.count),
        low(u32::from(first)),
        low(u32::from(pages)),
        low(f.number),
        low(f.offset),
        high(f.offset),
        byte(f.stage),
        low(f.page),
        low(f.block),
        low(f.act),
        high(f.act),
        low(f.strobe),
        low(f.count),
        low(f.bits),
        byte(t.wait),
        byte(count),
        byte(registers[0]),
        byte(values[0]),
        byte(registers[1]),
        byte(values[1]),
        byte(registers[2]),
        byte(values[2]),
        byte(registers[3]),
        byte(values[3]),
        0,
        0,
        0,
        0,
    ]
}

// The record of a session.
#[tactic(auto, unfolding(crate::specs::Record::packed))]
pub fn pack(s: Session) -> [u8; RECORD_BYTES]
    ensures { result ≡ packed s }
{
    lay(s.settings, s.first, s.pages, s.point.into())
}

// The bytes of an outcome, 7 to 9, of an act, 10 to 14, and of a place, 15 to 17.
fn put_outcome(f: Fields, r: &mut [u8; RECORD_BYTES])
    ensures { r.new ≡ outcome_put f r.old }
{
    r[NUMBER] = low(f.number);
    r[OFFSET] = low(f.offset);
    r[OFFSET_HIGH] = high(f.offset);
}

fn put_act(f: Fields, r: &mut [u8; RECORD_BYTES])
    ensures { r.new ≡ act_put f r.old }
{
    r[STAGE] = byte(f.stage);
    r[PAGE] = low(f.page);
    r[BLOCK] = low(f.block);
    r[ACT] = low(f.act);
    r[ACT_HIGH] = high(f.act);
}

fn put_place(f: Fields, r: &mut [u8; RECORD_BYTES])
    ensures { r.new ≡ place_put f r.old }
{
    r[STROBE] = low(f.strobe);
    r[COUNT] = low(f.count);
    r[BITS] = low(f.bits);
}

// Writes a point into a record, whose other bytes stay. What is not 32 bytes long stays whole.
#[tactic(auto, using(crate::proofs::Laws::Put::put_none, crate::proofs::Laws::Put::put_fields))]
pub fn put_point(point: Point, r: &mut [u8])
    ensures { r.new ≡ point_put point r.old }
{
    let Some(r) = r.as_mut_array() else {
        return;
    };
    let f = Fields::from(point);
    put_outcome(f, r);
    put_act(f, r);
    put_place(f, r);
}
