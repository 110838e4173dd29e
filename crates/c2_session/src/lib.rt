// A programming session as a value: settings, pages and the point reached in the session's order. A runner
// takes a session's point through the order, reply by reply.
#![tactic(auto)]

use c2_acts::{Stage, Task};
use settings::Settings;

mod bytes;
mod judge;
mod next;
mod run;
mod script;

pub use run::set_off;

// An act of the order: its stage, the page of the image and the block of the page, and its number in the
// stage. In the stage Register the pair's number stands where others have the page.
#[derive(Clone, Copy)]
pub struct At {
    pub stage: Stage,
    pub page: u32,
    pub block: u32,
    pub act: u32,
}

// The point that a session has reached: an act, the strobe in its frame, the zeros seen in a WAIT or the
// reads done in a poll, and the bits sampled so far; or the outcome, with the image offset for 14. The outcome is
// a number and no enum: a record's bytes may hold any, and the laws of packing them speak of every number. The numbers
// of a running point stand by themselves, as the record and the definition `position` have them.
#[derive(Clone, Copy)]
pub enum Point {
    Running {
        stage: Stage,
        page: u32,
        block: u32,
        act: u32,
        strobe: u32,
        count: u32,
        bits: u32,
    },
    Ended {
        number: u32,
        offset: u32,
    },
}

#[derive(Clone, Copy)]
pub struct Session {
    pub settings: Settings,
    pub first: u16,
    pub pages: u16,
    pub point: Point,
}

// A session's point on its way, what the act there does, and what is left of the act's script; the script is 0
// as long as it is not known. The session itself stands beside its runner and stays as it is.
#[derive(Clone, Copy)]
pub struct Runner {
    pub point: Point,
    pub task: Task,
    pub script: u64,
}

impl Session {
    // The point before a session's first step.
    pub const FIRST: Point = Point::Running {
        stage: Stage::Lead,
        page: 0,
        block: 0,
        act: 0,
        strobe: 0,
        count: 0,
        bits: 0,
    };

    // The limit of a WAIT that old units have; a session's own stands in its settings.
    pub const WAIT_LIMIT: u8 = 20;

    // The limit of a poll: so many unsatisfied reads refuse.
    pub const POLL_LIMIT: u32 = 256;
}
