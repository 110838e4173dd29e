// The record of a job: 520 bytes that a driver keeps over sleep (docs/RADIO_RECORD.md). Page and mask stand
// in it as they are; its last eight bytes tell image length and point.
#![tactic(auto)]

use radio_job::JobPoint;

mod held;
mod read;
mod write;

pub use held::unpack;
pub use write::point_bytes;

// The length of a record, and the places of its parts.
pub const RADIO_RECORD_BYTES: usize = 520;

pub const MASK: usize = 256;

pub const NUMBERS: usize = 512;

// What a record keeps: a job with an image of so many bytes, at this point.
#[derive(Clone, Copy)]
pub struct JobKept {
    pub bytes: usize,
    pub point: JobPoint,
}

// The numbers that tell a point. Those not in use are 0.
#[derive(Clone, Copy)]
struct JobFields {
    stage: u8,
    page: u8,
    number: u32,
    code: u32,
    offset: u32,
}
