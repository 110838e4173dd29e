// The record of a session: 32 bytes that a driver keeps over sleep (docs/RECORD.md), packed, and taken apart: the
// point that is reached, and the session beside it.
#![tactic(auto)]

mod held;
mod read;
mod spare;
mod words;
mod write;

pub use held::point;
pub use read::session;
pub use write::{pack, put_point};

// The length of a record, and the places of its fields (docs/RECORD.md). A field of two bytes has its low
// byte first.
pub const RECORD_BYTES: usize = 32;

const DEVICE_ID: usize = 0;

const FPDAT: usize = 1;

const PAGE_SIZE: usize = 2;

const PAGE_SIZE_HIGH: usize = 3;

const PAGE_COUNT: usize = 4;

const FIRST_PAGE: usize = 5;

const PAGES: usize = 6;

const NUMBER: usize = 7;

const OFFSET: usize = 8;

const OFFSET_HIGH: usize = 9;

const STAGE: usize = 10;

const PAGE: usize = 11;

const BLOCK: usize = 12;

const ACT: usize = 13;

const ACT_HIGH: usize = 14;

const STROBE: usize = 15;

const COUNT: usize = 16;

const BITS: usize = 17;

const WAIT: usize = 18;

const PAIR_COUNT: usize = 19;

const FIRST_REGISTER: usize = 20;

const FIRST_VALUE: usize = 21;

const SECOND_REGISTER: usize = 22;

const SECOND_VALUE: usize = 23;

const THIRD_REGISTER: usize = 24;

const THIRD_VALUE: usize = 25;

const FOURTH_REGISTER: usize = 26;

const FOURTH_VALUE: usize = 27;

// The byte of a stage is below this.
const STAGES: u8 = 6;

// The numbers of a record that tell the point reached. Those not in use are 0.
#[derive(Clone, Copy, Default)]
struct Fields {
    number: u32,
    offset: u32,
    stage: u8,
    page: u32,
    block: u32,
    act: u32,
    strobe: u32,
    count: u32,
    bits: u32,
}
