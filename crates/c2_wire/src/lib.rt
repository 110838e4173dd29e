// The four frames with one data byte: a frame as a word, its script; the step at each strobe of a frame, and
// what a reply makes of the place in it.
#![tactic(auto)]

mod replies;
mod script;
mod table;

pub use replies::follow;
pub use script::{script_after, script_from, script_of, step};

// Steps on the wire: C2D released, driven low or driven high in a strobe, the reset pulse, the wait of 20 ms,
// and both drivers off. They are numbers and no enum: C is given a step as this byte, and a script has it as a code.
pub const RELEASED: u8 = 0;

pub const LOW: u8 = 2;

pub const HIGH: u8 = 3;

pub const RESET: u8 = 4;

pub const PAUSE: u8 = 5;

pub const OFF: u8 = 6;

// The strobes of a frame that carries an address, and of one that carries data; a WAIT counts as one.
pub const ADDRESS_STROBES: u32 = 12;

pub const DATA_STROBES: u32 = 15;

// The strobe of the WAIT in a Data Write, and in a Data Read.
pub const WRITE_WAIT: u32 = 13;

pub const READ_WAIT: u32 = 5;

// The first strobe that is sampled in an Address Read, and in a Data Read.
pub const ADDRESS_SAMPLES: u32 = 3;

pub const DATA_SAMPLES: u32 = 6;

#[derive(Clone, Copy)]
pub enum Frame {
    AddressWrite,
    AddressRead,
    DataWrite,
    DataRead,
}

// A place in a frame: the number of its strobe, where a WAIT counts as one; zeros seen in the WAIT, or reads
// done in a poll; and the bits sampled so far.
#[derive(Clone, Copy)]
pub struct Place {
    pub strobe: u32,
    pub count: u32,
    pub bits: u32,
}

// What a reply makes of a place: another place, the byte sampled once the STOP is answered, or the limit of
// the WAIT.
#[derive(Clone, Copy)]
pub enum Moved {
    Within(Place),
    Stopped(u32),
    WaitLimit,
}
