// The calls of the radio module in C; include/radio.h declares them. Commands are read and built; a job is
// opened and taken on by one reply at a time, and nothing is kept between the calls but its record; the
// modelled module's state is handed in and back.
#![tactic(auto)]

mod command;
mod job;
mod target;

pub use command::{radio_build, radio_read};
pub use job::{radio_advance, radio_open};
pub use target::{radio_target_fresh, radio_target_step};

// A command as C has it: 0, the command byte and the parameters; or 28 and zeros.
#[repr(C)]
#[derive(Clone, Copy)]
pub struct CommandParts {
    pub number: u32,
    pub command: u8,
    pub p0: u8,
    pub p1: u8,
    pub p2: u8,
}
