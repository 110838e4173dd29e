// The most steps still to come with a reply, from a session's numbers: each WAIT counts to its limit and each
// poll to its reads, less those done. The order is not walked.
#![tactic(auto)]

use c2_acts::{BLOCK_ACTS, ERASE_ACTS};
use c2_session::Session;
use c2_wire::{ADDRESS_STROBES, DATA_STROBES};

mod cost;
mod left;

pub use left::steps_left;

// A session whose steps to come are counted.
#[derive(Clone, Copy)]
struct Figure {
    session: Session,
}

// The strobes of the frames, and the limit of a poll, in the figure's width.
const ADDRESS_FRAME: usize = ADDRESS_STROBES as usize;

const DATA_FRAME: usize = DATA_STROBES as usize;

const POLL_LIMIT: usize = Session::POLL_LIMIT as usize;

// The strobes of a frame with data that are not its WAIT.
const OTHER_STROBES: usize = DATA_FRAME - 1;

// The last acts of an erase and of a block.
const LAST_OF_ERASE: u16 = (ERASE_ACTS - 1) as u16;

const LAST_OF_BLOCK: u16 = (BLOCK_ACTS - 1) as u16;
