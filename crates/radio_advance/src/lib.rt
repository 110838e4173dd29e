// A job opened, and taken on by one reply: what is answered, the record afterwards, and the next message.
#![tactic(auto)]

mod advance;
mod keep;
mod open;

pub use advance::take_reply;
pub use open::open_job;

// The room that a call asks for in the buffer for a message.
const ROOM: usize = radio_image::PAGE_BYTES;
