// What a job says: the next message, written into a buffer, and what a call answers with it.
#![tactic(auto)]

mod message;
mod point;

pub use point::say;
