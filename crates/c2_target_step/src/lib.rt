// The modelled target in code, lent its flash and its delays: one step, a step on the wire in and a reply out;
// and a session played against it, which hands the target on from step to step.
#![tactic(auto)]

use c2_session::Point;
use settings::{Pairs, Settings};

mod commands;
mod delays;
mod flash;
mod interface;
mod playing;
mod steps;
mod strobes;

pub use playing::play;
pub use steps::step;

// How far a session was played: its point, the replies that it took, and whether the target has marked a
// collision.
#[derive(Clone, Copy)]
pub struct Ran {
    pub point: Point,
    pub replies: usize,
    pub collision: bool,
}

// What the target is lent: settings, the pairs that its device wants, and its delays. It is handed on by reference: by
// value each call would copy its 25 numbers.
#[derive(Clone, Copy)]
struct Lent<'a> {
    t: Settings,
    wanted: Pairs,
    delays: &'a [u8],
}

// The status of a command that failed.
const FAILED: u8 = 0x00;

// The byte that confirms an erase.
const CONFIRM: u8 = 0x00;
