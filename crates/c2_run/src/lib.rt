// A session run against a fresh target, over lent buffers.
#![tactic(auto)]

mod program;

pub use program::c2_program;

// The session's number and the image offset for 14, the replies that it took, and whether the target has
// marked a collision. C, which calls it too, has no Result: a refusal is its number.
#[repr(C)]
#[derive(Clone, Copy)]
pub struct Run {
    pub number: u32,
    pub offset: u32,
    pub replies: usize,
    pub collision: bool,
}
