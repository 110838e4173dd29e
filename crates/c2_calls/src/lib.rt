// The driver's calls: what each answers. What each answers and leaves, for all inputs, is in specs/; whole lists of
// calls are claims, in specs/ too, and laws.
#![tactic(auto)]

// All three are for C, which has no Result: a number, 0 where nothing is refused.

// What an opening answers: its number, and the first step, 4, or 6 when refused.
#[repr(C)]
#[derive(Clone, Copy)]
pub struct Opened {
    pub number: u32,
    pub step: u32,
}

// What a call that takes replies answers: the session's number, the image offset for 14, and how many of the
// replies were taken.
#[repr(C)]
#[derive(Clone, Copy)]
pub struct Advanced {
    pub number: u32,
    pub offset: u32,
    pub taken: u64,
}

// What a question is answered: the session's number, and the figure of the most steps to come.
#[repr(C)]
#[derive(Clone, Copy)]
pub struct Remaining {
    pub number: u32,
    pub steps: u64,
}
