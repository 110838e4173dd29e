// Two dumps of a flash compared: where they differ. These are definitions, in specs/, and laws of them, in
// proofs/; the code that compares is that of dump. Here are the answers of its two calls.
#![tactic(auto)]

// Both are for C, which has no Result: a number, 0 where nothing is refused.

// The ranges of bytes that differ: the number; whether there are more than the list buffer takes whole, 1 or
// 0; how many it holds.
#[repr(C)]
#[derive(Clone, Copy)]
pub struct RangesFound {
    pub number: u32,
    pub more: u32,
    pub held: u64,
}

// The first difference: the number; whether there is one, 1 or 0; its page, counted from the dumps'
// beginning, and its offset in that page.
#[repr(C)]
#[derive(Clone, Copy)]
pub struct DifferenceFound {
    pub number: u32,
    pub differs: u32,
    pub page: u64,
    pub offset: u32,
}
