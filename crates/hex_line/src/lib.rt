// A line of an Intel HEX file by itself (document 02, a).
#![tactic(auto)]

pub mod digit;
pub mod line;
