// Writing an Intel HEX file (document 02, a).
#![tactic(auto)]

mod digit;
mod line;
pub mod write;
