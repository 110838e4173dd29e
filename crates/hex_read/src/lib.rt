// Reading an Intel HEX file (document 02, a). The lines are judged first, with a map of a bit for each byte
// of the flash; then the lent image is filled in a second pass, so that a refusal leaves it untouched.
#![tactic(auto)]

mod fill;
mod map;
pub mod read;
mod walk;
