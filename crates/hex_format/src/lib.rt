// Intel HEX files (document 02, a): what a file means and which text is written. These are definitions, in
// specs/, and laws of them, in proofs/; the crates hex_line, hex_read and hex_write have the code. The types
// that both share stand here.
#![tactic(auto)]

use numbers::Refusal;

// A record that is right by itself: data (address and count), or the end record.
#[derive(Clone, Copy, Debug, PartialEq, Eq)]
pub enum Record {
    Data(usize, usize),
    Last,
}

// What a line is by itself: a record, or why it is refused.
pub type Line = Result<Record, Refusal>;
