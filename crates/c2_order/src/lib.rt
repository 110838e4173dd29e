// The order of a session: what is said on the wire, act by act, and the figure of the most steps to come.
// These are definitions, in specs/, and laws of them, in proofs/, and the constants of the maker's note by
// their names; the code that follows the order is that of c2_session.
#![tactic(auto)]

// The register that the keys are written to, and the three keys, which turn the Programming Interface on.
pub const FPCTL: u8 = 0x02;

pub const KEY_1: u8 = 0x02;

pub const KEY_2: u8 = 0x04;

pub const KEY_3: u8 = 0x01;

// The commands of the Programming Interface.
pub const BLOCK_READ: u8 = 0x06;

pub const BLOCK_WRITE: u8 = 0x07;

pub const PAGE_ERASE: u8 = 0x08;

// The status of a command that passed.
pub const OKAY: u8 = 0x0d;
