// What a driver says of the device, and the test of it.
#![tactic(auto)]

mod accepted;
mod opening;
mod registers;

pub use accepted::refusal;
pub use opening::{image_bytes, opening_refusal};
pub use registers::{are_pairs, is_tidy, tidy};

// Pairs of register and value; entries from the count on are not looked at. C has them so, a count beside arrays.
#[repr(C)]
#[derive(Clone, Copy)]
pub struct Pairs {
    pub count: u8,
    pub registers: [u8; 4],
    pub values: [u8; 4],
}

// No pairs.
pub const NO_PAIRS: Pairs = Pairs {
    count: 0,
    registers: [0; 4],
    values: [0; 4],
};

// The expected device ID, the address of the FPDAT register, the page size in bytes, the number of pages, the
// limit of a WAIT (so many zeros refuse), and the pairs that are written before flash is touched.
#[repr(C)]
#[derive(Clone, Copy)]
pub struct Settings {
    pub id: u8,
    pub fpdat: u8,
    pub size: u32,
    pub count: u32,
    pub wait: u8,
    pub pairs: Pairs,
}
