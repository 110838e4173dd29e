// What each command does to the modelled radio module, given its flash. Nothing is written here.
#![tactic(auto)]

mod commands;
mod deeds;

pub use commands::commanded;

// Why a command isn't done, by the code that INF_ERROR carries.
#[derive(Clone, Copy)]
enum ModuleError {
    OutOfMemory = 0,
    Readonly = 1,
    Codeprotection = 2,
    ByteNotErased = 3,
    Checksum = 4,
    BlankCheck = 5,
    UnknowCmd = 8,
}

// The pages of the program area, the information page, and the most pages for XRAM. `as`, for a constant calls no
// `try_from`.
const PROGRAM_PAGES: u8 = radio_flash::CONFIGURATION as u8;

const INFORMATION: u8 = 128;

const XRAM_PAGES: u8 = 4;

// The address of configuration byte 1, the code protection.
const PROTECTION: usize = 0x7F01;
