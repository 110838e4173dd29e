// The eight-byte commands of the radio module (source document 002, table 1): built and read.
#![tactic(auto)]

ghost use Rattle.std.specs.Prelude.{◌≡◌};
ghost use Rattle.radio_command.specs.Command.{command_byte};

mod building;
mod command;

pub use building::build_into;
pub use command::{build, command_sum, name_of, read_command};

// The thirteen commands of the list, each by its command byte (byte 3). Those that begin with Inf are the module's
// answers.
#[derive(Clone, Copy)]
pub enum CommandName {
    RdSwVersion = 0x4B,
    InfSwVersion = 0x8C,
    RdFlashByte = 0x6B,
    WrFlashByte = 0x6C,
    RdFlashPage = 0x69,
    WrFlashPage = 0x6A,
    RdPrgArea = 0x6D,
    WrPrgArea = 0x6E,
    InfOk = 0x58,
    InfError = 0x99,
    WrBlankChk = 0x70,
    WrBist = 0x71,
    WrPrgXram = 0x6F,
}

impl From<CommandName> for u8 {
    ghost from_gives = { λ name b. b ≡ command_byte name };

    fn from(name: CommandName) -> u8 {
        name as u8
    }
}

// A command with the three bytes of its parameters, as they stand.
#[derive(Clone, Copy)]
pub struct RadioCommand {
    pub name: CommandName,
    pub p0: u8,
    pub p1: u8,
    pub p2: u8,
}

// The radio module's own numbers that are no refusals of a call (`numbers` has those, 28 to 30). C is told a job's end by
// them, and a record may hold any.

// An answer that isn't right ends a job by the number of the message that it is: a wrong length, head, sum or command.
pub const BAD_MESSAGE: u32 = 28;

// The module answered with an error; its code stands beside.
pub const ERROR_ANSWER: u32 = 42;

// A page read back differs from the padded image; the first offset stands beside.
pub const PAGE_DIFFERS: u32 = 43;
