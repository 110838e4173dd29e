// The calls that read and build a command.
ghost use Rattle.std.specs.Prelude.{◌≡◌};
ghost use Rattle.radio_command.specs.Command.{read_command};
ghost use Rattle.radio_command.specs.Building.{building_number, buffer_built};
ghost use Rattle.radio.specs.Parts.{command_parts};

use crate::CommandParts;
use numbers::Refusal;

// Reads one command.
#[unsafe(no_mangle)]
pub extern "C" fn radio_read(bytes: &[u8]) -> CommandParts
    ensures { result ≡ command_parts (read_command bytes.now) }
{
    match radio_command::read_command(bytes) {
        Some(c) => CommandParts {
            number: 0,
            command: u8::from(c.name),
            p0: c.p0,
            p1: c.p1,
            p2: c.p2,
        },
        None => CommandParts {
            number: u32::from(Refusal::BadMessage),
            command: 0,
            p0: 0,
            p1: 0,
            p2: 0,
        },
    }
}

// Builds one command into the buffer. Tests 28, then 26; past the eighth byte nothing is written.
#[unsafe(no_mangle)]
pub extern "C" fn radio_build(command: u8, p0: u8, p1: u8, p2: u8, out: &mut [u8]) -> u32
    ensures value { result ≡ building_number command out.old }
    ensures out_after { out.new ≡ buffer_built command p0 p1 p2 out.old }
{
    match radio_command::build_into(command, p0, p1, p2, out) {
        Ok(()) => 0,
        Err(e) => u32::from(e),
    }
}
