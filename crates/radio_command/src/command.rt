// A command's eight bytes, built and read.
ghost use Rattle.std.specs.Prelude.{◌≡◌};
ghost use Rattle.radio_command.specs.Command.{name_of, command_sum, built, read_command};

use crate::{CommandName, RadioCommand};

// The command of a command byte, if it has one. A public function keeps its name, so it is no TryFrom.
#[tactic(auto, unfolding(crate::specs::Command::name_of))]
pub fn name_of(b: u8) -> Option<CommandName>
    ensures { result ≡ name_of b }
{
    match b {
        0x4B => Some(CommandName::RdSwVersion),
        0x8C => Some(CommandName::InfSwVersion),
        0x6B => Some(CommandName::RdFlashByte),
        0x6C => Some(CommandName::WrFlashByte),
        0x69 => Some(CommandName::RdFlashPage),
        0x6A => Some(CommandName::WrFlashPage),
        0x6D => Some(CommandName::RdPrgArea),
        0x6E => Some(CommandName::WrPrgArea),
        0x58 => Some(CommandName::InfOk),
        0x99 => Some(CommandName::InfError),
        0x70 => Some(CommandName::WrBlankChk),
        0x71 => Some(CommandName::WrBist),
        0x6F => Some(CommandName::WrPrgXram),
        _ => None,
    }
}

// The sum over bytes 2 to 6, modulo 256. They come one by one, since they may be those of no message.
#[tactic(auto, unfolding(crate::specs::Command::command_sum))]
pub fn command_sum(b2: u8, b3: u8, b4: u8, b5: u8, b6: u8) -> u8
    ensures { result ≡ command_sum b2 b3 b4 b5 b6 }
{
    b2.wrapping_add(b3)
        .wrapping_add(b4)
        .wrapping_add(b5)
        .wrapping_add(b6)
}

// The eight bytes of a command.
#[tactic(auto, unfolding(crate::specs::Command::built))]
pub fn build(c: RadioCommand) -> [u8; 8]
    ensures { result ≡ built c }
{
    let b3 = u8::from(c.name);
    let sum = command_sum(0xA5, b3, c.p0, c.p1, c.p2);
    [0xA5, 0x5A, 0xA5, b3, c.p0, c.p1, c.p2, sum]
}

// The command that the bytes are, if they are one.
#[tactic(auto, unfolding(crate::specs::Command::read_command, crate::specs::Command::read_named))]
pub fn read_command(m: &[u8]) -> Option<RadioCommand>
    ensures { result ≡ read_command m.now }
{
    let [b0, b1, b2, b3, p0, p1, p2, sum] = *m else {
        return None;
    };
    let name = name_of(b3)?;
    if b0 == 0xA5
        && b1 == 0x5A
        && b2 == 0xA5
        && sum == command_sum(b2, u8::from(name), p0, p1, p2)
    {
        Some(RadioCommand { name, p0, p1, p2 })
    } else {
        None
    }
}
