// The target's flash: what a command reads of it and writes to it.
#![tactic(auto, using(std::proofs::lemmas::Bool::Decides::nat_tests), unfolding(c2_target::specs::Commands::erased, c2_target::specs::Commands::stored, c2_target::specs::Commands::in_flash, c2_target::specs::Commands::opens, c2_target::specs::Commands::takes_put, c2_target::specs::Known::known_command, c2_target::specs::Known::known_block, c2_target::specs::Known::is_count, c2_target::specs::Known::is_byte))]

ghost use Rattle.std.specs.Prelude.{◌≡◌, true, ◌+◌, ◌*◌, ◌<◌, ◌≤◌, length, get_or};
ghost use Rattle.c2_target.specs.Commands.{erased, stored, in_flash, takes_put};
ghost use Rattle.c2_target.specs.Known.{known_command};

use crate::CONFIRM;
use c2_target::Command;
use settings::Settings;

// As in c2_session and radio_deeds: a byte, or 0 where there is none, in one line, which a public function of a crate
// below would make no plainer.
pub(crate) fn byte_at(flash: &[u8], address: usize) -> usize
    ensures { result ≡ get_or flash.now address 0 }
{
    match flash.get(address) {
        Some(byte) => usize::from(*byte),
        None => 0,
    }
}

// Whether no byte of the block is past the end of the flash.
pub(crate) fn in_flash(address: usize, count: usize, flash: &[u8]) -> bool
    ensures { result ≡ in_flash address count flash.now }
{
    address <= flash.len() && count <= flash.len() - address
}

fn erase(flash: &mut [u8], size: usize, page: usize)
    requires { page * size + size ≤ length flash.old }
    ensures { flash.new ≡ erased size page flash.old }
{
    let start = page * size;
    let end = start + size;
    flash[start..end].fill(0xff);
}

fn store(flash: &mut [u8], address: usize, byte: u8)
    requires { address < length flash.old }
    ensures { flash.new ≡ stored address byte flash.old }
{
    flash[address] &= byte;
}

// What a byte put makes of the flash, whether the device is prepared or not: a command that is turned away
// has not begun.
pub(crate) fn put_writes(t: Settings, command: Command, byte: u8, flash: &mut [u8])
    requires command_value { known_command t.count (length flash.old) command ≡ true }
    requires flash_len { length flash.old ≡ t.size * t.count }
    ensures { flash.new ≡ (takes_put t true command byte flash.old).flash }
{
    match command {
        // the page is erased at the put of 0x00
        Command::EraseConfirm { page } if byte == CONFIRM => erase(flash, t.size as usize, page),
        Command::Byte { address, .. } => store(flash, address, byte),
        _ => {}
    }
}
