// The commands of the Programming Interface, byte by byte, and their output.
#![tactic(auto, using(std::proofs::lemmas::Bool::Decides::nat_tests), unfolding(c2_target::specs::Commands::in_flash, c2_target::specs::Commands::opens, c2_target::specs::Commands::takes_put, c2_target::specs::Commands::some_output, c2_target::specs::Commands::first_byte, c2_target::specs::Commands::other_bytes, c2_target::specs::Known::known_command, c2_target::specs::Known::known_output, c2_target::specs::Known::known_block, c2_target::specs::Known::is_count, c2_target::specs::Known::is_byte, c2_order::specs::Acts::coded_length))]

ghost use Rattle.std.specs.Prelude.{◌≡◌, Bool, true, cond, List, [], ℕ, ◌+◌, ◌<◌, ◌≤◌, length};
ghost use Rattle.c2_order.specs.Acts.{coded_length};
ghost use Rattle.c2_target.specs.Commands.{put_taken, opens, takes_put, some_output, first_byte, other_bytes};
ghost use Rattle.c2_target.specs.Known.{known_command, known_output};
ghost use Rattle.c2_target_step.specs.Code.Parts.{put_taking};

use crate::flash::{byte_at, in_flash};
use crate::{CONFIRM, FAILED};
use c2_order::{BLOCK_READ, BLOCK_WRITE, OKAY, PAGE_ERASE};
use c2_target::{Command, Output};
use settings::Settings;

pub(crate) fn some_output(output: Output) -> bool
    ensures { result ≡ some_output output }
{
    !matches!(output, Output::Empty)
}

pub(crate) fn first_byte(output: Output, flash: &[u8]) -> usize
    ensures { result ≡ first_byte output flash.now }
{
    match output {
        Output::Empty => 0,
        Output::Status { passed: false } => usize::from(FAILED),
        Output::Status { passed: true } | Output::StatusBlock { .. } => usize::from(OKAY),
        Output::Block { address, .. } => byte_at(flash, address),
    }
}

pub(crate) fn other_bytes(output: Output, flash: &[u8]) -> Output
    requires { known_output (length flash.now) output ≡ true }
    ensures { result ≡ other_bytes output }
{
    match output {
        Output::StatusBlock { address, count } => Output::Block { address, count },
        Output::Block { address, count } if 1 < count => Output::Block {
            address: address + 1,
            count: count - 1,
        },
        _ => Output::Empty,
    }
}

// A command that goes on with status 0x0D where a test passes, and else ends with status 0x00.
fn goes_on(passed: bool, command: Command) -> (Command, Output)
    ensures { result ≡ put_taking (put_taken (cond passed command Command.Ready) (Output.Status passed) []) }
{
    let next = if passed { command } else { Command::Ready };
    (next, Output::Status { passed })
}

// A new command: the three that are known, and any other byte. Erase and block write need a prepared device.
fn opens(ready: bool, byte: u8) -> (Command, Output)
    ensures { (f : List ℕ) → result ≡ put_taking (opens ready byte f) }
{
    match byte {
        PAGE_ERASE => goes_on(ready, Command::ErasePage),
        BLOCK_WRITE => goes_on(ready, Command::High { write: true }),
        BLOCK_READ => goes_on(true, Command::High { write: false }),
        _ => goes_on(false, Command::Ready),
    }
}

fn coded_length(code: u8) -> usize
    ensures { result ≡ coded_length code }
{
    if code == 0 { 256 } else { usize::from(code) }
}

// What the length code of a block does. The bytes of a block write past the end are first taken.
fn length_taken(write: bool, address: usize, code: u8, flash: &[u8]) -> (Command, Output)
    ensures { (t : Settings) (ready : Bool) → result ≡ put_taking (takes_put t ready (Command.LengthCode write address) code flash.now) }
{
    let count = coded_length(code);
    match (write, in_flash(address, count, flash)) {
        (true, true) => (
            Command::Byte {
                address,
                left: count,
            },
            Output::Empty,
        ),
        (true, false) => (Command::PastEnd { left: count }, Output::Empty),
        (false, true) => (Command::Ready, Output::StatusBlock { address, count }),
        (false, false) => (Command::Ready, Output::Status { passed: false }),
    }
}

// What a byte of a block write does: the status follows the last.
fn byte_taken(address: usize, left: usize, flash: &[u8]) -> (Command, Output)
    requires { address + left ≤ length flash.now }
    ensures { (t : Settings) (byte : ℕ) → result ≡ put_taking (takes_put t true (Command.Byte address left) byte []) }
{
    if 1 < left {
        let next = Command::Byte {
            address: address + 1,
            left: left - 1,
        };
        (next, Output::Empty)
    } else {
        (Command::Ready, Output::Status { passed: true })
    }
}

fn past_end_taken(left: usize) -> (Command, Output)
    ensures { (t : Settings) (byte : ℕ) → result ≡ put_taking (takes_put t true (Command.PastEnd left) byte []) }
{
    if 1 < left {
        (Command::PastEnd { left: left - 1 }, Output::Empty)
    } else {
        (Command::Ready, Output::Status { passed: false })
    }
}

// What a byte put makes of the command and of the output: it is the command's next byte.
pub(crate) fn takes(
    t: Settings,
    ready: bool,
    command: Command,
    byte: u8,
    flash: &[u8],
) -> (Command, Output)
    requires { known_command t.count (length flash.now) command ≡ true }
    ensures { result ≡ put_taking (takes_put t ready command byte flash.now) }
{
    match command {
        Command::Ready => opens(ready, byte),
        Command::ErasePage => {
            let page = usize::from(byte);
            goes_on(u32::from(byte) < t.count, Command::EraseConfirm { page })
        }
        // only 0x00 erases
        Command::EraseConfirm { .. } => goes_on(byte == CONFIRM, Command::Ready),
        Command::High { write } => {
            let high = usize::from(byte);
            (Command::Low { write, high }, Output::Empty)
        }
        Command::Low { write, high } => {
            let address = high * 256 + usize::from(byte);
            (Command::LengthCode { write, address }, Output::Empty)
        }
        Command::LengthCode { write, address } => length_taken(write, address, byte, flash),
        Command::Byte { address, left } => byte_taken(address, left, flash),
        Command::PastEnd { left } => past_end_taken(left),
    }
}
