// A command built into a lent buffer.
ghost use Rattle.std.specs.Prelude.{◌≡◌};
ghost use Rattle.numbers.specs.Numbers.{number_of};
ghost use Rattle.radio_command.specs.Building.{building_number, buffer_built};

use crate::RadioCommand;
use crate::command::{build, name_of};
use numbers::Refusal;

// Writes the command of this command byte and these parameters, if there is one and there is room. They come one by one,
// as C has them: the byte may be that of no command.
#[tactic(auto, unfolding(crate::specs::Building::building_number, crate::specs::Building::buffer_built))]
pub fn build_into(command: u8, p0: u8, p1: u8, p2: u8, out: &mut [u8]) -> Result<(), Refusal>
    ensures value { number_of result ≡ building_number command out.old }
    ensures out_after { out.new ≡ buffer_built command p0 p1 p2 out.old }
{
    let Some(name) = name_of(command) else {
        return Err(Refusal::BadMessage);
    };
    if out.len() < 8 {
        return Err(Refusal::BufferTooSmall);
    }
    out[..8].copy_from_slice(&build(RadioCommand { name, p0, p1, p2 }));
    Ok(())
}
