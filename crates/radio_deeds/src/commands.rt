// What eight bytes with the right head do.
ghost use Rattle.std.specs.Prelude.{◌≡◌};
ghost use Rattle.radio_target.specs.Model.{commanded};
ghost use Rattle.radio_deeds.specs.Code.Answered.{answered};

use crate::ModuleError;
use crate::deeds::{answers_error, byte_at, deed};
use radio_command::{RadioCommand, command_sum, name_of};
use radio_target::Deed;

// The sum is looked at first, then the command.
#[tactic(auto, unfolding(radio_target::specs::Model::commanded))]
fn obeyed(m: &[u8], flash: &[u8]) -> Result<Deed, ModuleError>
    ensures { answered result ≡ commanded m.now flash.now }
{
    let b3 = byte_at(m, 3);
    let p0 = byte_at(m, 4);
    let p1 = byte_at(m, 5);
    let p2 = byte_at(m, 6);
    if byte_at(m, 7) != command_sum(byte_at(m, 2), b3, p0, p1, p2) {
        return Err(ModuleError::Checksum);
    }
    let name = name_of(b3).ok_or(ModuleError::UnknowCmd)?;
    deed(RadioCommand { name, p0, p1, p2 }, flash)
}

pub fn commanded(m: &[u8], flash: &[u8]) -> Deed
    ensures { result ≡ commanded m.now flash.now }
{
    match obeyed(m, flash) {
        Ok(d) => d,
        Err(e) => answers_error(e),
    }
}
