// What the modelled target is lent, settings and the pairs that its device wants: whether they are accepted,
// which pairs are met, and whether the device is prepared.
#![tactic(auto, using(std::proofs::lemmas::Bool::Decides::nat_tests), unfolding(c2_target::specs::Target::setup_refusal, c2_target::specs::Interface::met_written, c2_target::specs::Interface::prepared))]

ghost use Rattle.std.specs.Prelude.{◌≡◌, cond, ◌&&◌, List, ℕ, eqb};
ghost use Rattle.numbers.specs.Numbers.{number_of};
ghost use Rattle.c2_target.specs.Delays.{setup};
ghost use Rattle.c2_target.specs.Interface.{met_written, prepared};
ghost use Rattle.c2_target.specs.Target.{setup_refusal};

use c2_target::Met;
use numbers::Refusal;
use settings::{Pairs, Settings, are_pairs};

// Why settings and wanted pairs are refused: the settings first.
pub fn setup_refusal(t: Settings, wanted: Pairs) -> Result<(), Refusal>
    ensures { (ds : List ℕ) → number_of result ≡ setup_refusal (setup t wanted ds) }
{
    settings::refusal(t)?;
    if are_pairs(t.fpdat, wanted) {
        Ok(())
    } else {
        Err(Refusal::BadPairs)
    }
}

// Whether a pair is met after a Data Write: if it is wanted and the address is its register, the byte must be
// its value; otherwise it is met as before.
fn met_after(
    wanted: bool,
    register: u8,
    value: u8,
    address: usize,
    byte: usize,
    before: bool,
) -> bool
    ensures { result ≡ cond (wanted && eqb address register) (eqb byte value) before }
{
    if wanted && address == usize::from(register) {
        byte == usize::from(value)
    } else {
        before
    }
}

// Which pairs are met after a Data Write of a byte at an address. Four lines for four pairs, as `Met` names them.
pub fn met_written(wanted: Pairs, address: usize, byte: usize, met: Met) -> Met
    ensures { result ≡ met_written wanted address byte met }
{
    let count = wanted.count;
    let registers = wanted.registers;
    let values = wanted.values;
    Met {
        first: met_after(0 < count, registers[0], values[0], address, byte, met.first),
        second: met_after(
            1 < count,
            registers[1],
            values[1],
            address,
            byte,
            met.second,
        ),
        third: met_after(2 < count, registers[2], values[2], address, byte, met.third),
        fourth: met_after(
            3 < count,
            registers[3],
            values[3],
            address,
            byte,
            met.fourth,
        ),
    }
}

// Whether every pair that the device wants is met.
pub fn prepared(wanted: Pairs, met: Met) -> bool
    ensures { result ≡ prepared wanted met }
{
    let count = wanted.count;
    (count == 0 || met.first)
        && (count <= 1 || met.second)
        && (count <= 2 || met.third)
        && (count <= 3 || met.fourth)
}
