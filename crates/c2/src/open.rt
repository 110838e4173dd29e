// The call that opens a session.
ghost use Rattle.std.specs.Prelude.{◌≡◌};
ghost use Rattle.numbers.specs.Numbers.{number_of};
ghost use Rattle.exchange.specs.Calls.{call_done};
ghost use Rattle.c2_calls.specs.Calls.{opening, refusal};
ghost use Rattle.c2_calls.specs.Family.{C2};

use c2_calls::Opened;
use c2_wire::{OFF, RESET};
use numbers::{RUNNING, Refusal};
use settings::Settings;

// The record's length is tested first (6), then 1, 2, 3, 18, 19, 4 and 5, in this order. Settings, first page and image
// come one by one, as C has them.
fn open(held: &mut [u8], image: &[u8], t: Settings, first: u32) -> Result<(), Refusal>
    ensures value { number_of result ≡ refusal (opening held.old image.now t first) }
    ensures held_after { held.new ≡ (call_done C2 (opening held.old image.now t first)).held }
{
    let Some(record) = held.as_mut_array() else {
        return Err(Refusal::BadRecord);
    };
    settings::opening_refusal(t, first, image.len())?;
    *record = c2_record::pack(c2_opening::start(t, first, image.len()));
    Ok(())
}

// Opens a session for the image's pages, from the first page on, and gives its first step; a refused opening
// gives step 6 and changes no byte.
#[unsafe(no_mangle)]
pub extern "C" fn c2_open(held: &mut [u8], image: &[u8], t: Settings, first: u32) -> Opened
    ensures value { result ≡ (call_done C2 (opening held.old image.now t first)).answer }
    ensures held_after { held.new ≡ (call_done C2 (opening held.old image.now t first)).held }
{
    match open(held, image, t, first) {
        Ok(()) => Opened {
            number: RUNNING,
            step: u32::from(RESET),
        },
        Err(refused) => Opened {
            number: refused.into(),
            step: u32::from(OFF),
        },
    }
}
