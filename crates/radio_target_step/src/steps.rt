// One message to the module.
ghost use Rattle.std.specs.Prelude.{◌≡◌, length};
ghost use Rattle.numbers.specs.Numbers.{number_of};
ghost use Rattle.radio_target.specs.Model.{message_refusal};
ghost use Rattle.radio_target.specs.State.{fresh_state, radio_stepped, radio_replied, reply_put};
ghost use Rattle.radio_target_step.specs.Code.Given.{gives_back};

use crate::messages::take;
use crate::points::{is_point, is_taken};
use numbers::Refusal;
use radio_flash::{FLASH_BYTES, PAGE_BYTES};
use radio_target::{ModulePoint, RadioReplied, RadioTarget};

#[tactic(auto, unfolding(radio_target::specs::Model::message_refusal))]
fn message_refusal(p: ModulePoint, flash: &[u8], m: &[u8], room: usize) -> Result<(), Refusal>
    ensures { number_of result ≡ message_refusal p flash.now m.now room }
{
    if flash.len() != FLASH_BYTES || !is_point(p) {
        return Err(Refusal::NoPoint);
    }
    if room < PAGE_BYTES {
        return Err(Refusal::BufferTooSmall);
    }
    if !is_taken(p, m) {
        return Err(Refusal::BadMessage);
    }
    Ok(())
}

// The state after a reset.
pub fn fresh() -> RadioTarget
    ensures { result ≡ fresh_state }
{
    ModulePoint::Waits.into()
}

// One message to the module of this state, or why it is refused. Flash and reply then stay.
#[tactic(auto, unfolding(radio_target::specs::State::radio_stepped))]
fn stepped(
    t: RadioTarget,
    flash: &mut [u8],
    m: &[u8],
    reply: &mut [u8],
) -> Result<RadioReplied, Refusal>
    ensures value { gives_back t result ≡ radio_replied (radio_stepped t flash.old m.now (length reply.old)) }
    ensures flash_after { flash.new ≡ (radio_stepped t flash.old m.now (length reply.old)).flash }
    ensures reply_after { reply.new
        ≡ reply_put (radio_stepped t flash.old m.now (length reply.old)).reply reply.old }
{
    let p = ModulePoint::try_from(t)?;
    message_refusal(p, flash, m, reply.len())?;
    Ok(take(p, flash, m, reply))
}

// One message: number, length of the reply and state come back; the reply stands in its buffer. A refused message
// gives the state back unchanged, and no reply.
pub fn step(t: RadioTarget, flash: &mut [u8], m: &[u8], reply: &mut [u8]) -> RadioReplied
    ensures value { result ≡ radio_replied (radio_stepped t flash.old m.now (length reply.old)) }
    ensures flash_after { flash.new ≡ (radio_stepped t flash.old m.now (length reply.old)).flash }
    ensures reply_after { reply.new
        ≡ reply_put (radio_stepped t flash.old m.now (length reply.old)).reply reply.old }
{
    match stepped(t, flash, m, reply) {
        Ok(replied) => replied,
        Err(e) => RadioReplied {
            number: e.into(),
            reply: 0,
            target: t,
        },
    }
}
