// The calls of the modelled module.
ghost use Rattle.std.specs.Prelude.{◌≡◌, length};
ghost use Rattle.radio_target.specs.State.{fresh_state, radio_stepped, radio_replied, reply_put};

use radio_target::{RadioReplied, RadioTarget};

// The state of the module after a reset.
#[unsafe(no_mangle)]
pub extern "C" fn radio_target_fresh() -> RadioTarget
    ensures { result ≡ fresh_state }
{
    radio_target_step::fresh()
}

// One message to the module. Tests 17, 26 and 28, in this order; a refused message changes nothing.
#[unsafe(no_mangle)]
pub extern "C" fn radio_target_step(
    target: RadioTarget,
    flash: &mut [u8],
    message: &[u8],
    reply: &mut [u8],
) -> RadioReplied
    ensures value { result
        ≡ radio_replied (radio_stepped target flash.old message.now (length reply.old)) }
    ensures flash_after { flash.new
        ≡ (radio_stepped target flash.old message.now (length reply.old)).flash }
    ensures reply_after { reply.new
        ≡ reply_put (radio_stepped target flash.old message.now (length reply.old)).reply
        reply.old }
{
    radio_target_step::step(target, flash, message, reply)
}
