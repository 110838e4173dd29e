// The calls of the modelled target.
ghost use Rattle.std.specs.Prelude.{◌≡◌};
ghost use Rattle.c2_target.specs.Target.{fresh};
ghost use Rattle.c2_target_state.specs.State.{state_of};
ghost use Rattle.c2_target_state.specs.Model.{model_answer, model_flash};

use c2_target_state::{ModelReplied, State};
use settings::{Pairs, Settings};

// The state of a fresh modelled target: all of its numbers are 0. It was tried as a derived Default, whose proof didn't
// close: another crate knows nothing of what that gives.
#[unsafe(no_mangle)]
pub extern "C" fn c2_target_fresh() -> State
    ensures { result ≡ state_of fresh }
{
    State {
        place: 0,
        start: 0,
        rest: 0,
        next: 0,
        count: 0,
        point: 0,
        heard: 0,
        value: 0,
        left: 0,
        zeros: 0,
        effect: 0,
        byte: 0,
        collision: 0,
        address: 0,
        on: 0,
        keys: 0,
        met1: 0,
        met2: 0,
        met3: 0,
        met4: 0,
        command: 0,
        write: 0,
        page: 0,
        high: 0,
        output: 0,
        passed: 0,
        busy: 0,
        late: 0,
    }
}

// One step of the modelled target whose state this is, and whose device wants these pairs: the answer, and
// the flash afterwards.
#[unsafe(no_mangle)]
pub extern "C" fn c2_target_step(
    t: Settings,
    wanted: Pairs,
    state: State,
    flash: &mut [u8],
    delays: &[u8],
    step: u8,
) -> ModelReplied
    ensures value { result ≡ model_answer t wanted state flash.old delays.now step }
    ensures flash_after { flash.new ≡ model_flash t wanted state flash.old delays.now step }
{
    c2_target_state::step(t, wanted, state, flash, delays, step)
}
