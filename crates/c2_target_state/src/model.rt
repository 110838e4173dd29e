// One step of the modelled target, for C.
#![tactic(auto, using(std::proofs::lemmas::Bool::Decides::nat_tests), unfolding(c2_wire::specs::Bits::bit, crate::specs::Code::Inside::is_inside, crate::specs::Model::no_target, crate::specs::Model::held_answer, crate::specs::Model::seen_answer, crate::specs::Model::seen_flash))]

ghost use Rattle.std.specs.Prelude.{◌≡◌, cond, Err};
ghost use Rattle.c2_wire.specs.Bits.{bit};
ghost use Rattle.c2_target_state.specs.State.{state_of};
ghost use Rattle.c2_target_state.specs.Code.Inside.{is_inside, point_moved};
ghost use Rattle.c2_target_state.specs.Model.{gives, gives_back, model_answer, model_flash};

use crate::encode::point_moved;
use crate::{ModelReplied, State};
use c2_target::Target;
use c2_target_wanted::setup_refusal;
use c2_wire::RESET;
use numbers::Refusal;
use settings::{Pairs, Settings};

// Whether a step is a strobe inside a frame, after its START and before its STOP. It changes nothing of the device.
fn is_inside(point: u8, x: u8) -> bool
    ensures { result ≡ is_inside point x }
{
    x < RESET && matches!(point, 1..=9)
}

// What a refused step gives: the state back unchanged, and the reply 1.
fn refused(e: Refusal, state: State) -> ModelReplied
    ensures { result ≡ gives_back state (Err e) }
{
    ModelReplied {
        number: e.into(),
        reply: 1,
        target: state,
    }
}

// What a step gives that is not refused. Most strobes change nothing of the device: its numbers then go back as they
// came. Reply and target are handed in apart: as one value the target would be copied out of it once more.
fn accepted(state: State, x: u8, reply: bool, target: Target) -> ModelReplied
    ensures { result ≡ gives 0 (bit reply) (cond (is_inside state.point x) (point_moved state target) (state_of target)) }
{
    let target = if is_inside(state.point, x) {
        point_moved(state, target)
    } else {
        target.into()
    };
    ModelReplied {
        number: 0,
        reply: reply.into(),
        target,
    }
}

// One step of the target whose state this is, and whose device wants these pairs. A refused step gives the state
// back unchanged, and the reply 1. C lends settings, wanted pairs and delays one by one, and `c2_target_step::step`
// takes them so: a struct for the three would be made here only to be taken apart. A refusal is returned where it is
// met: in the C of dist/ each `?` over the target or over what a step gives copies its 24 members again.
pub fn step(
    t: Settings,
    wanted: Pairs,
    state: State,
    flash: &mut [u8],
    delays: &[u8],
    x: u8,
) -> ModelReplied
    ensures value { result ≡ model_answer t wanted state flash.old delays.now x }
    ensures flash_after { flash.new ≡ model_flash t wanted state flash.old delays.now x }
{
    let target = match Target::try_from(state) {
        Ok(target) => target,
        Err(e) => {
            return match setup_refusal(t, wanted) {
                Ok(()) => refused(e, state),
                Err(setup) => refused(setup, state),
            };
        }
    };
    let turned = match c2_target_step::step(t, wanted, target, flash, delays, x) {
        Ok(turned) => turned,
        Err(e) => return refused(e, state),
    };
    accepted(state, x, turned.reply, turned.target)
}
