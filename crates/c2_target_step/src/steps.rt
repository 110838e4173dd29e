// One step: strobes, the reset pulse, the wait of 20 ms, and the refusals.
#![tactic(auto, using(std::proofs::lemmas::Bool::Decides::nat_tests), unfolding(c2_target::specs::Target::cleared, c2_target::specs::Target::after_reset, c2_target::specs::Target::after_pause, c2_target::specs::Target::is_step, c2_target::specs::Target::step_coded, c2_target::specs::Target::step_refusal, c2_target::specs::Target::answer, c2_target::specs::Target::flash_after, c2_wire::specs::Bits::bit))]

ghost use Rattle.std.specs.Prelude.{◌≡◌, true, List, [], ℕ};
ghost use Rattle.numbers.specs.Numbers.{number_of};
ghost use Rattle.c2_target.specs.Delays.{setup};
ghost use Rattle.c2_target.specs.Strobes.{target};
ghost use Rattle.c2_target.specs.Known.{known};
ghost use Rattle.c2_target.specs.Target.{cleared, after_reset, after_pause, stepped, is_step, step_coded, step_refusal, told, answer, flash_after};
ghost use Rattle.c2_target_step.specs.Code.Parts.{lent, turn_replied, still};

use crate::Lent;
use crate::interface::idle;
use crate::strobes::{strobe_writes, strobed};
use c2_target::{Command, Device, Link, Met, Output, Target, Turned};
use c2_target_known::known;
use c2_target_wanted::setup_refusal;
use c2_wire::{OFF, PAUSE, RESET};
use numbers::Refusal;
use settings::{Pairs, Settings};

// The target after step 4, which keeps flash, mark and delay place.
fn after_reset(y: Target) -> Target
    ensures { result ≡ after_reset y }
{
    idle(y, y.place, cleared())
}

// The target after step 5, which turns the interface on after the three key writes.
fn after_pause(y: Target) -> Target
    ensures { result ≡ after_pause y }
{
    let on = y.device.keys == 3 || y.device.on;
    Target {
        device: Device { on, ..y.device },
        ..y
    }
}

// The device after a reset: address 0, interface off, no command, output, d or e, and no key write
// since, nor any other.
pub(crate) fn cleared() -> Device
    ensures { result ≡ cleared }
{
    Device {
        address: 0,
        on: false,
        keys: 0,
        met: Met {
            first: false,
            second: false,
            third: false,
            fourth: false,
        },
        link: Link {
            command: Command::Ready,
            output: Output::Empty,
            busy: 0,
            late: 0,
        },
    }
}

fn is_step(x: u8) -> bool
    ensures { result ≡ is_step x }
{
    x <= OFF && x != 1
}

// Why a step is refused: settings and wanted pairs, then the state, then the step.
pub(crate) fn refusal(
    t: Settings,
    wanted: Pairs,
    target: Target,
    flash: &[u8],
    x: u8,
) -> Result<(), Refusal>
    ensures { (ds : List ℕ) → number_of result ≡ step_refusal (setup t wanted ds) target flash.now x }
{
    setup_refusal(t, wanted)?;
    if !known(t, target, flash) {
        Err(Refusal::NoPoint)
    } else if !is_step(x) {
        Err(Refusal::NoStep)
    } else {
        Ok(())
    }
}

// What step 4, 5 or 6 gives: the reply is 1.
fn still(target: Target, x: u8) -> Turned
    ensures { result ≡ still target x }
{
    let target = match x {
        RESET => after_reset(target),
        PAUSE => after_pause(target),
        _ => target,
    };
    Turned {
        reply: true,
        target,
    }
}

// One step that is not refused, of a target in a state that exists. Here and below that is asked for beside the
// target: it is a fact of the settings and the flash too, which is lent apart.
#[tactic(auto, using(std::proofs::lemmas::Bool::Decides::nat_tests, crate::proofs::Laws::Flash::strobed_flash), unfolding(c2_target::specs::Target::stepped, c2_target::specs::Target::step_coded, c2_target::specs::Target::is_step, c2_target::specs::Known::known))]
pub(crate) fn stepped(u: &Lent, target: Target, flash: &mut [u8], x: u8) -> Turned
    requires flash_value { known (lent u.now) target flash.old ≡ true }
    requires x_value { is_step x ≡ true }
    ensures value { result ≡ turn_replied (stepped (lent u.now) target flash.old (step_coded x)) }
    ensures flash_after { flash.new ≡ (stepped (lent u.now) target flash.old (step_coded x)).flash }
{
    if x < RESET {
        let turned = strobed(target, u, flash, x);
        strobe_writes(u.t, target, flash);
        turned
    } else {
        still(target, x)
    }
}

// One step of the target: what it gives back, and the flash afterwards. A refused step changes nothing and
// replies 1.
pub fn step(
    t: Settings,
    wanted: Pairs,
    target: Target,
    flash: &mut [u8],
    delays: &[u8],
    x: u8,
) -> Result<Turned, Refusal>
    ensures value { told target result ≡ answer (setup t wanted delays.now) target flash.old x }
    ensures flash_after { flash.new ≡ flash_after (setup t wanted delays.now) target flash.old x }
{
    refusal(t, wanted, target, flash, x)?;
    let u = Lent { t, wanted, delays };
    Ok(stepped(&u, target, flash, x))
}
