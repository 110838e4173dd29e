// The target that a state's numbers say.
#![tactic(auto, using(std::proofs::lemmas::Bool::Decides::nat_tests), unfolding(crate::specs::State::effect_of, crate::specs::State::later_point, crate::specs::State::state_point, crate::specs::State::command_of, crate::specs::State::output_of, crate::specs::State::met_of, crate::specs::State::target_read))]

ghost use Rattle.std.specs.Prelude.{◌≡◌, ok_or};
ghost use Rattle.numbers.specs.declared.Refusal.TheVariants.{NoPoint};
ghost use Rattle.c2_target_state.specs.State.{effect_of, state_point, command_of, output_of, met_of, target_read, target_of};

use crate::State;
use crate::form::in_form;
use c2_target::{Command, Device, Effect, Link, Met, Output, Point, Target};
use numbers::Refusal;

// What a frame does at its STOP, as the numbers of any state say it.
fn effect_of(effect: u8, byte: u8) -> Effect
    ensures { result ≡ effect_of effect byte }
{
    match effect {
        0 => Effect::Nothing,
        1 => Effect::SetAddress(byte.into()),
        2 => Effect::Write(byte.into()),
        3 => Effect::CountDown,
        _ => Effect::Read,
    }
}

// The point that the numbers of any state say.
fn point_of(s: State) -> Point
    ensures { result ≡ state_point s }
{
    let heard = usize::from(s.heard);
    let value = usize::from(s.value);
    let left = usize::from(s.left);
    let zeros = usize::from(s.zeros);
    let effect = effect_of(s.effect, s.byte);
    match s.point {
        0 => Point::Start,
        1 => Point::Ins { heard, value },
        2 => Point::WriteLength { heard, value },
        3 => Point::ReadLength { heard, value },
        4 => Point::Address { heard, value },
        5 => Point::Data { heard, value },
        6 => Point::LongData { left },
        7 => Point::Wait { left, effect },
        8 => Point::Waiting {
            zeros,
            left,
            effect,
        },
        9 => Point::Send {
            left,
            value,
            effect,
        },
        _ => Point::Stop { effect },
    }
}

// The command that the numbers of any state say.
fn command_of(s: State) -> Command
    ensures { result ≡ command_of s }
{
    let write = s.write == 1;
    let address = usize::from(s.start);
    let left = usize::from(s.rest);
    match s.command {
        0 => Command::Ready,
        1 => Command::ErasePage,
        2 => Command::EraseConfirm {
            page: s.page.into(),
        },
        3 => Command::High { write },
        4 => Command::Low {
            write,
            high: s.high.into(),
        },
        5 => Command::LengthCode { write, address },
        6 => Command::Byte { address, left },
        _ => Command::PastEnd { left },
    }
}

// The output that the numbers of any state say.
fn output_of(s: State) -> Output
    ensures { result ≡ output_of s }
{
    let passed = s.passed == 1;
    let address = usize::from(s.next);
    let count = usize::from(s.count);
    match s.output {
        0 => Output::Empty,
        1 => Output::Status { passed },
        2 => Output::StatusBlock { address, count },
        _ => Output::Block { address, count },
    }
}

// Which wanted pairs are met, as the numbers of any state say it.
fn met_of(s: State) -> Met
    ensures { result ≡ met_of s }
{
    Met {
        first: s.met1 == 1,
        second: s.met2 == 1,
        third: s.met3 == 1,
        fourth: s.met4 == 1,
    }
}

// The target that the numbers of any state say.
fn target_read(s: State) -> Target
    ensures { result ≡ target_read s }
{
    let link = Link {
        command: command_of(s),
        output: output_of(s),
        busy: s.busy.into(),
        late: s.late.into(),
    };
    let device = Device {
        address: s.address.into(),
        on: s.on == 1,
        keys: s.keys.into(),
        met: met_of(s),
        link,
    };
    Target {
        point: point_of(s),
        place: s.place as usize,
        collision: s.collision == 1,
        device,
    }
}

// The target of which this is the state.
impl TryFrom<State> for Target {
    type Error = Refusal;

    ghost try_from_gives = { λ s r. r ≡ ok_or (target_of s) NoPoint };

    fn try_from(s: State) -> Result<Target, Refusal> {
        if !in_form(s) {
            return Err(Refusal::NoPoint);
        }
        Ok(target_read(s))
    }
}
