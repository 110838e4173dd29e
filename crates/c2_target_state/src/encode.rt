// The state of a target: its numbers, those that are not in use 0.
#![tactic(auto, using(std::proofs::lemmas::Bool::Decides::nat_tests), unfolding(c2_wire::specs::Bits::bit, crate::specs::State::effect_code, crate::specs::State::effect_byte, crate::specs::State::point_fields, crate::specs::State::command_fields, crate::specs::State::output_fields, crate::specs::State::state_of, crate::specs::Code::Inside::point_moved))]

ghost use Rattle.std.specs.Prelude.{◌≡◌};
ghost use Rattle.c2_target.specs.declared.Effect.TheVariants.{Nothing};
ghost use Rattle.c2_target_state.specs.Code.Inside.{point_moved};
ghost use Rattle.c2_target_state.specs.State.{effect_code, effect_byte, fields, point_fields, command_numbers, command_fields, output_fields, state_with, state_of};

use crate::fields::{low, word};
use crate::{CommandFields, OutputFields, PointFields, State};
use c2_target::{Command, Effect, Output, Point, Target};

fn effect_code(effect: Effect) -> u8
    ensures { result ≡ effect_code effect }
{
    match effect {
        Effect::Nothing => 0,
        Effect::SetAddress(_) => 1,
        Effect::Write(_) => 2,
        Effect::CountDown => 3,
        Effect::Read => 4,
    }
}

fn effect_byte(effect: Effect) -> u8
    ensures { result ≡ effect_byte effect }
{
    match effect {
        Effect::SetAddress(byte) | Effect::Write(byte) => low(byte),
        _ => 0,
    }
}

// The numbers of a point at which bits of a field are heard.
fn hearing(point: u8, heard: usize, value: usize) -> PointFields
    ensures { result ≡ fields point heard value 0 0 Nothing }
{
    PointFields {
        point,
        heard: low(heard),
        value: low(value),
        ..PointFields::default()
    }
}

// The numbers of a point that goes with what the frame does at its STOP.
fn with_effect(point: u8, effect: Effect) -> PointFields
    ensures { result ≡ fields point 0 0 0 0 effect }
{
    PointFields {
        point,
        effect: effect_code(effect),
        byte: effect_byte(effect),
        ..PointFields::default()
    }
}

impl From<Point> for PointFields {
    ghost from_gives = { λ p f. f ≡ point_fields p };

    fn from(point: Point) -> PointFields {
        match point {
            Point::Start => PointFields::default(),
            Point::Ins { heard, value } => hearing(1, heard, value),
            Point::WriteLength { heard, value } => hearing(2, heard, value),
            Point::ReadLength { heard, value } => hearing(3, heard, value),
            Point::Address { heard, value } => hearing(4, heard, value),
            Point::Data { heard, value } => hearing(5, heard, value),
            Point::LongData { left } => PointFields {
                left: low(left),
                ..with_effect(6, Effect::Nothing)
            },
            Point::Wait { left, effect } => PointFields {
                left: low(left),
                ..with_effect(7, effect)
            },
            Point::Waiting {
                zeros,
                left,
                effect,
            } => PointFields {
                zeros: low(zeros),
                left: low(left),
                ..with_effect(8, effect)
            },
            Point::Send {
                left,
                value,
                effect,
            } => PointFields {
                left: low(left),
                value: low(value),
                ..with_effect(9, effect)
            },
            Point::Stop { effect } => with_effect(10, effect),
        }
    }
}

// The numbers of a command for a block.
fn of_block(command: u8, write: bool) -> CommandFields
    ensures { result ≡ command_numbers command write 0 0 0 0 }
{
    CommandFields {
        command,
        write: write.into(),
        ..CommandFields::default()
    }
}

impl From<Command> for CommandFields {
    ghost from_gives = { λ c f. f ≡ command_fields c };

    fn from(command: Command) -> CommandFields {
        let none = CommandFields::default();
        match command {
            Command::Ready => none,
            Command::ErasePage => CommandFields { command: 1, ..none },
            Command::EraseConfirm { page } => CommandFields {
                command: 2,
                page: low(page),
                ..none
            },
            Command::High { write } => of_block(3, write),
            Command::Low { write, high } => CommandFields {
                high: low(high),
                ..of_block(4, write)
            },
            Command::LengthCode { write, address } => CommandFields {
                start: word(address),
                ..of_block(5, write)
            },
            Command::Byte { address, left } => CommandFields {
                command: 6,
                start: word(address),
                rest: word(left),
                ..none
            },
            Command::PastEnd { left } => CommandFields {
                command: 7,
                rest: word(left),
                ..none
            },
        }
    }
}

impl From<Output> for OutputFields {
    ghost from_gives = { λ o f. f ≡ output_fields o };

    fn from(output: Output) -> OutputFields {
        let none = OutputFields::default();
        match output {
            Output::Empty => none,
            Output::Status { passed } => OutputFields {
                output: 1,
                passed: passed.into(),
                ..none
            },
            Output::StatusBlock { address, count } => OutputFields {
                output: 2,
                next: word(address),
                count: word(count),
                ..none
            },
            Output::Block { address, count } => OutputFields {
                output: 3,
                next: word(address),
                count: word(count),
                ..none
            },
        }
    }
}

// The state of a target whose point, command and output have these numbers: C has all of them side by side.
fn state_with(target: Target, p: PointFields, c: CommandFields, o: OutputFields) -> State
    ensures { result ≡ state_with target p c o }
{
    let device = target.device;
    let met = device.met;
    State {
        place: target.place as u64,
        start: c.start,
        rest: c.rest,
        next: o.next,
        count: o.count,
        point: p.point,
        heard: p.heard,
        value: p.value,
        left: p.left,
        zeros: p.zeros,
        effect: p.effect,
        byte: p.byte,
        collision: target.collision.into(),
        address: low(device.address),
        on: device.on.into(),
        keys: low(device.keys),
        met1: met.first.into(),
        met2: met.second.into(),
        met3: met.third.into(),
        met4: met.fourth.into(),
        command: c.command,
        write: c.write,
        page: c.page,
        high: c.high,
        output: o.output,
        passed: o.passed,
        busy: low(device.link.busy),
        late: low(device.link.late),
    }
}

impl From<Target> for State {
    ghost from_gives = { λ t s. s ≡ state_of t };

    fn from(target: Target) -> State {
        let link = target.device.link;
        state_with(
            target,
            target.point.into(),
            link.command.into(),
            link.output.into(),
        )
    }
}

// The state of a target that has the device of this state's.
pub(crate) fn point_moved(s: State, target: Target) -> State
    ensures { result ≡ point_moved s target }
{
    let p = PointFields::from(target.point);
    State {
        place: target.place as u64,
        point: p.point,
        heard: p.heard,
        value: p.value,
        left: p.left,
        zeros: p.zeros,
        effect: p.effect,
        byte: p.byte,
        collision: target.collision.into(),
        ..s
    }
}
