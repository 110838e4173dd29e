// One strobe: what the target replies, and the strobe that comes next.
#![tactic(auto, using(std::proofs::lemmas::Bool::Decides::nat_tests), unfolding(c2_target::specs::Strobes::line, c2_target::specs::Strobes::marked, c2_target::specs::Strobes::sending, c2_target::specs::Strobes::frame_begins, c2_target::specs::Strobes::after_ins, c2_target::specs::Strobes::after_write_length, c2_target::specs::Strobes::after_read_length, c2_target::specs::Strobes::after_address, c2_target::specs::Strobes::after_data, c2_target::specs::Strobes::after_long_data, c2_target::specs::Strobes::value_sent, c2_target::specs::Strobes::after_wait, c2_target::specs::Strobes::strobed_at, c2_target::specs::Target::step_coded, c2_target::specs::Known::known_point, c2_target::specs::Known::known, c2_target::specs::Known::known_effect, c2_target::specs::Known::hearing, c2_wire::specs::Step::drives, c2_wire::specs::Bits::bit, c2_wire::specs::Bits::odd, c2_wire::specs::Frames::ins_code))]

ghost use Rattle.std.specs.Prelude.{◌≡◌, true, List, [], ℕ, ◌%◌, ◌<◌, length};
ghost use Rattle.settings.specs.Registers.{no_pairs};
ghost use Rattle.c2_target.specs.Delays.{setup};
ghost use Rattle.c2_target.specs.Interface.{link, device};
ghost use Rattle.c2_target.specs.Strobes.{target, line, marked, with_bit, sending, frame_begins, after_ins, after_write_length, after_read_length, after_address, after_data, after_long_data, value_sent, after_wait, hears_bit, strobed_at, strobed};
ghost use Rattle.c2_target.specs.Known.{known_effect, known_link, known};
ghost use Rattle.c2_target.specs.Target.{step_coded};
ghost use Rattle.c2_target_step.specs.Code.Parts.{lent, replying, turn_replied, strobe_flash};
ghost use Rattle.c2_target.specs.declared.Point.TheVariants.{Wait};

use crate::Lent;
use crate::delays::{delay, next_place};
use crate::interface::{begun, does, effect_writes, given, shown};
use c2_target::{Device, Effect, Point, Target, Turned};
use c2_wire::{HIGH, LOW};
use settings::{Pairs, Settings};

// The bit on the line in a strobe of the master's: a released one reads 1.
fn line(x: u8) -> bool
    ensures { result ≡ line (step_coded x) }
{
    x != LOW
}

// Driving a strobe that is not the master's sets the mark for good.
fn marked(x: u8, collision: bool) -> bool
    ensures { result ≡ marked (step_coded x) collision }
{
    matches!(x, LOW | HIGH) || collision
}

// The value of the bits heard, with one more.
fn with_bit(heard: usize, value: usize, x: u8) -> usize
    requires heard_bound { heard < 8 }
    requires value_bound { value < 256 }
    ensures value { result ≡ with_bit heard value (step_coded x) }
    ensures upper_bound { result < 512 }
{
    if line(x) {
        value + (1usize << heard)
    } else {
        value
    }
}

// The point before so many bits are sent, lowest first, and then the STOP.
fn sending(left: usize, value: usize, effect: Effect) -> Point
    ensures { result ≡ sending left value effect }
{
    if left == 0 {
        Point::Stop { effect }
    } else {
        Point::Send {
            left,
            value,
            effect,
        }
    }
}

// The point after INS, which tells the frame.
fn frame_begins(t: Settings, device: Device, ins: usize) -> Point
    ensures { result ≡ frame_begins t device ins }
{
    match ins {
        0 => Point::ReadLength { heard: 0, value: 0 },
        1 => Point::WriteLength { heard: 0, value: 0 },
        2 => sending(8, shown(device, t), Effect::CountDown),
        _ => Point::Address { heard: 0, value: 0 },
    }
}

// The point after so many bits of INS with this value.
// One function for each field: each builds another point and goes on in another way, which one for all would take
// as closures.
fn after_ins(t: Settings, device: Device, heard: usize, value: usize) -> Point
    ensures { result ≡ after_ins t device heard value }
{
    if heard < 2 {
        Point::Ins { heard, value }
    } else {
        frame_begins(t, device, value)
    }
}

// The point after so many bits of LENGTH with this value, in a Data Write.
fn after_write_length(heard: usize, value: usize) -> Point
    requires { value < 512 }
    ensures { result ≡ after_write_length heard value }
{
    if heard < 2 {
        Point::WriteLength { heard, value }
    } else if value == 0 {
        Point::Data { heard: 0, value: 0 }
    } else {
        Point::LongData {
            left: 8 * (value + 1),
        }
    }
}

// The point after so many bits of LENGTH with this value, in a Data Read.
fn after_read_length(heard: usize, value: usize) -> Point
    requires { value < 512 }
    ensures { result ≡ after_read_length heard value }
{
    if heard < 2 {
        Point::ReadLength { heard, value }
    } else {
        let effect = if value == 0 {
            Effect::Read
        } else {
            Effect::Nothing
        };
        Point::Wait {
            left: 8 * (value + 1),
            effect,
        }
    }
}

// The point after so many bits of a written ADDRESS with this value.
fn after_address(heard: usize, value: usize) -> Point
    ensures { result ≡ after_address heard value }
{
    if heard < 8 {
        Point::Address { heard, value }
    } else {
        Point::Stop {
            effect: Effect::SetAddress(value),
        }
    }
}

// The point after so many bits of written DATA with this value.
fn after_data(heard: usize, value: usize) -> Point
    ensures { result ≡ after_data heard value }
{
    if heard < 8 {
        Point::Data { heard, value }
    } else {
        Point::Wait {
            left: 0,
            effect: Effect::Write(value),
        }
    }
}

fn after_long_data(left: usize) -> Point
    ensures { result ≡ after_long_data left }
{
    if 1 < left {
        Point::LongData { left: left - 1 }
    } else {
        Point::Wait {
            left: 0,
            effect: Effect::Nothing,
        }
    }
}

// The value of the bits that are sent after a WAIT.
fn value_sent(t: Settings, effect: Effect, device: Device, flash: &[u8]) -> usize
    ensures { (w : Pairs) (ds : List ℕ) → result ≡ value_sent (setup t w ds) effect device flash.now }
{
    match effect {
        Effect::Read => given(device, t, flash),
        _ => 0,
    }
}

// The point after a strobe of a WAIT: a zero, or the 1 that ends it.
fn after_wait(
    t: Settings,
    zeros: usize,
    left: usize,
    effect: Effect,
    device: Device,
    flash: &[u8],
) -> Point
    ensures { (w : Pairs) (ds : List ℕ) → result ≡ after_wait (setup t w ds) zeros left effect device flash.now }
{
    if zeros == 0 {
        sending(left, value_sent(t, effect, device, flash), effect)
    } else {
        Point::Waiting {
            zeros: zeros - 1,
            left,
            effect,
        }
    }
}

// A WAIT sends as many zeros as its delay modulo the limit.
fn zeros_of(delay: usize, limit: usize) -> usize
    ensures { result ≡ delay % limit }
{
    if limit == 0 { delay } else { delay % limit }
}

// A strobe of the master's: the reply is the bit on the line, and only the point moves on.
fn hears(y: Target, x: u8, point: Point) -> Turned
    ensures { result ≡ turn_replied (hears_bit y [] (step_coded x) point) }
{
    Turned {
        reply: line(x),
        target: Target { point, ..y },
    }
}

// A strobe of the target's. A drive sets the mark and has no other effect.
fn shows(y: Target, reply: bool, x: u8, point: Point, place: usize, device: Device) -> Turned
    ensures { result ≡ replying reply (target point place (marked (step_coded x) y.collision) device) }
{
    let collision = marked(x, y.collision);
    Turned {
        reply,
        target: Target {
            point,
            place,
            collision,
            device,
        },
    }
}

// The first strobe of a WAIT, which takes a delay.
fn begins_wait(y: Target, u: &Lent, left: usize, effect: Effect, flash: &[u8], x: u8) -> Turned
    ensures { result ≡ turn_replied (strobed_at (lent u.now) (Wait left effect) y flash.now (step_coded x)) }
{
    let zeros = zeros_of(delay(u.delays, y.place), usize::from(u.t.wait));
    let point = after_wait(u.t, zeros, left, effect, y.device, flash);
    shows(
        y,
        zeros == 0,
        x,
        point,
        next_place(u.delays, y.place),
        y.device,
    )
}

fn stops(y: Target, u: &Lent, effect: Effect, flash: &[u8], x: u8) -> Turned
    requires link_value { known_link u.now.t.count (length flash.now) y.device.link ≡ true }
    requires effect_value { known_effect effect ≡ true }
    ensures { result ≡ turn_replied (strobed_at (lent u.now) (Point.Stop effect) y flash.now (step_coded x)) }
{
    let target = does(y, u, effect, flash);
    shows(y, true, x, Point::Start, target.place, target.device)
}

// A strobe, by the point.
pub(crate) fn strobed(y: Target, u: &Lent, flash: &[u8], x: u8) -> Turned
    requires { known (lent u.now) y flash.now ≡ true }
    ensures { result ≡ turn_replied (strobed (lent u.now) y flash.now (step_coded x)) }
{
    match y.point {
        Point::Start => shows(
            y,
            true,
            x,
            Point::Ins { heard: 0, value: 0 },
            y.place,
            begun(y.device),
        ),
        Point::Ins { heard, value } => {
            hears(
                y,
                x,
                after_ins(u.t, y.device, heard + 1, with_bit(heard, value, x)),
            )
        }
        Point::WriteLength { heard, value } => {
            hears(
                y,
                x,
                after_write_length(heard + 1, with_bit(heard, value, x)),
            )
        }
        Point::ReadLength { heard, value } => {
            hears(
                y,
                x,
                after_read_length(heard + 1, with_bit(heard, value, x)),
            )
        }
        Point::Address { heard, value } => {
            hears(y, x, after_address(heard + 1, with_bit(heard, value, x)))
        }
        Point::Data { heard, value } => {
            hears(y, x, after_data(heard + 1, with_bit(heard, value, x)))
        }
        Point::LongData { left } => hears(y, x, after_long_data(left)),
        Point::Wait { left, effect } => begins_wait(y, u, left, effect, flash, x),
        Point::Waiting {
            zeros,
            left,
            effect,
        } => {
            let point = after_wait(u.t, zeros, left, effect, y.device, flash);
            shows(y, zeros == 0, x, point, y.place, y.device)
        }
        Point::Send {
            left,
            value,
            effect,
        } => {
            let point = sending(left.saturating_sub(1), value / 2, effect);
            shows(y, value % 2 == 1, x, point, y.place, y.device)
        }
        Point::Stop { effect } => stops(y, u, effect, flash, x),
    }
}

// What a strobe makes of the flash: only a STOP writes it.
pub(crate) fn strobe_writes(t: Settings, target: Target, flash: &mut [u8])
    requires { known (setup t no_pairs []) target flash.old ≡ true }
    ensures { flash.new ≡ strobe_flash t target.point target.device flash.old }
{
    if let Point::Stop { effect } = target.point {
        effect_writes(t, effect, target.device, flash);
    }
}
