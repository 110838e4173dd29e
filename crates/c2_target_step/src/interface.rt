// The registers and the Programming Interface behind FPDAT: what reads show, and what a frame does at its
// STOP.
#![tactic(auto, using(std::proofs::lemmas::Bool::Decides::nat_tests), unfolding(c2_target::specs::Interface::in_busy, c2_target::specs::Interface::out_ready, c2_target::specs::Interface::status_bits, c2_target::specs::Interface::linked, c2_target::specs::Interface::shown, c2_target::specs::Interface::given, c2_target::specs::Interface::late_of, c2_target::specs::Interface::place_after, c2_target::specs::Interface::put_byte, c2_target::specs::Interface::get_byte, c2_target::specs::Interface::counted, c2_target::specs::Interface::next_keys, c2_target::specs::Interface::begun, c2_target::specs::Interface::frame_does, c2_target::specs::Known::known_effect, c2_target::specs::Known::is_byte, c2_target::specs::Known::known_link, c2_wire::specs::Bits::bit))]

ghost use Rattle.std.specs.Prelude.{◌≡◌, true, cond, [], ◌-◌, ◌*◌, ◌<◌, ◌≤◌, length};
ghost use Rattle.settings.specs.Registers.{no_pairs};
ghost use Rattle.c2_target.specs.Delays.{setup};
ghost use Rattle.c2_target.specs.Commands.{first_byte};
ghost use Rattle.c2_target.specs.Interface.{link, device, in_busy, out_ready, status_bits, linked, shown, given, prepared, late_of, place_after, put_byte, get_byte, counted, next_keys, begun, acted, served, with_met, with_served, frame_does};
ghost use Rattle.c2_target.specs.Known.{known_effect, known_command, known_output, known_link};
ghost use Rattle.c2_target_step.specs.Code.Parts.{lent, stopped, effect_flash};

use crate::Lent;
use crate::commands::{first_byte, other_bytes, some_output, takes};
use crate::delays::{delay, next_place};
use crate::flash::put_writes;
use c2_order::{FPCTL, KEY_1, KEY_2, KEY_3};
use c2_target::{Command, Device, Effect, Link, Met, Output, Point, Target};
use c2_target_wanted::{met_written, prepared};
use settings::{Pairs, Settings};

fn in_busy(l: Link) -> bool
    ensures { result ≡ in_busy l }
{
    0 < l.busy
}

fn out_ready(l: Link) -> bool
    ensures { result ≡ out_ready l }
{
    l.busy == 0 && l.late == 0 && some_output(l.output)
}

fn status_bits(l: Link) -> usize
    ensures { result ≡ status_bits l }
{
    usize::from(out_ready(l)) + 2 * usize::from(in_busy(l))
}

// The interface after an Address Read, which is one of the d reads, and after those one of the e reads.
fn counted(l: Link) -> Link
    ensures { result ≡ counted l }
{
    if 0 < l.busy {
        Link {
            busy: l.busy - 1,
            ..l
        }
    } else {
        Link {
            late: l.late.saturating_sub(1),
            ..l
        }
    }
}

// How many of the three key writes the last Data Writes are, after one more.
fn next_keys(address: usize, keys: usize, byte: u8) -> usize
    ensures { result ≡ next_keys address keys byte }
{
    match (address == usize::from(FPCTL), byte, keys) {
        (true, KEY_1, _) => 1,
        (true, KEY_2, 1) => 2,
        (true, KEY_3, 2) => 3,
        _ => 0,
    }
}

// Whether the address is FPDAT's, and the interface is on.
fn linked(d: Device, t: Settings) -> bool
    ensures { result ≡ linked t d }
{
    d.on && d.address == usize::from(t.fpdat)
}

// What an Address Read shows.
pub(crate) fn shown(d: Device, t: Settings) -> usize
    ensures { result ≡ shown t d }
{
    if linked(d, t) {
        status_bits(d.link)
    } else {
        d.address
    }
}

// What a read at FPDAT gives.
fn output_given(d: Device, flash: &[u8]) -> usize
    ensures { result ≡ cond (out_ready d.link) (first_byte d.link.output flash.now) 0 }
{
    if out_ready(d.link) {
        first_byte(d.link.output, flash)
    } else {
        0
    }
}

// What a Data Read gives.
pub(crate) fn given(d: Device, t: Settings, flash: &[u8]) -> usize
    ensures { result ≡ given t d flash.now }
{
    if linked(d, t) {
        output_given(d, flash)
    } else if d.address == 0 {
        usize::from(t.id)
    } else {
        0
    }
}

// The device after a START, which takes three key writes away.
pub(crate) fn begun(d: Device) -> Device
    ensures { result ≡ begun d }
{
    let keys = if d.keys == 3 { 0 } else { d.keys };
    Device { keys, ..d }
}

// The target between two frames, with this place in the delay list and this device.
pub(crate) fn idle(y: Target, place: usize, device: Device) -> Target
    ensures { result ≡ stopped y (acted device place []) }
{
    Target {
        point: Point::Start,
        place,
        device,
        ..y
    }
}

fn served(y: Target, keys: usize, link: Link, place: usize) -> Target
    ensures { result ≡ stopped y (with_served y.device keys (served link place [])) }
{
    idle(
        y,
        place,
        Device {
            keys,
            link,
            ..y.device
        },
    )
}

// The target after a put or a get whose output takes a further delay e; where there is none, no delay is
// taken.
fn awaits(
    y: Target,
    keys: usize,
    taken: (Command, Output),
    busy: usize,
    place: usize,
    delays: &[u8],
) -> Target
    ensures { result ≡ stopped y (with_served y.device keys (served (link taken.0 taken.1 busy (late_of delays.now taken.1 place)) (place_after delays.now taken.1 place) [])) }
{
    let (command, output) = taken;
    let (late, place) = if some_output(output) {
        (delay(delays, place), next_place(delays, place))
    } else {
        (0, place)
    };
    served(
        y,
        keys,
        Link {
            command,
            output,
            busy,
            late,
        },
        place,
    )
}

// The target after a byte put, which takes a delay d, then e.
fn puts(y: Target, u: &Lent, keys: usize, byte: u8, flash: &[u8]) -> Target
    requires { known_command u.now.t.count (length flash.now) y.device.link.command ≡ true }
    ensures { result ≡ stopped y (with_served y.device keys (put_byte (lent u.now) (prepared u.now.wanted y.device.met) y.device.link byte y.place flash.now)) }
{
    let ready = prepared(u.wanted, y.device.met);
    let taken = takes(u.t, ready, y.device.link.command, byte, flash);
    let place = next_place(u.delays, y.place);
    awaits(y, keys, taken, delay(u.delays, y.place), place, u.delays)
}

// The target after a read, which takes the first byte of the output away; where more waits a new e is
// taken.
fn gets(y: Target, flash: &[u8], delays: &[u8]) -> Target
    requires { known_output (length flash.now) y.device.link.output ≡ true }
    ensures { (t : Settings) (w : Pairs) → result ≡ stopped y (with_served y.device y.device.keys (get_byte (setup t w delays.now) y.device.link y.place flash.now)) }
{
    let device = y.device;
    let link = device.link;
    if out_ready(link) {
        let taken = (link.command, other_bytes(link.output, flash));
        awaits(y, device.keys, taken, link.busy, y.place, delays)
    } else {
        served(y, device.keys, link, y.place)
    }
}

// The target after a Data Write: at FPDAT it is a put; elsewhere it writes a register, which only the wanted
// pairs show.
fn writes(y: Target, u: &Lent, byte: u8, flash: &[u8]) -> Target
    requires { known_command u.now.t.count (length flash.now) y.device.link.command ≡ true }
    ensures { result ≡ stopped y (frame_does (lent u.now) (Effect.Write byte) y.device y.place flash.now) }
{
    let device = y.device;
    let keys = next_keys(device.address, device.keys, byte);
    if linked(device, u.t) {
        puts(y, u, keys, byte, flash)
    } else {
        let met = met_written(u.wanted, device.address, usize::from(byte), device.met);
        idle(
            y,
            y.place,
            Device {
                keys,
                met,
                ..device
            },
        )
    }
}

fn counts_down(y: Target, t: Settings) -> Target
    ensures { result ≡ stopped y (frame_does (setup t no_pairs []) Effect.CountDown y.device y.place []) }
{
    let device = y.device;
    let link = if linked(device, t) {
        counted(device.link)
    } else {
        device.link
    };
    served(y, device.keys, link, y.place)
}

fn reads(y: Target, u: &Lent, flash: &[u8]) -> Target
    requires { known_output (length flash.now) y.device.link.output ≡ true }
    ensures { result ≡ stopped y (frame_does (lent u.now) Effect.Read y.device y.place flash.now) }
{
    let device = y.device;
    if linked(device, u.t) {
        gets(y, flash, u.delays)
    } else {
        served(y, device.keys, device.link, y.place)
    }
}

// What a frame does at its STOP.
pub(crate) fn does(y: Target, u: &Lent, effect: Effect, flash: &[u8]) -> Target
    requires link_value { known_link u.now.t.count (length flash.now) y.device.link ≡ true }
    requires effect_value { known_effect effect ≡ true }
    ensures { result ≡ stopped y (frame_does (lent u.now) effect y.device y.place flash.now) }
{
    match effect {
        Effect::Nothing => idle(y, y.place, y.device),
        Effect::SetAddress(address) => idle(
            y,
            y.place,
            Device {
                address,
                ..y.device
            },
        ),
        Effect::Write(byte) => writes(y, u, byte as u8, flash),
        Effect::CountDown => counts_down(y, u.t),
        Effect::Read => reads(y, u, flash),
    }
}

// What a STOP makes of the flash: a put at FPDAT writes it.
pub(crate) fn effect_writes(t: Settings, effect: Effect, device: Device, flash: &mut [u8])
    requires link_value { known_link t.count (length flash.old) device.link ≡ true }
    requires flash_len { length flash.old ≡ t.size * t.count }
    requires effect_value { known_effect effect ≡ true }
    ensures { flash.new ≡ effect_flash t effect device flash.old }
{
    match effect {
        Effect::Write(byte) if linked(device, t) => {
            put_writes(t, device.link.command, byte as u8, flash)
        }
        _ => {}
    }
}
