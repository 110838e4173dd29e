// The states that the modelled target may be in, in code.
#![tactic(auto, using(std::proofs::lemmas::Bool::Decides::nat_tests), unfolding(c2_target::specs::Known::hearing, c2_target::specs::Known::is_byte, c2_target::specs::Known::known_effect, c2_target::specs::Known::after_its_wait, c2_target::specs::Known::is_sent, c2_target::specs::Known::known_point, c2_target::specs::Known::most_keys, c2_target::specs::Known::is_count, c2_target::specs::Known::known_block, c2_target::specs::Known::known_command, c2_target::specs::Known::known_output, c2_target::specs::Known::known_link, c2_target::specs::Known::known))]

ghost use Rattle.std.specs.Prelude.{◌≡◌, List, ℕ, ◌*◌, ◌≤◌};
ghost use Rattle.c2_target.specs.Delays.{setup};
ghost use Rattle.c2_target.specs.Interface.{link, device};
ghost use Rattle.c2_target.specs.Strobes.{target};
ghost use Rattle.c2_target.specs.Known.{hearing, known_effect, after_its_wait, is_sent, known_point, most_keys, is_count, known_block, known_command, known_output, known_link, known};

use c2_target::{Command, Effect, Link, Output, Point, Target};
use settings::{Pairs, Settings};

// Whether fewer bits are heard than the field has, and their value has no bits but those.
fn hearing(width: usize, heard: usize, value: usize) -> bool
    requires { width ≤ 8 }
    ensures { result ≡ hearing width heard value }
{
    heard < width && value < (1usize << heard)
}

fn known_effect(effect: Effect) -> bool
    ensures { result ≡ known_effect effect }
{
    match effect {
        Effect::SetAddress(byte) | Effect::Write(byte) => byte < 256,
        _ => true,
    }
}

// Whether so many bits are sent after the WAIT of a frame that does this at its STOP: none, or those of one
// byte where it reads one, and of two, three or four where it does nothing.
fn after_its_wait(left: usize, effect: Effect) -> bool
    ensures { result ≡ after_its_wait left effect }
{
    match effect {
        Effect::Nothing => matches!(left, 0 | 16 | 24 | 32),
        Effect::Write(byte) => left == 0 && byte < 256,
        Effect::Read => left == 8,
        _ => false,
    }
}

// Whether so many bits of this value are still to be sent: a byte, or up to four of zeros.
fn is_sent(left: usize, value: usize, effect: Effect) -> bool
    ensures { result ≡ is_sent left value effect }
{
    match effect {
        Effect::Nothing => left <= 32 && value == 0,
        Effect::CountDown | Effect::Read => left <= 8 && value < (1usize << left),
        _ => false,
    }
}

// Whether a frame has this point.
fn known_point(wait: usize, point: Point) -> bool
    ensures { result ≡ known_point wait point }
{
    match point {
        Point::Start => true,
        Point::Ins { heard, value }
        | Point::WriteLength { heard, value }
        | Point::ReadLength { heard, value } => hearing(2, heard, value),
        Point::Address { heard, value } | Point::Data { heard, value } => hearing(8, heard, value),
        Point::LongData { left } => (1..=32).contains(&left),
        Point::Wait { left, effect } => after_its_wait(left, effect),
        Point::Waiting {
            zeros,
            left,
            effect,
        } => zeros < wait.saturating_sub(1) && after_its_wait(left, effect),
        Point::Send {
            left,
            value,
            effect,
        } => 1 <= left && is_sent(left, value, effect),
        Point::Stop { effect } => known_effect(effect),
    }
}

// How many of the three key writes may be counted at a point: all three only between two frames.
fn most_keys(point: Point) -> usize
    ensures { result ≡ most_keys point }
{
    match point {
        Point::Start => 3,
        _ => 2,
    }
}

fn is_count(count: usize) -> bool
    ensures { result ≡ is_count count }
{
    (1..=256).contains(&count)
}

// Whether a block lies inside the flash.
fn known_block(end: usize, address: usize, count: usize) -> bool
    ensures { result ≡ known_block end address count }
{
    is_count(count) && address <= end && count <= end - address
}

// Whether a command has this point.
fn known_command(pages: usize, end: usize, command: Command) -> bool
    ensures { result ≡ known_command pages end command }
{
    match command {
        Command::Ready | Command::ErasePage | Command::High { .. } => true,
        Command::EraseConfirm { page } => page < pages,
        Command::Low { high, .. } => high < 256,
        Command::LengthCode { address, .. } => address < 65536,
        Command::Byte { address, left } => known_block(end, address, left),
        Command::PastEnd { left } => is_count(left),
    }
}

fn known_output(end: usize, output: Output) -> bool
    ensures { result ≡ known_output end output }
{
    match output {
        Output::Empty | Output::Status { .. } => true,
        Output::StatusBlock { address, count } | Output::Block { address, count } => {
            known_block(end, address, count)
        }
    }
}

fn known_link(pages: usize, end: usize, link: Link) -> bool
    ensures { result ≡ known_link pages end link }
{
    known_command(pages, end, link.command)
        && known_output(end, link.output)
        && link.busy < 256
        && link.late < 256
}

// `image_bytes` of settings takes a session's pages, a u16.
fn flash_size(size: u32, count: u32) -> usize
    ensures { result ≡ size * count }
{
    (size as usize) * (count as usize)
}

// Whether the flash is as long as the pages of the settings, and the state exists.
pub fn known(t: Settings, target: Target, flash: &[u8]) -> bool
    ensures { (w : Pairs) (ds : List ℕ) → result ≡ known (setup t w ds) target flash.now }
{
    let device = target.device;
    flash.len() == flash_size(t.size, t.count)
        && known_point(usize::from(t.wait), target.point)
        && device.keys <= most_keys(target.point)
        && device.address < 256
        && known_link(t.count as usize, flash.len(), device.link)
}
