// The frames for a caller in another language, so that they can be compared with a second implementation:
// frames by INS code, places and moves as numbers.
#![tactic(auto)]

ghost use Rattle.std.specs.Prelude.{◌≡◌, not, ℕ, ◌/◌, ◌^◌, eqb};
ghost use Rattle.c2_wire.specs.Frames.{frame};
ghost use Rattle.c2_wire.specs.Place.{place, step_at, followed};
ghost use Rattle.c2_wire.specs.Code.Script.{code_word, frame_codes, kept};
ghost use Rattle.c2_wire_probe.specs.Probe.{frame_of, moved_numbers};

use c2_wire::{Frame, Moved, Place};

// The frame of an INS code, which is taken modulo 4.
#[tactic(auto, unfolding(crate::specs::Probe::frame_of))]
fn frame_of(ins: u8) -> Frame
    ensures { result ≡ frame_of ins }
{
    match ins % 4 {
        0 => Frame::DataRead,
        1 => Frame::DataWrite,
        2 => Frame::AddressRead,
        _ => Frame::AddressWrite,
    }
}

// `Moved` as numbers, for callers in other languages: 0 another place, 1 the byte sampled, 2 the limit of the
// WAIT; what is not in use is 0.
#[repr(C)]
#[derive(Clone, Copy)]
pub struct Followed {
    pub kind: u32,
    pub strobe: u32,
    pub count: u32,
    pub bits: u32,
}

impl From<Moved> for Followed {
    ghost from_gives = { λ m f. f ≡ moved_numbers m };

    fn from(moved: Moved) -> Followed {
        match moved {
            Moved::Within(
                Place {
                    strobe,
                    count,
                    bits,
                },
            ) => Followed {
                kind: 0,
                strobe,
                count,
                bits,
            },
            Moved::Stopped(bits) => Followed {
                kind: 1,
                strobe: 0,
                count: 0,
                bits,
            },
            Moved::WaitLimit => Followed {
                kind: 2,
                strobe: 0,
                count: 0,
                bits: 0,
            },
        }
    }
}

// What is left of the script of the frame with this INS code, from a strobe on.
fn script_at(ins: u8, byte: u8, strobe: u32) -> u64
    ensures { result ≡ code_word (frame_codes (frame_of ins) byte) / 16 ^ kept strobe }
{
    c2_wire::script_from(c2_wire::script_of(frame_of(ins), byte), strobe)
}

// `step` and `follow` of c2_wire for callers in other languages, with the frame by its INS code.
#[unsafe(no_mangle)]
pub extern "C" fn wire_step(ins: u8, byte: u8, strobe: u32) -> u8
    ensures { result ≡ step_at (frame (frame_of ins) byte) strobe }
{
    c2_wire::step(script_at(ins, byte, strobe))
}

#[unsafe(no_mangle)]
pub extern "C" fn wire_follow(
    ins: u8,
    strobe: u32,
    count: u32,
    bits: u32,
    reply: u8,
    limit: u32,
) -> Followed
    ensures { (byte : ℕ) → result ≡ moved_numbers (followed limit (frame (frame_of ins) byte) (place strobe count bits) (not (eqb reply 0))) }
{
    let place = Place {
        strobe,
        count,
        bits,
    };
    c2_wire::follow(script_at(ins, 0, strobe), place, reply != 0, limit).into()
}
