// A frame's script: one word, four bits to a strobe, the first strobe's lowest. A strobe's code is its step
// where the reply is not looked at (0, 2 or 3), 6 for a WAIT, 8 and the bit's number for a sampled bit, and 7
// for the STOP and all that is past it. Steps that stand in no frame, 4 and 5, are codes of their own.
ghost use Rattle.std.specs.Prelude.{◌≡◌, cond, ◌+◌, ◌*◌, ◌/◌, ◌%◌, ◌^◌, ◌<◌, ◌≤◌, eqb, IfSome};
ghost use Rattle.std.specs.Option.{unwrap_or};
ghost use Rattle.c2_wire.specs.Code.Script.{code_word, frame_codes, frame_around, byte_weight, kept, code_step};

use crate::table::driven;
use crate::{Frame, RELEASED};

impl Frame {
    // What a frame has in its script beside the byte that it writes.
    #[tactic(auto, unfolding(crate::specs::Code::Script::frame_around))]
    fn around(self) -> u64
        ensures value { result ≡ frame_around self }
        ensures upper_bound { result ≤ 0x7800000000000000 }
    {
        match self {
            Frame::AddressWrite => 0x7777700000000330,
            Frame::AddressRead => 0x77777fedcba98320,
            Frame::DataWrite => 0x7760000000022230,
            Frame::DataRead => 0x77fedcba98622220,
        }
    }

    // The weight in its script of the byte that a frame writes; none where it writes none.
    #[tactic(auto, unfolding(crate::specs::Code::Script::byte_weight))]
    fn byte_weight(self) -> Option<u64>
        ensures value { unwrap_or result 0 ≡ byte_weight self }
        ensures upper_bound { IfSome result (λ w. w ≤ 1048576) }
    {
        match self {
            Frame::AddressWrite => Some(4096),
            Frame::DataWrite => Some(1048576),
            Frame::AddressRead | Frame::DataRead => None,
        }
    }
}

// The script of a frame; the byte is the one that a write sends. The table of driven steps is asked at one
// place, and for writes alone: the compiler builds it each time.
#[tactic(auto, using(crate::proofs::Laws::Script::frame_word))]
pub fn script_of(kind: Frame, byte: u8) -> u64
    ensures { result ≡ code_word (frame_codes kind byte) }
{
    match kind.byte_weight() {
        Some(weight) => kind.around() + driven(byte) * weight,
        None => kind.around(),
    }
}

// What is left of a script from a strobe on. No frame has a strobe past the sixteenth.
#[tactic(auto, using(crate::proofs::Laws::Script::sixteens), unfolding(crate::specs::Code::Script::kept))]
pub fn script_from(script: u64, strobe: u32) -> u64
    ensures { result ≡ script / 16 ^ kept strobe }
{
    script >> (4 * strobe.min(15))
}

// What is left of a script after a reply that leads from one strobe to another: in a WAIT that goes on, all.
pub fn script_after(script: u64, strobe: u32, next: u32) -> u64
    ensures { result ≡ cond (eqb next strobe) script (script / 16) }
{
    if next == strobe { script } else { script / 16 }
}

// The step of a script's first strobe.
#[tactic(auto, unfolding(crate::specs::Code::Script::code_step))]
pub fn step(script: u64) -> u8
    ensures { result ≡ code_step (script % 16) }
{
    let code = script % 16;
    if code < 6 { code as u8 } else { RELEASED }
}
