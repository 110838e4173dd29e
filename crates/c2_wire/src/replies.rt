// What a reply makes of a place in a frame.
ghost use Rattle.std.specs.Prelude.{◌≡◌, false, ◌*◌, ◌%◌, ◌^◌, ◌<◌, ◌≤◌};
ghost use Rattle.c2_wire.specs.Bits.{bit};
ghost use Rattle.c2_wire.specs.Place.{passes, takes_bit, waits_on};
ghost use Rattle.c2_wire.specs.Code.Script.{code_follows};

use crate::{Moved, Place};

// A place is public and may name any strobe: `follow` tests it once, and three of these ask for what it has tested.
impl Place {
    fn passed(self) -> Moved
        requires { self.strobe < 14 }
        ensures { result ≡ passes self }
    {
        Moved::Within(Place {
            strobe: self.strobe + 1,
            ..self
        })
    }

    // The place after a strobe that is sampled: bit i of the byte.
    fn sampled(self, i: u32, one: bool) -> Moved
        requires strobe_bound { self.strobe < 14 }
        requires i_bound { i < 8 }
        ensures { result ≡ takes_bit i self one }
    {
        Moved::Within(Place {
            strobe: self.strobe + 1,
            bits: (self.bits % 256 + weight(i, one)) % 256,
            ..self
        })
    }

    // A zero in a WAIT: the one that reaches the limit refuses.
    fn waited(self, limit: u32) -> Moved
        ensures { result ≡ waits_on limit self false }
    {
        let count = self.count;
        if count < limit && count + 1 < limit {
            Moved::Within(Place {
                count: count + 1,
                ..self
            })
        } else {
            Moved::WaitLimit
        }
    }

    fn wait_answered(self, one: bool, limit: u32) -> Moved
        requires { self.strobe < 14 }
        ensures { result ≡ waits_on limit self one }
    {
        if one {
            Moved::Within(Place {
                strobe: self.strobe + 1,
                count: 0,
                ..self
            })
        } else {
            self.waited(limit)
        }
    }
}

// The value of a sampled bit in its byte.
#[tactic(auto, using(crate::proofs::Laws::Bits::weight_small), unfolding(crate::specs::Bits::bit))]
fn weight(i: u32, one: bool) -> u32
    requires { i < 8 }
    ensures value { result ≡ bit one * 2 ^ i }
    ensures upper_bound { result ≤ 128 }
{
    u32::from(one) << i
}

// What a reply makes of a place whose strobe is a script's first one. The limit is that of a WAIT. No frame
// has a strobe past the fifteenth.
#[tactic(auto, unfolding(crate::specs::Code::Script::code_follows))]
pub fn follow(script: u64, place: Place, one: bool, limit: u32) -> Moved
    ensures { result ≡ code_follows limit (script % 16) place one }
{
    if 14 <= place.strobe {
        return Moved::Stopped(place.bits);
    }
    let code = script % 16;
    match code {
        0..=3 => place.passed(),
        6 => place.wait_answered(one, limit),
        8..=15 => place.sampled((code - 8) as u32, one),
        _ => Moved::Stopped(place.bits),
    }
}
