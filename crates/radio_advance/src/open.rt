// A job opened.
ghost use Rattle.std.specs.Prelude.{◌≡◌};
ghost use Rattle.exchange.specs.Calls.{call_done};
ghost use Rattle.radio_calls.specs.Calls.{job_opens};
ghost use Rattle.radio_calls.specs.Family.{Radio};

use crate::ROOM;
use crate::keep::keep_point;
use numbers::Refusal;
use radio_calls::RadioOpened;
use radio_job::JobPoint;
use radio_record::{MASK, NUMBERS, RADIO_RECORD_BYTES};

// Opens a job. Tests 29, 30, 6 and 26, in this order; a refused opening changes no byte. A function with `?` inside would
// want a definition more for these tests, so it's no plainer.
pub fn open_job(
    held: &mut [u8],
    image: &[u8],
    mask: &[u8],
    ours: &[u8],
    out: &mut [u8],
) -> RadioOpened
    ensures value { result
        ≡ (call_done Radio (job_opens held.old image.now mask.now ours.now
        out.old)).answer }
    ensures held_after { held.new
        ≡ (call_done Radio (job_opens held.old image.now mask.now ours.now
        out.old)).held }
    ensures out_after { out.new
        ≡ (call_done Radio (job_opens held.old image.now mask.now ours.now
        out.old)).out }
{
    if let Err(e) = radio_image::input_refusal(mask, ours.len(), image.len()) {
        return RadioOpened::from(e);
    }
    let Some(held) = held.as_mut_array::<RADIO_RECORD_BYTES>() else {
        return RadioOpened::from(Refusal::BadRecord);
    };
    if out.len() < ROOM {
        return RadioOpened::from(Refusal::BufferTooSmall);
    }
    held[..MASK].copy_from_slice(ours);
    held[MASK..NUMBERS].copy_from_slice(mask);
    keep_point(image.len(), JobPoint::AsksConfiguration, held);
    let said = radio_say::say(JobPoint::AsksConfiguration, image, held, out);
    RadioOpened {
        number: 0,
        send: said.send,
        expect: said.expect,
    }
}
