// A job taken on by one reply.
ghost use Rattle.std.specs.Prelude.{◌≡◌};
ghost use Rattle.exchange.specs.Calls.{call_done};
ghost use Rattle.radio_calls.specs.Calls.{job_takes};
ghost use Rattle.radio_calls.specs.Family.{Radio};

use crate::ROOM;
use crate::keep::{keep_page, keep_point};
use numbers::Refusal;
use radio_calls::RadioAdvanced;
use radio_record::{JobKept, RADIO_RECORD_BYTES, unpack};

// Takes one reply of a job: page and point are kept, the next message is said. Tests 6, 7 and 26, in this order; a
// refused call changes no byte. As in `open_job`, a function with `?` inside would be no plainer.
pub fn take_reply(held: &mut [u8], image: &[u8], reply: &[u8], out: &mut [u8]) -> RadioAdvanced
    ensures value { result ≡ (call_done Radio (job_takes held.old image.now reply.now out.old)).answer }
    ensures held_after { held.new
        ≡ (call_done Radio (job_takes held.old image.now reply.now out.old)).held }
    ensures out_after { out.new
        ≡ (call_done Radio (job_takes held.old image.now reply.now out.old)).out }
{
    let Some(held) = held.as_mut_array::<RADIO_RECORD_BYTES>() else {
        return RadioAdvanced::from(Refusal::BadRecord);
    };
    let Some(JobKept { bytes, point }) = unpack(held) else {
        return RadioAdvanced::from(Refusal::BadRecord);
    };
    if image.len() != bytes {
        return RadioAdvanced::from(Refusal::OtherImage);
    }
    if out.len() < ROOM {
        return RadioAdvanced::from(Refusal::BufferTooSmall);
    }
    let next = radio_point::point_after(point, image, reply);
    keep_page(point, held, reply);
    keep_point(image.len(), next, held);
    radio_say::say(next, image, held, out)
}
