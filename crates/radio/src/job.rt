// The calls of a job.
ghost use Rattle.std.specs.Prelude.{◌≡◌};
ghost use Rattle.exchange.specs.Calls.{call_done};
ghost use Rattle.radio_calls.specs.Calls.{job_opens, job_takes};
ghost use Rattle.radio_calls.specs.Family.{Radio};

use radio_calls::{RadioAdvanced, RadioOpened};

// Opens a job. Tests 29, 30, 6 and 26, in this order; a refused opening changes no byte.
#[unsafe(no_mangle)]
pub extern "C" fn radio_open(
    held: &mut [u8],
    image: &[u8],
    mask: &[u8],
    ours: &[u8],
    out: &mut [u8],
) -> RadioOpened
    ensures value { result
        ≡ (call_done Radio (job_opens held.old image.now mask.now ours.now
        out.old)).answer }
    ensures held_after { held.new
        ≡ (call_done Radio (job_opens held.old image.now mask.now ours.now
        out.old)).held }
    ensures out_after { out.new
        ≡ (call_done Radio (job_opens held.old image.now mask.now ours.now
        out.old)).out }
{
    radio_advance::open_job(held, image, mask, ours, out)
}

// Takes one reply. Tests 6, 7 and 26, in this order; a refused call changes no byte.
#[unsafe(no_mangle)]
pub extern "C" fn radio_advance(
    held: &mut [u8],
    image: &[u8],
    reply: &[u8],
    out: &mut [u8],
) -> RadioAdvanced
    ensures value { result ≡ (call_done Radio (job_takes held.old image.now reply.now out.old)).answer }
    ensures held_after { held.new
        ≡ (call_done Radio (job_takes held.old image.now reply.now out.old)).held }
    ensures out_after { out.new
        ≡ (call_done Radio (job_takes held.old image.now reply.now out.old)).out }
{
    radio_advance::take_reply(held, image, reply, out)
}
