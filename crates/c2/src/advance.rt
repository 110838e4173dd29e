// The call that takes replies.
ghost use Rattle.std.specs.Prelude.{◌≡◌, ◌++◌, ◌≤◌, length, drop};
ghost use Rattle.c2_session.specs.Code.Advance.{with_point};
ghost use Rattle.exchange.specs.Calls.{call_done};
ghost use Rattle.c2_calls.specs.Calls.{taking};
ghost use Rattle.c2_calls.specs.Family.{C2};
ghost use Rattle.c2.specs.Code.Loop.{ran, wrote, answered};

use crate::Ran;
use c2_calls::Advanced;
use c2_outcome::{is_running, outcome_of};
use c2_session::{Session, set_off};
use numbers::Refusal;
use settings::image_bytes;

// Takes replies as long as the session runs, and writes the step that follows each.
fn run(start: Session, image: &[u8], replies: &[u8], steps: &mut [u8]) -> Ran
    requires { length replies.now ≤ length steps.old }
    ensures point_value { with_point start result.point ≡ ran image.now start replies.now }
    ensures taken_value { result.taken ≡ length (wrote image.now start replies.now) }
    ensures steps_after { steps.new ≡ wrote image.now start replies.now ++ drop result.taken steps.old }
{
    let mut r = set_off(start.point);
    // By number, and not zipped with the steps: how many were taken is told.
    for (i, reply) in replies.iter().enumerate() {
        if !is_running(r.point) {
            return Ran {
                point: r.point,
                taken: i,
            };
        }
        r = r.advance(start, *reply, image);
        steps[i] = r.step();
    }
    Ran {
        point: r.point,
        taken: replies.len(),
    }
}

// Tests 6, 7 and 8, in this order, and then runs the session of the record on, into the step buffer from the place on.
fn take(
    held: &mut [u8],
    image: &[u8],
    replies: &[u8],
    steps: &mut [u8],
    place: usize,
) -> Result<Ran, Refusal>
    ensures value { answered result ≡ (call_done C2 (taking held.old image.now replies.now steps.old place)).answer }
    ensures steps_after { steps.new ≡ (call_done C2 (taking held.old image.now replies.now steps.old place)).steps }
    ensures held_after { held.new ≡ (call_done C2 (taking held.old image.now replies.now steps.old place)).held }
{
    let Some(point) = c2_record::point(held) else {
        return Err(Refusal::BadRecord);
    };
    let s = c2_record::session(held, point);
    if image.len() != image_bytes(s.settings.size, s.pages) {
        return Err(Refusal::OtherImage);
    }
    if steps.len() < place || steps.len() - place < replies.len() {
        return Err(Refusal::NoRoom);
    }
    let ran = run(s, image, replies, &mut steps[place..]);
    c2_record::put_point(ran.point, held);
    Ok(ran)
}

// Takes replies, and writes the step that follows each one taken into the step buffer, from the place on. A refused
// call, by 6, 7 or 8, changes no byte and takes no reply.
#[unsafe(no_mangle)]
pub extern "C" fn c2_advance(
    held: &mut [u8],
    image: &[u8],
    replies: &[u8],
    steps: &mut [u8],
    place: usize,
) -> Advanced
    ensures value { result ≡ (call_done C2 (taking held.old image.now replies.now steps.old place)).answer }
    ensures steps_after { steps.new ≡ (call_done C2 (taking held.old image.now replies.now steps.old place)).steps }
    ensures held_after { held.new ≡ (call_done C2 (taking held.old image.now replies.now steps.old place)).held }
{
    match take(held, image, replies, steps, place) {
        Ok(ran) => {
            let outcome = outcome_of(ran.point);
            Advanced {
                number: outcome.number,
                offset: outcome.offset,
                taken: ran.taken as u64,
            }
        }
        Err(refused) => Advanced {
            number: refused.into(),
            offset: 0,
            taken: 0,
        },
    }
}
