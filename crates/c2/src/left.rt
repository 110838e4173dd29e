// The call that tells how much is left.
ghost use Rattle.std.specs.Prelude.{◌≡◌};
ghost use Rattle.exchange.specs.Calls.{call_done};
ghost use Rattle.c2_calls.specs.Calls.{asking};
ghost use Rattle.c2_calls.specs.Family.{C2};

use c2_calls::Remaining;
use c2_outcome::outcome_of;
use numbers::Refusal;

// Tells the session's number and the most steps still to come. A record that holds no session in range has 6
// and 0.
#[unsafe(no_mangle)]
pub extern "C" fn c2_steps_left(held: &[u8]) -> Remaining
    ensures { result ≡ call_done C2 (asking held.now) }
{
    let Some(point) = c2_record::point(held) else {
        return Remaining {
            number: Refusal::BadRecord.into(),
            steps: 0,
        };
    };
    let s = c2_record::session(held, point);
    Remaining {
        number: outcome_of(s.point).number,
        steps: c2_figure::steps_left(s) as u64,
    }
}
