// The loop of a run: a session and a target, step by step.
#![tactic(auto, using(std::proofs::lemmas::Bool::Decides::nat_tests), unfolding(c2_target::specs::Target::fresh))]

ghost use Rattle.std.specs.Prelude.{◌≡◌, IfOk, OnErr};
ghost use Rattle.numbers.specs.Numbers.{number_of};
ghost use Rattle.c2_target.specs.Target.{fresh};
ghost use Rattle.c2_target_step.specs.Code.Closed.{stops_at, from_start, first_refusal, closed_run};

use crate::steps::{cleared, refusal, stepped};
use crate::{Lent, Ran};
use c2_outcome::is_running;
use c2_session::{Session, set_off};
use c2_target::Target;
use c2_wire::RESET;
use numbers::Refusal;
use settings::{NO_PAIRS, Settings};

// A target before its first step.
fn fresh() -> Target
    ensures { result ≡ fresh }
{
    Target {
        point: c2_target::Point::Start,
        place: 0,
        collision: false,
        device: cleared(),
    }
}

// Plays a session from its first step on against a fresh target with these settings that wants no pairs:
// gives the target the step that the session waits at, and the session the target's reply, until the session
// has ended or the budget is spent. If the target refuses the first step, by 1 to 3, 18, 19 or 17, nothing is
// played. Later steps are not tested again: the target is then in a state that exists.
pub fn play(
    t: Settings,
    start: Session,
    image: &[u8],
    flash: &mut [u8],
    delays: &[u8],
    budget: usize,
) -> Result<Ran, Refusal>
    ensures number_value { number_of result ≡ first_refusal t flash.old }
    ensures point_value { IfOk result (λ r. r.point ≡ (closed_run budget t start delays.now image.now flash.old).session.point) }
    ensures replies_value { IfOk result (λ r. r.replies ≡ (closed_run budget t start delays.now image.now flash.old).replies) }
    ensures collision_value { IfOk result (λ r. r.collision ≡ (closed_run budget t start delays.now image.now flash.old).target.collision) }
    ensures refused { OnErr result (closed_run budget t start delays.now image.now flash.old ≡ stops_at 0 (from_start start) fresh flash.old) }
    ensures flash_after { flash.new ≡ (closed_run budget t start delays.now image.now flash.old).flash }
{
    let u = Lent {
        t,
        wanted: NO_PAIRS,
        delays,
    };
    refusal(t, u.wanted, fresh(), flash, RESET)?;
    let mut r = set_off(Session::FIRST);
    let mut target = fresh();
    for n in 0..budget {
        if !is_running(r.point) {
            return Ok(Ran {
                point: r.point,
                replies: n,
                collision: target.collision,
            });
        }
        let turned = stepped(&u, target, flash, r.step());
        target = turned.target;
        r = r.advance(start, u8::from(turned.reply), image);
    }
    Ok(Ran {
        point: r.point,
        replies: budget,
        collision: target.collision,
    })
}
