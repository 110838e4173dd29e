// A runner: a session's point, taken on by each reply.
ghost use Rattle.std.specs.Prelude.{◌≡◌, cond};
ghost use Rattle.c2_acts.specs.Code.Acts.{task_of};
ghost use Rattle.c2_session.specs.Code.Script.{script_at};
ghost use Rattle.c2_session.specs.Code.Run.{runner, runner_at, is_known, script_left, runner_settled, runner_replied, runner_advanced, runner_step};

use crate::next::end_point;
use crate::script::first_step;
use crate::{At, Point, Runner, Session};
use c2_acts::{Task, task_of};
use c2_wire::{Moved, OFF, Place, script_after};
use numbers::BAD_REPLY;

// A script that is not known. It needs no Option: what is left of any script after its last strobe is 0 as well.
const UNKNOWN: u64 = 0;

// The runner that sets off from a point; nothing is known of its act yet.
pub fn set_off(point: Point) -> Runner
    ensures { result ≡ runner_at point }
{
    Runner {
        point,
        task: Task::Reset,
        script: UNKNOWN,
    }
}

// What is left of a script after a reply at a strobe that has moved the place.
fn script_left(moved: Moved, script: u64, strobe: u32) -> u64
    ensures { result ≡ script_left moved script strobe }
{
    match moved {
        Moved::Within(next) => script_after(script, strobe, next.strobe),
        Moved::Stopped(_) | Moved::WaitLimit => UNKNOWN,
    }
}

impl Runner {
    // The runner with the task and the script of the act at a strobe of it. They are found anew where an act begins,
    // or a poll anew, at strobe 0, and where they are not known.
    #[tactic(auto, unfolding(crate::specs::Code::Run::is_known))]
    fn informed(self, s: Session, at: At, strobe: u32, image: &[u8]) -> Runner
        ensures { let known = is_known strobe self.script in let task = cond known self.task (task_of at.stage at.act) in result ≡ runner self.point task (cond known self.script (script_at task s at strobe image.now)) }
    {
        if strobe != 0 && self.script != UNKNOWN {
            return self;
        }
        let task = task_of(at.stage, at.act);
        Runner {
            task,
            script: s.script_at(task, at, strobe, image),
            ..self
        }
    }

    // The runner after a reply that has moved the place in the act's frame.
    fn settled(self, s: Session, moved: Moved, at: At, place: Place, image: &[u8]) -> Runner
        ensures { result ≡ runner_settled moved self.task self.script s at place image.now }
    {
        Runner {
            point: s.frame_answered(moved, self.task, at, place.count, image),
            script: script_left(moved, self.script, place.strobe),
            ..self
        }
    }

    // The runner after a reply to a strobe of an act of which task and script are known.
    #[tactic(auto, unfolding(crate::specs::Code::Run::runner_replied))]
    fn replied(self, s: Session, at: At, place: Place, reply: u8, image: &[u8]) -> Runner
        ensures { result ≡ runner_replied self.task self.script s at place reply image.now }
    {
        if 1 < reply {
            return Runner {
                point: end_point(BAD_REPLY),
                script: UNKNOWN,
                ..self
            };
        }
        let limit = u32::from(s.settings.wait);
        let moved = c2_wire::follow(self.script, place, reply == 1, limit);
        self.settled(s, moved, at, place, image)
    }

    // The runner after a reply, lent the session's image. One that has reached the end stays there. The image stands
    // beside the session in all these functions: a session is kept between two calls, and its image is not.
    #[tactic(auto, unfolding(crate::specs::Code::Run::runner_advanced))]
    pub fn advance(self, s: Session, reply: u8, image: &[u8]) -> Runner
        ensures { result ≡ runner_advanced s self reply image.now }
    {
        match self.point {
            Point::Running {
                stage,
                page,
                block,
                act,
                strobe,
                count,
                bits,
            } => {
                let at = At {
                    stage,
                    page,
                    block,
                    act,
                };
                let place = Place {
                    strobe,
                    count,
                    bits,
                };
                self.informed(s, at, strobe, image)
                    .replied(s, at, place, reply, image)
            }
            Point::Ended { .. } => Runner {
                script: UNKNOWN,
                ..self
            },
        }
    }

    // The step that the runner waits at: 6 at the end.
    #[tactic(auto, unfolding(crate::specs::Code::Run::runner_step))]
    pub fn step(self) -> u8
        ensures { result ≡ runner_step self }
    {
        match self.point {
            Point::Running {
                stage,
                act,
                strobe: 0,
                ..
            } => first_step(stage, act),
            Point::Running { .. } => c2_wire::step(self.script),
            Point::Ended { .. } => OFF,
        }
    }
}
