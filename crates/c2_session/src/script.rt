// The script of an act: what it says on the wire, strobe by strobe.
ghost use Rattle.std.specs.Prelude.{◌≡◌};
ghost use Rattle.c2_wire.specs.Code.Script.{code_word};
ghost use Rattle.c2_session.specs.Code.Step.{alone, task_byte};
ghost use Rattle.c2_session.specs.Code.Script.{task_codes, script_at};
ghost use Rattle.c2_acts.specs.Code.Acts.{task_of};

use crate::{At, Session};
use c2_acts::{Stage, Task, task_of};
use c2_wire::{Frame, PAUSE, RELEASED, RESET, script_from, script_of};

// The step of an act that stands in no frame, 0 for any other: its frame's START.
fn alone(task: Task) -> u8
    ensures { result ≡ alone task }
{
    match task {
        Task::Reset => RESET,
        Task::Pause => PAUSE,
        _ => RELEASED,
    }
}

// The first step of an act.
pub(crate) fn first_step(stage: Stage, act: u32) -> u8
    ensures { result ≡ alone (task_of stage act) }
{
    alone(task_of(stage, act))
}

// The script of an act that sends this byte. A step that stands in no frame is the code of every strobe.
#[tactic(auto, unfolding(crate::specs::Code::Script::task_codes, c2_wire::specs::Code::Script::code_word))]
fn act_script(task: Task, byte: u8) -> u64
    ensures { result ≡ code_word (task_codes task byte) }
{
    let frame = match task {
        Task::Reset => return 0x4444444444444444,
        Task::Pause => return 0x5555555555555555,
        Task::Address => Frame::AddressWrite,
        Task::Send => Frame::DataWrite,
        Task::Input | Task::Output => Frame::AddressRead,
        Task::Ident | Task::Status | Task::Compare => Frame::DataRead,
    };
    script_of(frame, byte)
}

impl Session {
    // The byte that the act's frame sends, 0 for a frame that reads.
    fn task_byte(self, task: Task, at: At, image: &[u8]) -> u8
        ensures { result ≡ task_byte task self at image.now }
    {
        if matches!(task, Task::Address | Task::Send) {
            self.stage_byte(at, image)
        } else {
            0
        }
    }

    // What is left of the script of an act from a strobe on.
    #[tactic(auto, unfolding(crate::specs::Code::Script::script_at))]
    pub(crate) fn script_at(self, task: Task, at: At, strobe: u32, image: &[u8]) -> u64
        ensures { result ≡ script_at task self at strobe image.now }
    {
        script_from(act_script(task, self.task_byte(task, at, image)), strobe)
    }
}
