// The figure of the most steps to come, of a session.
ghost use Rattle.std.specs.Prelude.{◌≡◌, ◌-◌, ◌<◌, ◌≤◌};
ghost use Rattle.c2_order.specs.Conversation.{limits_of};
ghost use Rattle.c2_figure.specs.Code.Left.{wait_left, poll_left, act_left, lead_left, register_left, bytes_left, stage_left, pages_left, blocks_left, registers_left, after_left, point_left, steps_left};

use crate::{
    ADDRESS_FRAME, DATA_FRAME, Figure, LAST_OF_BLOCK, LAST_OF_ERASE, OTHER_STROBES, POLL_LIMIT,
};
use c2_acts::{PAIR_ADDRESS, Stage, Task, task_of};
use c2_session::{Point, Session};
use c2_wire::{Place, READ_WAIT, WRITE_WAIT};

// What is left of a poll.
fn poll_left(place: Place) -> usize
    ensures value { result ≡ poll_left 256 place.strobe place.count }
    ensures upper_bound { result ≤ 3072 }
{
    let reads = POLL_LIMIT
        .saturating_sub(place.count as usize)
        .saturating_sub(1);
    ADDRESS_FRAME.saturating_sub(place.strobe as usize) + reads * ADDRESS_FRAME
}

impl Figure {
    // What is left of a frame with data and a WAIT at this strobe.
    fn wait_left(self, waits: u32, place: Place) -> usize
        ensures value { result ≡ wait_left self.session.settings.wait waits place.strobe place.count }
        ensures upper_bound { result ≤ 269 }
    {
        let strobe = place.strobe as usize;
        if place.strobe < waits {
            OTHER_STROBES.saturating_sub(strobe) + self.wait()
        } else if place.strobe == waits {
            let zeros = self.wait().saturating_sub(place.count as usize);
            OTHER_STROBES.saturating_sub(strobe) + zeros
        } else {
            DATA_FRAME.saturating_sub(strobe)
        }
    }

    fn act_left(self, task: Task, place: Place) -> usize
        ensures value { result ≡ act_left (limits_of self.session.settings) task place.strobe place.count }
        ensures upper_bound { result ≤ 3072 }
    {
        let strobe = place.strobe as usize;
        match task {
            Task::Reset | Task::Pause => 1usize.saturating_sub(strobe),
            Task::Address => ADDRESS_FRAME.saturating_sub(strobe),
            Task::Send => self.wait_left(WRITE_WAIT, place),
            Task::Input | Task::Output => poll_left(place),
            Task::Ident | Task::Status | Task::Compare => self.wait_left(READ_WAIT, place),
        }
    }

    // The acts of the lead after this one.
    fn lead_left(self, act: u32) -> usize
        ensures value { result ≡ lead_left self.session.settings.wait act }
        ensures upper_bound { result ≤ 1090 }
    {
        let wait = self.wait();
        match act {
            0 => 70 + 4 * wait,
            1 => 56 + 3 * wait,
            2 => 55 + 3 * wait,
            3 => 43 + 3 * wait,
            4 => 29 + 2 * wait,
            5 => 15 + wait,
            6 => 1,
            _ => 0,
        }
    }

    // The acts of a command after this one: whole bytes, and the second act of a byte whose first this is.
    fn bytes_left(self, last: u16, task: Task, act: u32) -> usize
        ensures value { result ≡ bytes_left (limits_of self.session.settings) last task act }
        ensures upper_bound { result < 268435456 }
    {
        let byte = self.byte_cost();
        let whole = usize::from(last).saturating_sub(act as usize) / 2 * byte;
        if act % 2 == 1 {
            whole + (byte - self.task_cost(task))
        } else {
            whole
        }
    }

    // The acts of a pair after this one.
    fn register_left(self, act: u32) -> usize
        ensures value { result ≡ register_left self.session.settings.wait act }
        ensures upper_bound { result ≤ 269 }
    {
        match act {
            PAIR_ADDRESS => self.data_frame(),
            _ => 0,
        }
    }

    fn stage_left(self, stage: Stage, act: u32) -> usize
        ensures value { result ≡ stage_left (limits_of self.session.settings) stage act }
        ensures upper_bound { result < 268435456 }
    {
        let task = task_of(stage, act);
        match stage {
            Stage::Lead => self.lead_left(act),
            Stage::Erase => self.bytes_left(LAST_OF_ERASE, task, act),
            Stage::Write | Stage::Read => self.bytes_left(LAST_OF_BLOCK, task, act),
            Stage::Close => 0,
            Stage::Register => self.register_left(act),
        }
    }

    // The blocks of a page after this one.
    fn blocks_left(self, block: u32) -> usize
        ensures value { result ≡ blocks_left (limits_of self.session.settings) self.session.settings.size block }
        ensures upper_bound { result < 17592186044416 }
    {
        let blocks = (self.session.settings.size / 256)
            .saturating_sub(block)
            .saturating_sub(1);
        (blocks as usize) * self.block_cost()
    }

    // The pages after this one, and the last reset.
    fn pages_left(self, page: u32) -> usize
        ensures value { result ≡ pages_left (limits_of self.session.settings) self.session page }
        ensures upper_bound { result ≤ 4611686018427387904 }
    {
        let pages = u32::from(self.session.pages)
            .saturating_sub(page)
            .saturating_sub(1);
        self.pages_cost(pages as u16)
    }

    // The pairs from this number on, all pages, and the last reset.
    fn registers_left(self, number: usize) -> usize
        ensures value { result ≡ registers_left (limits_of self.session.settings) self.session number }
        ensures upper_bound { result < 4611686018427518976 }
    {
        let pairs = usize::from(self.session.settings.pairs.count).saturating_sub(number);
        pairs * self.pair_cost() + self.pages_cost(self.session.pages)
    }

    // What comes after a stage.
    fn after_left(self, stage: Stage, page: u32, block: u32) -> usize
        ensures value { result ≡ after_left (limits_of self.session.settings) stage self.session page block }
        ensures upper_bound { result < 4611827030111739904 }
    {
        match stage {
            Stage::Lead => self.registers_left(0),
            Stage::Erase => 2 * self.page_blocks() + self.pages_left(page),
            Stage::Write => self.blocks_left(block) + self.page_blocks() + self.pages_left(page),
            Stage::Read => self.blocks_left(block) + self.pages_left(page),
            Stage::Close => 0,
            Stage::Register => self.registers_left((page as usize) + 1),
        }
    }
}

// The most steps still to come of a session.
#[tactic(auto, unfolding(crate::specs::Code::Left::steps_left))]
pub fn steps_left(s: Session) -> usize
    ensures { result ≡ steps_left s }
{
    let figure = Figure { session: s };
    match s.point {
        Point::Running {
            stage,
            page,
            block,
            act,
            strobe,
            count,
            bits,
        } => {
            let place = Place {
                strobe,
                count,
                bits,
            };
            figure.act_left(task_of(stage, act), place)
                + figure.stage_left(stage, act)
                + figure.after_left(stage, page, block)
        }
        Point::Ended { .. } => 0,
    }
}
