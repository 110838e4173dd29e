// What acts, commands and pages cost at the most.
ghost use Rattle.std.specs.Prelude.{◌≡◌, ◌+◌, ◌*◌, ◌/◌, ◌<◌, ◌≤◌};
ghost use Rattle.c2_order.specs.Conversation.{limits_of};
ghost use Rattle.c2_order.specs.Figure.{byte_cost, block_cost, pair_cost, page_cost};
ghost use Rattle.c2_figure.specs.Code.Left.{task_cost, blocks_by_size};

use crate::{ADDRESS_FRAME, Figure, OTHER_STROBES, POLL_LIMIT};
use c2_acts::Task;

impl Figure {
    // The limit of a WAIT.
    pub(crate) fn wait(self) -> usize
        ensures value { result ≡ self.session.settings.wait }
        ensures upper_bound { result ≤ 255 }
    {
        usize::from(self.session.settings.wait)
    }

    // A frame with data, whose WAIT counts to the limit.
    pub(crate) fn data_frame(self) -> usize
        ensures value { result ≡ 14 + self.session.settings.wait }
        ensures upper_bound { result ≤ 269 }
    {
        OTHER_STROBES + self.wait()
    }

    pub(crate) fn task_cost(self, task: Task) -> usize
        ensures value { result ≡ task_cost (limits_of self.session.settings) task }
        ensures upper_bound { result ≤ 3072 }
    {
        match task {
            Task::Reset | Task::Pause => 1,
            Task::Address => ADDRESS_FRAME,
            Task::Input | Task::Output => POLL_LIMIT * ADDRESS_FRAME,
            Task::Send | Task::Ident | Task::Status | Task::Compare => self.data_frame(),
        }
    }

    // A byte put or got: a frame with a WAIT, and a poll.
    pub(crate) fn byte_cost(self) -> usize
        ensures value { result ≡ byte_cost (limits_of self.session.settings) }
        ensures lower_bound { 3086 ≤ result }
        ensures upper_bound { result < 4096 }
    {
        self.data_frame() + POLL_LIMIT * ADDRESS_FRAME
    }

    // A block written or read: an Address Write and 262 bytes.
    pub(crate) fn block_cost(self) -> usize
        ensures value { result ≡ block_cost (limits_of self.session.settings) }
        ensures upper_bound { result < 1048576 }
    {
        ADDRESS_FRAME + 262 * self.byte_cost()
    }

    // A pair: an Address Write and a Data Write.
    pub(crate) fn pair_cost(self) -> usize
        ensures value { result ≡ pair_cost (limits_of self.session.settings) }
        ensures upper_bound { result < 512 }
    {
        ADDRESS_FRAME + self.data_frame()
    }

    // The most steps of the blocks of a page, written or read.
    pub(crate) fn page_blocks(self) -> usize
        ensures value { result ≡ blocks_by_size (limits_of self.session.settings) self.session.settings.size }
        ensures upper_bound { result < 17592186044416 }
    {
        ((self.session.settings.size / 256) as usize) * self.block_cost()
    }

    // A page: its erase, an Address Write and 6 bytes, and its blocks written and read.
    fn page_cost(self) -> usize
        ensures value { result ≡ page_cost (limits_of self.session.settings) (self.session.settings.size / 256) }
        ensures upper_bound { result < 70368744177664 }
    {
        ADDRESS_FRAME + 6 * self.byte_cost() + 2 * self.page_blocks()
    }

    // The most steps of so many pages, and of the last reset.
    pub(crate) fn pages_cost(self, pages: u16) -> usize
        ensures value { result ≡ pages * page_cost (limits_of self.session.settings) (self.session.settings.size / 256) + 1 }
        ensures upper_bound { result ≤ 4611686018427387904 }
    {
        usize::from(pages) * self.page_cost() + 1
    }
}
