// What a reply makes of an act whose frame goes on, or is over: polls, status, ID and compare.
ghost use Rattle.std.specs.Prelude.{◌≡◌, cond};
ghost use Rattle.c2_session.specs.Code.Bytes.{image_byte, compared_offset};
ghost use Rattle.c2_session.specs.Code.Next.{next_act};
ghost use Rattle.c2_session.specs.Code.Judge.{read_again, compared, frame_judged, frame_answered};

use crate::bytes::image_byte;
use crate::next::{end_point, end_with, strobe_point};
use crate::{At, Point, Session};
use c2_acts::{FIRST_COMPARE, Task};
use c2_order::OKAY;
use c2_wire::{Moved, Place};
use numbers::{BAD_STATUS, COMPARE_DIFFERS, OTHER_DEVICE, POLL_LIMIT_REACHED, WAIT_LIMIT_REACHED};

// The status that passes, as the sampled bits give it.
const PASSED: u32 = OKAY as u32;

// An unsatisfied read of a poll: the one that reaches the limit refuses.
#[tactic(auto, unfolding(crate::specs::Code::Judge::read_again))]
fn read_again(at: At, reads: u32) -> Point
    ensures { result ≡ read_again 256 at reads }
{
    if reads < Session::POLL_LIMIT && reads + 1 < Session::POLL_LIMIT {
        strobe_point(
            at,
            Place {
                strobe: 0,
                count: reads + 1,
                bits: 0,
            },
        )
    } else {
        end_point(POLL_LIMIT_REACHED)
    }
}

impl Session {
    // The point after an act that passes, or else this other one.
    fn passed(self, passes: bool, at: At, otherwise: Point) -> Point
        ensures { result ≡ cond passes (next_act self at) otherwise }
    {
        if passes { self.next_act(at) } else { otherwise }
    }

    // The point after a byte read back.
    #[tactic(auto, unfolding(crate::specs::Code::Judge::compared, crate::specs::Code::Judge::differs, crate::specs::Code::Bytes::compared_offset))]
    fn compared(self, at: At, byte: u32, image: &[u8]) -> Point
        ensures { result ≡ compared (image_byte image.now (compared_offset self at)) self at byte }
    {
        let offset = self.byte_offset(at, FIRST_COMPARE);
        let passes = byte == u32::from(image_byte(image, offset));
        self.passed(
            passes,
            at,
            end_with(COMPARE_DIFFERS, (offset % 4294967296) as u32),
        )
    }

    // The point after the reply to a frame's STOP; the frame has given this byte.
    fn frame_judged(self, task: Task, at: At, reads: u32, byte: u32, image: &[u8]) -> Point
        ensures { result ≡ frame_judged 256 task self at reads byte image.now }
    {
        match task {
            Task::Input => self.passed(byte / 2 % 2 == 0, at, read_again(at, reads)),
            Task::Output => self.passed(byte % 2 == 1, at, read_again(at, reads)),
            Task::Status => self.passed(byte == PASSED, at, end_point(BAD_STATUS)),
            Task::Ident => {
                self.passed(
                    byte == u32::from(self.settings.id),
                    at,
                    end_point(OTHER_DEVICE),
                )
            }
            Task::Compare => self.compared(at, byte, image),
            Task::Reset | Task::Pause | Task::Address | Task::Send => self.next_act(at),
        }
    }

    // The point after a reply that has moved the place in the act's frame; the place before it has this count.
    pub(crate) fn frame_answered(
        self,
        moved: Moved,
        task: Task,
        at: At,
        reads: u32,
        image: &[u8],
    ) -> Point
        ensures { result ≡ frame_answered 256 moved task self at reads image.now }
    {
        match moved {
            Moved::Within(next) => strobe_point(at, next),
            Moved::Stopped(byte) => self.frame_judged(task, at, reads, byte, image),
            Moved::WaitLimit => end_point(WAIT_LIMIT_REACHED),
        }
    }
}
