// The point after an act: the next act of its stage, or the first of what comes after the stage.
ghost use Rattle.std.specs.Prelude.{◌≡◌, cond, ◌+◌, ◌/◌, ltb};
ghost use Rattle.c2_session.specs.declared.Point.TheVariants.{Ended};
ghost use Rattle.c2_session.specs.Code.Next.{strobe_point, end_point, first_strobe, next_page, next_register, next_stage, next_act};

use crate::{At, Point, Session};
use c2_acts::{Stage, acts_in};
use c2_wire::Place;
use numbers::DONE;

pub(crate) fn strobe_point(at: At, place: Place) -> Point
    ensures { result ≡ strobe_point at place }
{
    Point::Running {
        stage: at.stage,
        page: at.page,
        block: at.block,
        act: at.act,
        strobe: place.strobe,
        count: place.count,
        bits: place.bits,
    }
}

pub(crate) fn end_with(number: u32, offset: u32) -> Point
    ensures { result ≡ Ended number offset }
{
    Point::Ended { number, offset }
}

pub(crate) fn end_point(number: u32) -> Point
    ensures { result ≡ end_point number }
{
    end_with(number, 0)
}

// The first strobe of an act.
fn first_strobe(at: At) -> Point
    ensures { result ≡ first_strobe at.stage at.page at.block at.act }
{
    strobe_point(
        at,
        Place {
            strobe: 0,
            count: 0,
            bits: 0,
        },
    )
}

// The first strobe of a stage, at this page.
fn begin(stage: Stage, page: u32) -> Point
    ensures { result ≡ first_strobe stage page 0 0 }
{
    first_strobe(At {
        stage,
        page,
        block: 0,
        act: 0,
    })
}

impl Session {
    // The first act of the page's next block in the same stage, or else another point.
    fn next_block(self, at: At, otherwise: Point) -> Point
        ensures { result ≡ cond (ltb (at.block + 1) (self.settings.size / 256)) (first_strobe at.stage at.page (at.block + 1) 0) otherwise }
    {
        if (at.block as usize) + 1 < (self.settings.size / 256) as usize {
            first_strobe(At {
                block: at.block + 1,
                act: 0,
                ..at
            })
        } else {
            otherwise
        }
    }

    #[tactic(auto, unfolding(crate::specs::Code::Next::next_page))]
    fn next_page(self, page: u32) -> Point
        ensures { result ≡ next_page self page }
    {
        if (page as usize) + 1 < usize::from(self.pages) {
            begin(Stage::Erase, page + 1)
        } else {
            begin(Stage::Close, 0)
        }
    }

    // The first act of the pair of this number, or of the first page, where no such pair is named.
    #[tactic(auto, unfolding(crate::specs::Code::Next::next_register))]
    fn next_register(self, number: usize) -> Point
        ensures { result ≡ next_register self number }
    {
        if number < usize::from(self.settings.pairs.count) {
            begin(Stage::Register, number as u32)
        } else {
            begin(Stage::Erase, 0)
        }
    }

    #[tactic(auto, unfolding(crate::specs::Code::Next::next_write, crate::specs::Code::Next::next_read))]
    fn next_stage(self, at: At) -> Point
        ensures { result ≡ next_stage at.stage self at }
    {
        match at.stage {
            Stage::Lead => self.next_register(0),
            Stage::Erase => begin(Stage::Write, at.page),
            Stage::Write => self.next_block(at, begin(Stage::Read, at.page)),
            Stage::Read => self.next_block(at, self.next_page(at.page)),
            Stage::Close => end_point(DONE),
            Stage::Register => self.next_register((at.page as usize) + 1),
        }
    }

    // The point after an act.
    #[tactic(auto, unfolding(crate::specs::Code::Next::next_act))]
    pub(crate) fn next_act(self, at: At) -> Point
        ensures { result ≡ next_act self at }
    {
        if (at.act as usize) + 1 < acts_in(at.stage) as usize {
            first_strobe(At {
                act: at.act + 1,
                ..at
            })
        } else {
            self.next_stage(at)
        }
    }
}
