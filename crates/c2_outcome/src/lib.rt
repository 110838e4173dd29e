// How a session stands: running, or ended with its outcome.
#![tactic(auto)]

ghost use Rattle.std.specs.Prelude.{◌≡◌};
ghost use Rattle.c2_outcome.specs.Outcome.{is_running, point_outcome};

use c2_session::Point;
use numbers::RUNNING;

// The session's number, and the image offset for 14. C has it so, and a point that has ended: a number, and 0 where it
// goes without an offset.
#[derive(Clone, Copy)]
pub struct Outcome {
    pub number: u32,
    pub offset: u32,
}

impl From<Point> for Outcome {
    ghost from_gives = { λ p o. o ≡ point_outcome p };

    fn from(point: Point) -> Outcome {
        match point {
            Point::Running { .. } => Outcome {
                number: RUNNING,
                offset: 0,
            },
            Point::Ended { number, offset } => Outcome { number, offset },
        }
    }
}

pub fn is_running(point: Point) -> bool
    ensures { result ≡ is_running point }
{
    matches!(point, Point::Running { .. })
}

// A public function keeps its name beside the conversion.
pub fn outcome_of(point: Point) -> Outcome
    ensures { result ≡ point_outcome point }
{
    point.into()
}
