// The session that an opening begins.
#![tactic(auto)]

ghost use Rattle.std.specs.Prelude.{◌≡◌, cond, ◌/◌, ◌%◌, eqb};
ghost use Rattle.c2_opening.specs.Code.Started.{started};

use c2_session::Session;
use settings::Settings;

fn pages_in(bytes: usize, size: u32) -> u16
    ensures { result ≡ cond (eqb size 0) 0 (bytes / size % 65536) }
{
    if size == 0 {
        0
    } else {
        (bytes / (size as usize) % 65536) as u16
    }
}

// A session at its first step, for settings, first page and image length that opening accepts: their numbers
// fit. Any other numbers are kept to 16 bits.
#[tactic(auto, unfolding(crate::specs::Code::Started::started))]
pub fn start(t: Settings, first: u32, bytes: usize) -> Session
    ensures { result ≡ started t first bytes }
{
    Session {
        // Entries of pairs that are not named are 0.
        settings: Settings {
            pairs: settings::tidy(t.pairs),
            ..t
        },
        first: (first % 65536) as u16,
        pages: pages_in(bytes, t.size),
        point: Session::FIRST,
    }
}
