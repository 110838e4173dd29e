// The calls in C. The driver's three: a session is opened, takes replies, and tells how much is left; nothing
// is kept between them but the record. The modelled target's two: its state is handed in and back.
#![tactic(auto)]

use c2_session::Point;

mod advance;
mod left;
mod open;
mod target;

pub use advance::c2_advance;
pub use left::c2_steps_left;
pub use open::c2_open;
pub use target::{c2_target_fresh, c2_target_step};

#[derive(Clone, Copy)]
struct Ran {
    point: Point,
    taken: usize,
}
