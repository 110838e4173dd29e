// The points of a job: which there are, and the point after a reply.
#![tactic(auto)]

mod ending;
mod fits;
mod next;

pub use fits::{PointOf, point_fits, point_of};
pub use next::{next_page, point_after};
