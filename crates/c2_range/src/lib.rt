// Which sessions are within their ranges (document 01, "What the driver keeps over sleep").
#![tactic(auto)]

mod bounds;
mod range;

pub use range::{ended_in_range, opening_in_range, running_in_range};
