// One message to the modelled radio module, which is lent its flash and a buffer for the reply. Its state is
// a struct of plain numbers, handed in and back by value; nothing else is kept between messages.
#![tactic(auto)]

mod messages;
mod points;
mod steps;

pub use steps::{fresh, step};
