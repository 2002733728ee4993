// The reader: a chart read into lent tables, or counted without any.
#![tactic(auto)]

mod answers;
mod counting;
mod reading;

pub use answers::{Answer, Room};
pub use counting::{count, count_in};
pub use reading::read;
