// The two calls that go over every place: the opening, and the census.
#![tactic(auto)]

mod counts;
mod opening;

pub use counts::census;
pub use opening::{Opened, open};
