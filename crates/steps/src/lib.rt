// What a step of the collector does to one place, over any store. Each reads the cell, changes it and writes it back; the change as a closure would
// have to be promised as well, and would read no plainer.
#![tactic(auto)]

mod marks;
mod moves;
mod returns;

pub use marks::{clear_mark, mark_place};
pub use moves::{move_cell, update_cell};
pub use returns::return_place;
