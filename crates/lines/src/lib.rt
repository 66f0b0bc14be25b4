// The lines that a played tape is printed as, and the programs' main function.
#![tactic(auto)]

mod faults;
mod granted;
mod listing;

pub use faults::ProgramFault;
pub use granted::Line;
pub use listing::{list_tape, run};
