// Values and cells, and the plain forms in which memory keeps them.
#![tactic(auto)]

mod cells;
mod numbers;
mod records;

pub use cells::{Cell, Kind, Value};
pub use numbers::{number_of, pattern_of};
pub use records::{CellRecord, PlainValue};
