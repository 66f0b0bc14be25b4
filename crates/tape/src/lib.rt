// The tape: its records, the reader that takes them off one by one, and the faults that end the reading.
#![tactic(auto)]

mod faults;
mod reader;
mod records;
mod rest;
mod whole;

pub use faults::{FaultKind, Layer, TapeFault};
pub use reader::{Taken, next};
pub use records::{Hexadecimal, Record};
pub use rest::Rest;
pub use whole::{Placed, Reading, read_all};
