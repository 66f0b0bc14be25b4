// The player: makes the calls of a tape of a heap, and keeps what became of each record.
// The list's height, the other registers and the store are taken apart, as a rule of the project has it: the height is to be lent alone.
// Each contract says its own rule's answer and the whole heap that is left, in one equation: a word for it would hide that both are compared.
#![tactic(auto)]

mod calls;
mod faults;
mod outcomes;
mod plays;

pub use calls::call_of;
pub use faults::{PlayFault, RefusedCall, Report};
pub use outcomes::{Outcome, Played};
pub use plays::play;
