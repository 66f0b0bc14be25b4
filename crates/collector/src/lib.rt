// The collector: begin starts a cycle, and step goes on with it.
// Both take the list's height, the other registers and the store apart, as a rule of the project has it: the height is to be lent alone.
// Each contract says its own rule's answer and the whole heap that is left, in one equation: a word for it would hide that both are compared.
#![tactic(auto)]

mod answers;
mod begins;
mod stepping;

pub use begins::begin;
pub use stepping::step;
