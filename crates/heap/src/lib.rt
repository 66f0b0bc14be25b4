// The heap: every call as one function, and runs of calls, which obey the law.
// The list's height, the other registers and the store are taken apart, as a rule of the project has it: the height is to be lent alone.
// Each contract says its own rule's answer and the whole heap that is left, in one equation: a word for it would hide that both are compared.
#![tactic(auto)]

mod every;
mod runs;

pub use every::perform;
pub use runs::run;
