// The calls on cells and their components, over any store. Each contract is the call's rule in the model: its
// answer and the whole heap that is left, in one equation, since a word for it would hide that both are compared.
// A call takes the list's height, the other registers and the store apart, as a rule of the project has it: the height is to be lent alone.
#![tactic(auto)]

mod clobbers;
mod creates;
mod parts;
mod selects;

pub use clobbers::clobber;
pub use creates::create;
pub use selects::select;
