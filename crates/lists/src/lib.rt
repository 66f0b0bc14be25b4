// The calls on the list and the roots, over any store. Each contract is the call's rule in the model: its
// answer and the whole heap that is left, in one equation, since a word for it would hide that both are compared.
// A call takes the list's height, the other registers and the store apart, as a rule of the project has it: the height is to be lent alone.
#![tactic(auto)]

mod pops;
mod pushes;
mod questions;

pub use pops::{pdlput, popitem, store};
pub use pushes::{load, nil, number, pdlget};
pub use questions::{identical, look};
