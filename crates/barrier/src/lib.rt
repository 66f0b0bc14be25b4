// The heap's access to its places, and its two words, normalise and offer, over any store.
// The list's height, the other registers and the store are taken apart, as a rule of the project has it: the height is to be lent alone.
// Each contract says its own rule's answer and the whole heap that is left, in one equation: a word for it would hide that both are compared.
#![tactic(auto)]

mod access;
mod normal;
mod offers;
mod pushes;

pub use access::{places, read_place, write_place};
pub use normal::{normalise, normalise_all};
pub use offers::{offer, offer_all};
pub use pushes::push_value;
