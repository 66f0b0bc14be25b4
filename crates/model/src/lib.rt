// The heap's registers, its calls and their answers; specs/ has the rules.
#![tactic(auto)]

mod answers;
mod calls;
mod registers;

pub use answers::{
    Answer, Looked, PhaseName, Refusal, Stepped, looked_word, phase_word, same_word,
};
pub use calls::{Call, Event, ListCall};
pub use registers::{FreeList, Phase, Registers, Top};
