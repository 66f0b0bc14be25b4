// A record that was played, and what became of it.
ghost use Rattle.std.specs.Prelude.{◌≡◌};
ghost use Rattle.player.specs.Outcomes.{answer_of};

use crate::faults::{PlayFault, RefusedCall};
use model::{Answer, Refusal};
use tape::Placed;

// A call is granted with its answer, or refused; a note is only passed on, and has no outcome.
pub type Outcome = Option<Result<Answer, Refusal>>;

// A record, its place on the tape, and its outcome.
#[derive(Clone, Copy)]
pub struct Played<'a> {
    pub placed: Placed<'a>,
    pub outcome: Outcome,
}

impl<'a> Played<'a> {
    // What the record's call was answered, nothing for a note; a refusal is a fault. A match, since of a closure that takes along what borrows a
    // tape, as one for `map_err`, it is not known what it returns.
    pub fn answer(self) -> Result<Option<Answer>, PlayFault<'a>>
        ensures { result ≡ answer_of self.entry }
    {
        let placed = self.placed;
        match self.outcome.transpose() {
            Ok(answer) => Ok(answer),
            Err(refusal) => Err(RefusedCall { placed, refusal }.into()),
        }
    }
}
