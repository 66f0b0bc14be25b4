// Plays a tape on a heap, from the heap's opening.
ghost use Rattle.std.specs.Prelude.{◌≡◌};
ghost use Rattle.model.specs.Heap.{view};
ghost use Rattle.player.specs.Calls.{call_of};
ghost use Rattle.player.specs.Outcomes.{Turn, turn_of};
ghost use Rattle.player.specs.Plays.{Ends, Plays};
ghost use Rattle.tape.specs.Format.{entry_of};

use crate::calls::call_of;
use crate::faults::PlayFault;
use crate::outcomes::{Outcome, Played};
use heap::perform;
use model::{Registers, Top};
use scan::{Opened, open};
use store::CellStore;
use tape::{Placed, Record, Rest, next};

// Plays one record.
fn play_record<S: CellStore>(
    top: &mut Top,
    regs: &mut Registers,
    s: &mut S,
    record: Record<'_>,
) -> Outcome
    ensures { ◌≡◌ {A = Turn} (record { outcome = result; heap = view top.new regs.new (S.meaning s.new) }) (turn_of (call_of (entry_of «record».entry)) (view top.old regs.old (S.meaning s.old))) }
{
    let call = call_of(record)?;
    Some(perform(top, regs, s, call))
}

// Opens a heap over a store, whatever its cells hold, and plays the tape's records in order; a refused call stops nothing.
// Afterwards `played` has the records that were played, and no others. Room for a record is made before it is played, so that no call is made
// of which nothing is kept. The records are taken by `next`, which hands the rest back, as a rule of the project has it.
#[tactic(auto, using(std::proofs::lemmas::Grind::common_steps, crate::proofs::Turns::came_lawful))]
pub fn play<'a, S: CellStore>(
    s: &mut S,
    tape: &'a [u8],
    played: &mut Vec<Played<'a>>,
) -> Result<usize, PlayFault<'a>>
    ensures ends { Ends tape.now played.new.items result }
    ensures law { Plays (S.meaning s.old) (S.meaning s.new) played.new.items }
{
    played.clear();
    let Opened { mut top, mut regs } = open(s);
    let mut rest = Rest::start(tape);
    while let Some(taken) = next(rest)? {
        played.reserve(1)?;
        let outcome = play_record(&mut top, &mut regs, s, taken.record);
        played.push_reserved(Played {
            placed: Placed {
                place: rest.place,
                record: taken.record,
            },
            outcome,
        });
        rest = taken.rest;
    }
    Ok(played.len())
}
