// Begin: a cycle starts.
ghost use Rattle.std.specs.Prelude.{◌≡◌};
ghost use Rattle.model.specs.Heap.{Done, view};
ghost use Rattle.model.specs.Steps.{begin};

use model::{Phase, Refusal, Registers, Top};
use store::CellStore;

// Starts a cycle in which cells move if `moving` is 1. `top` and `s` are there for the contract, which speaks of the whole heap.
pub fn begin<S: CellStore>(
    top: &Top,
    regs: &mut Registers,
    s: &S,
    moving: u8,
) -> Result<(), Refusal>
    ensures { ◌≡◌ {A = Done (Unit {0})} (record { says = result; heap = view top.now regs.new (S.meaning s.now) }) (begin moving (view top.now regs.old (S.meaning s.now))) }
{
    if moving > 1 {
        return Err(Refusal::OutOfRange);
    }
    let Phase::Rest = regs.phase else {
        return Err(Refusal::CycleRuns);
    };
    regs.phase = Phase::Mark {
        root: 0,
        slot: 0,
        moving: moving == 1,
    };
    Ok(())
}
