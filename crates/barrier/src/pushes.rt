// The list takes a value.
ghost use Rattle.std.specs.Prelude.{◌≡◌};
ghost use Rattle.model.specs.Calls.{push};
ghost use Rattle.model.specs.Heap.{Done, view};

use crate::normal::normalise;
use crate::offers::offer;
use model::{Refusal, Registers, Top};
use store::CellStore;
use values::Value;

// Pushes a value, normalised, and offers it.
pub fn push_value<S: CellStore>(
    top: &mut Top,
    regs: &mut Registers,
    s: &mut S,
    v: Value,
) -> Result<(), Refusal>
    ensures { ◌≡◌ {A = Done (Unit {0})} (record { says = result; heap = view top.new regs.new (S.meaning s.new) }) (push v (view top.old regs.old (S.meaning s.old))) }
{
    let normal = normalise(s, v);
    stack::push(&mut regs.list, &mut top.height, normal).map_err(|_| Refusal::ListFull)?;
    offer(top, regs, s, normal);
    Ok(())
}
