// Select: a cell gives way to one of its components.
ghost use Rattle.std.specs.Prelude.{◌≡◌};
ghost use Rattle.model.specs.Calls.{select};
ghost use Rattle.model.specs.Heap.{Done, view};

use crate::parts::index_of;
use barrier::{normalise, offer, read_place};
use model::{Refusal, Registers, Top};
use store::CellStore;
use values::Value;

// Pops a cell and pushes its component, counted from 1.
pub fn select<S: CellStore>(
    top: &mut Top,
    regs: &mut Registers,
    s: &mut S,
    component: u8,
) -> Result<(), Refusal>
    ensures { ◌≡◌ {A = Done (Unit {0})} (record { says = result; heap = view top.new regs.new (S.meaning s.new) }) (select component (view top.old regs.old (S.meaning s.old))) }
{
    let index = index_of(component)?;
    let v = stack::peek(&regs.list, top.height, 0).ok_or(Refusal::TooFew)?;
    let Value::Cell(place) = normalise(s, v) else {
        return Err(Refusal::NotACell);
    };
    let cell = read_place(s, place);
    let part = normalise(s, cell.parts[index]);
    stack::replace(&mut regs.list, top.height, 0, part);
    offer(top, regs, s, part);
    Ok(())
}
