// Clobber: a component of a cell is written.
ghost use Rattle.std.specs.Prelude.{◌≡◌};
ghost use Rattle.model.specs.Calls.{clobber};
ghost use Rattle.model.specs.Heap.{Done, view};

use crate::parts::index_of;
use barrier::{normalise, offer, read_place, write_place};
use model::{Refusal, Registers, Top};
use store::CellStore;
use values::Value;

// Pops a value, then a cell, and writes the value as the component, counted from 1.
pub fn clobber<S: CellStore>(
    top: &mut Top,
    regs: &mut Registers,
    s: &mut S,
    component: u8,
) -> Result<(), Refusal>
    ensures { ◌≡◌ {A = Done (Unit {0})} (record { says = result; heap = view top.new regs.new (S.meaning s.new) }) (clobber component (view top.old regs.old (S.meaning s.old))) }
{
    let index = index_of(component)?;
    let two = stack::last_two(&regs.list, top.height).ok_or(Refusal::TooFew)?;
    let Value::Cell(place) = normalise(s, two[0]) else {
        return Err(Refusal::NotACell);
    };
    let part = normalise(s, two[1]);
    stack::discard(&regs.list, &mut top.height, 2);
    // The offer may set the waiting bit of this very cell, so the cell is read after it.
    offer(top, regs, s, part);
    let mut cell = read_place(s, place);
    cell.parts[index] = part;
    write_place(s, place, cell);
    Ok(())
}
