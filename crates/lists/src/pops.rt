// The calls that pop one value.
ghost use Rattle.std.specs.Prelude.{◌≡◌};
ghost use Rattle.model.specs.Calls.{store, pdlput, popitem};
ghost use Rattle.model.specs.Heap.{Done, view};

use barrier::{normalise, offer};
use model::{Refusal, Registers, Top};
use store::CellStore;

// Pops a value into a root. The root is tested by its index: after a `get_mut` a proof knows none of the roots.
pub fn store<S: CellStore>(
    top: &mut Top,
    regs: &mut Registers,
    s: &mut S,
    root: u8,
) -> Result<(), Refusal>
    ensures { ◌≡◌ {A = Done (Unit {0})} (record { says = result; heap = view top.new regs.new (S.meaning s.new) }) (store root (view top.old regs.old (S.meaning s.old))) }
{
    if root as usize >= regs.roots.len() {
        return Err(Refusal::OutOfRange);
    }
    let v = stack::peek(&regs.list, top.height, 0).ok_or(Refusal::TooFew)?;
    let normal = normalise(s, v);
    stack::discard(&regs.list, &mut top.height, 1);
    regs.roots[root as usize] = normal;
    offer(top, regs, s, normal);
    Ok(())
}

// Pops a value into the slot that was `depth` below the top before; the top itself is no such slot.
pub fn pdlput<S: CellStore>(
    top: &mut Top,
    regs: &mut Registers,
    s: &mut S,
    depth: u8,
) -> Result<(), Refusal>
    ensures { ◌≡◌ {A = Done (Unit {0})} (record { says = result; heap = view top.new regs.new (S.meaning s.new) }) (pdlput depth (view top.old regs.old (S.meaning s.old))) }
{
    if depth == 0 {
        return Err(Refusal::OutOfRange);
    }
    let v = stack::peek(&regs.list, top.height, 0).ok_or(Refusal::TooFew)?;
    let normal = normalise(s, v);
    stack::replace(&mut regs.list, top.height, depth as usize, normal).ok_or(Refusal::TooFew)?;
    stack::discard(&regs.list, &mut top.height, 1);
    offer(top, regs, s, normal);
    Ok(())
}

// Drops the top value. `s` is there for the contract, which speaks of the whole heap.
pub fn popitem<S: CellStore>(top: &mut Top, regs: &Registers, s: &S) -> Result<(), Refusal>
    ensures { ◌≡◌ {A = Done (Unit {0})} (record { says = result; heap = view top.new regs.now (S.meaning s.now) }) (popitem (view top.old regs.now (S.meaning s.now))) }
{
    stack::pop(&regs.list, &mut top.height).ok_or(Refusal::TooFew)?;
    Ok(())
}
