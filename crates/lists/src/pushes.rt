// The calls that push one value.
ghost use Rattle.std.specs.Prelude.{◌≡◌};
ghost use Rattle.model.specs.Calls.{nil, number, load, pdlget};
ghost use Rattle.model.specs.Heap.{Done, view};

use barrier::push_value;
use model::{Refusal, Registers, Top};
use store::CellStore;
use values::Value;

// Pushes nil.
pub fn nil<S: CellStore>(top: &mut Top, regs: &mut Registers, s: &mut S) -> Result<(), Refusal>
    ensures { ◌≡◌ {A = Done (Unit {0})} (record { says = result; heap = view top.new regs.new (S.meaning s.new) }) (nil (view top.old regs.old (S.meaning s.old))) }
{
    push_value(top, regs, s, Value::Nil)
}

// Pushes a number.
pub fn number<S: CellStore>(
    top: &mut Top,
    regs: &mut Registers,
    s: &mut S,
    x: f32,
) -> Result<(), Refusal>
    ensures { ◌≡◌ {A = Done (Unit {0})} (record { says = result; heap = view top.new regs.new (S.meaning s.new) }) (number x (view top.old regs.old (S.meaning s.old))) }
{
    push_value(top, regs, s, Value::Number(x))
}

// Pushes the value of a root.
pub fn load<S: CellStore>(
    top: &mut Top,
    regs: &mut Registers,
    s: &mut S,
    root: u8,
) -> Result<(), Refusal>
    ensures { ◌≡◌ {A = Done (Unit {0})} (record { says = result; heap = view top.new regs.new (S.meaning s.new) }) (load root (view top.old regs.old (S.meaning s.old))) }
{
    let rooted = stack::item(&regs.roots, root as usize).ok_or(Refusal::OutOfRange)?;
    push_value(top, regs, s, rooted)
}

// Pushes a copy of the value at `depth` below the top.
pub fn pdlget<S: CellStore>(
    top: &mut Top,
    regs: &mut Registers,
    s: &mut S,
    depth: u8,
) -> Result<(), Refusal>
    ensures { ◌≡◌ {A = Done (Unit {0})} (record { says = result; heap = view top.new regs.new (S.meaning s.new) }) (pdlget depth (view top.old regs.old (S.meaning s.old))) }
{
    let v = stack::peek(&regs.list, top.height, depth as usize).ok_or(Refusal::TooFew)?;
    push_value(top, regs, s, v)
}
