// Offer: while the collector marks, a plain place that comes up waits on the collector stack.
ghost use Rattle.std.specs.Prelude.{◌≡◌};
ghost use Rattle.model.specs.Heap.{view};
ghost use Rattle.model.specs.Words.{offered, offered_all};

use crate::access::{places, read_place, write_place};
use model::{Phase, Registers, Top};
use store::CellStore;
use values::{Cell, Kind, Value};

// Offers a value; a full collector stack takes no more. `top` is there for the contract, which speaks of the whole heap.
pub fn offer<S: CellStore>(top: &Top, regs: &mut Registers, s: &mut S, v: Value)
    ensures { view top.now regs.new (S.meaning s.new) ≡ offered v (view top.now regs.old (S.meaning s.old)) }
{
    let Phase::Mark { .. } = regs.phase else {
        return;
    };
    let Value::Cell(place) = v else {
        return;
    };
    if place >= places(s) {
        return;
    }
    let cell = read_place(s, place);
    if cell.kind() != Kind::Plain || cell.waiting {
        return;
    }
    if stack::push(&mut regs.pending, &mut regs.pending_height, place as u16).is_ok() {
        let waiting = Cell {
            waiting: true,
            ..cell
        };
        write_place(s, place, waiting);
    }
}

// Offers all components of a cell, the first one first.
pub fn offer_all<S: CellStore>(top: &Top, regs: &mut Registers, s: &mut S, parts: [Value; 2])
    ensures { view top.now regs.new (S.meaning s.new) ≡ offered_all parts (view top.now regs.old (S.meaning s.old)) }
{
    for part in parts {
        offer(top, regs, s, part);
    }
}
