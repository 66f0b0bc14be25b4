// The opening: every place becomes free, in rising order, whatever its cell held before.
ghost use Rattle.std.specs.Prelude.{◌≡◌, ◌<◌};
ghost use Rattle.model.specs.Heap.{view};
ghost use Rattle.model.specs.Steps.{free_cell, all_free, opened};

use barrier::{places, write_place};
use model::{FreeList, Phase, Registers, Top};
use store::CellStore;
use values::{Cell, Value};

// What a new heap keeps beside its cells.
#[derive(Drop)]
pub struct Opened {
    pub top: Top,
    pub regs: Registers,
}

// The free cell at a place below n, which names the next one.
fn free_cell(n: u32, place: u32) -> Cell
    requires { place < n }
    ensures { result ≡ free_cell n place }
{
    let next = place + 1;
    let first = if next < n {
        Value::Cell(next)
    } else {
        Value::Nil
    };
    Cell::free(first)
}

// The free list of all of n places.
fn all_free(n: u32) -> Option<FreeList>
    ensures { result ≡ all_free n }
{
    let last = n.checked_sub(1)?;
    Some(FreeList { first: 0, last })
}

// Opens a heap over a store, by its addresses, since no slice is there to go over. Cells past the places stay as they are.
#[tactic(auto, using(crate::proofs::Turns::fill_turn))]
pub fn open<S: CellStore>(s: &mut S) -> Opened
    ensures { view result.top result.regs (S.meaning s.new) ≡ opened 2 (S.meaning s.old) }
{
    let n = places(s);
    for place in 0..n {
        write_place(s, place, free_cell(n, place));
    }
    Opened {
        top: Top { height: 0 },
        regs: Registers {
            phase: Phase::Rest,
            roots: [Value::Nil; 16],
            list: [Value::Nil; 256],
            pending: [0; 4096],
            pending_height: 0,
            free: all_free(n),
        },
    }
}
