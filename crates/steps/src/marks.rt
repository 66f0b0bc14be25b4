// The mark of a place, set and cleared.
ghost use Rattle.std.specs.Prelude.{◌≡◌};
ghost use Rattle.model.specs.Heap.{cell_in, cells_with};
ghost use Rattle.model.specs.Words.{marked, unmarked};

use barrier::{read_place, write_place};
use store::CellStore;
use values::Value;

// The place no longer waits, and is accessible; answers its components, which are to be offered.
pub fn mark_place<S: CellStore>(s: &mut S, place: u32) -> [Value; 2]
    ensures value { result ≡ (cell_in (S.meaning s.old) place).parts }
    ensures cells { S.meaning s.new ≡ cells_with (S.meaning s.old) place (marked (cell_in (S.meaning s.old) place)) }
{
    let mut cell = read_place(s, place);
    cell.waiting = false;
    cell.mark = true;
    write_place(s, place, cell);
    cell.parts
}

pub fn clear_mark<S: CellStore>(s: &mut S, place: u32)
    ensures { S.meaning s.new ≡ cells_with (S.meaning s.old) place (unmarked (cell_in (S.meaning s.old) place)) }
{
    let mut cell = read_place(s, place);
    cell.mark = false;
    write_place(s, place, cell);
}
