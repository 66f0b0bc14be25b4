// A cell moves, and the components that name moved cells follow.
ghost use Rattle.std.specs.Prelude.{◌≡◌};
ghost use Rattle.model.specs.Heap.{memory, cell_in};
ghost use Rattle.model.specs.Steps.{moved, updated};
ghost use Rattle.values.specs.Cells.{kind};

use barrier::{normalise_all, read_place, write_place};
use store::CellStore;
use values::{Kind, Value};

// Copies a cell to another place, and leaves behind where it went.
pub fn move_cell<S: CellStore>(s: &mut S, from: u32, to: u32)
    ensures { S.meaning s.new ≡ (moved from to (memory (S.meaning s.old))).cells }
{
    let mut cell = read_place(s, from);
    write_place(s, to, cell);
    cell.mark = false;
    cell.flag = true;
    cell.parts[0] = Value::Cell(to);
    write_place(s, from, cell);
}

// Normalises the components of a place, if it is accessible.
pub fn update_cell<S: CellStore>(s: &mut S, place: u32)
    ensures { S.meaning s.new ≡ (updated (kind (cell_in (S.meaning s.old) place)) place (memory (S.meaning s.old))).cells }
{
    let mut cell = read_place(s, place);
    if cell.kind() == Kind::Accessible {
        cell.parts = normalise_all(s, cell.parts);
        write_place(s, place, cell);
    }
}
