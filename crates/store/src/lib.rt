// The cell store: what the heap asks of the memory that holds its cells.
#![tactic(auto)]

ghost use Rattle.std.specs.Prelude.{◌≡◌, List, length, get_or, set};
ghost use Rattle.values.specs.Cells.{blank};
ghost use Rattle.values.specs.declared.cells.Cell.{Cell as CellT};

use values::Cell;

// A store means a list of cells of fixed length. None of its calls refuses.
pub trait CellStore {
    ghost meaning: { Self → List CellT };

    // The number of cells.
    fn count(&self) -> usize
        ensures { result ≡ length (meaning self.now) };

    // The cell at a place; blank where the place is not below the count.
    // A store may rearrange itself to answer, and means the same afterwards.
    fn read(&mut self, place: u32) -> Cell
        ensures value { result ≡ get_or (meaning self.old) place blank }
        ensures same { meaning self.new ≡ meaning self.old };

    // Replaces the cell at a place and no other; a place not below the count changes nothing.
    fn write(&mut self, place: u32, cell: Cell)
        ensures { meaning self.new ≡ set (meaning self.old) place cell };
}
