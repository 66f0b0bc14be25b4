// The table store: cells in the caller's table of plain records.
#![tactic(auto)]

ghost use Rattle.std.specs.Prelude.{◌≡◌, map, slice_index_or, slice_set};
ghost use Rattle.values.specs.Cells.{blank};
ghost use Rattle.values.specs.Records.{meant_cell, plain_cell};

use store::CellStore;
use values::{Cell, CellRecord};

#[derive(Drop)]
pub struct TableStore<'a> {
    pub cells: &'a mut [CellRecord],
}

impl TableStore<'_> {
    // What is read, by a call that can change nothing. A place past the end is blank.
    fn cell(&self, place: u32) -> Cell
        ensures { result ≡ slice_index_or (map meant_cell self.now.cells.now) place blank }
    {
        self.cells
            .get(place as usize)
            .map_or(Cell::blank(), |kept| Cell::from(*kept))
    }
}

impl CellStore for TableStore<'_> {
    ghost meaning = { λ s. map meant_cell s.cells.now };

    fn count(&self) -> usize {
        self.cells.len()
    }

    // Beyond the trait: no record changes. `tied` says that the store holds the same records of its lender.
    fn read(&mut self, place: u32) -> Cell
        ensures value { result ≡ slice_index_or (map meant_cell self.old.cells.now) place blank }
        ensures same { map meant_cell self.new.cells.now ≡ map meant_cell self.old.cells.now }
        ensures exact { self.new.cells.now ≡ self.old.cells.now }
        ensures tied { self.new.cells.ghost_name ≡ self.old.cells.ghost_name }
    {
        self.cell(place)
    }

    // Beyond the trait: the record at the place is the cell's plain form, and the others stay.
    #[tactic(auto, using(crate::proofs::Written::cells_written))]
    fn write(&mut self, place: u32, cell: Cell)
        ensures cells { map meant_cell self.new.cells.now ≡ slice_set (map meant_cell self.old.cells.now) place cell }
        ensures exact { self.new.cells.now ≡ slice_set self.old.cells.now place (plain_cell cell) }
        ensures tied { self.new.cells.ghost_name ≡ self.old.cells.ghost_name }
    {
        // Not by `get_mut`: of a slice that it lent from, a proof knows no element afterwards.
        let at = place as usize;
        if at < self.cells.len() {
            self.cells[at] = cell.into();
        }
    }
}
