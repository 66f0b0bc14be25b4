// The packed store: cells in the caller's bytes, eight to each whole group of 83.
// The bytes after the last whole group are never touched; fewer than 83 bytes hold no cell.
#![tactic(auto)]

mod bits;
mod groups;
mod words;

ghost use Rattle.std.specs.Prelude.{◌≡◌, slice_index_or, slice_set};
ghost use Rattle.values.specs.Cells.{blank};
ghost use Rattle.packed.specs.Groups.{cells_in, spare, written};

use groups::{cell_count, read_cell, write_cell};
use store::CellStore;
use values::Cell;

#[derive(Drop)]
pub struct PackedStore<'a> {
    pub bytes: &'a mut [u8],
}

impl PackedStore<'_> {
    // What is read, by a call that can change nothing.
    #[tactic(auto, using(crate::proofs::Cells::cell_in, crate::proofs::Cells::cell_past))]
    fn cell(&self, place: u32) -> Cell
        ensures { result ≡ slice_index_or (cells_in self.now.bytes.now) place blank }
    {
        if place as usize >= cell_count(self.bytes.len()) {
            return Cell::blank();
        }
        read_cell(self.bytes, place)
    }
}

impl CellStore for PackedStore<'_> {
    ghost meaning = { λ s. cells_in s.bytes.now };

    #[tactic(auto, using(crate::proofs::Cells::length_cells))]
    fn count(&self) -> usize {
        cell_count(self.bytes.len())
    }

    // Beyond the trait: no byte changes. `tied` says that the store holds the same bytes of its lender.
    fn read(&mut self, place: u32) -> Cell
        ensures value { result ≡ slice_index_or (cells_in self.old.bytes.now) place blank }
        ensures same { cells_in self.new.bytes.now ≡ cells_in self.old.bytes.now }
        ensures exact { self.new.bytes.now ≡ self.old.bytes.now }
        ensures tied { self.new.bytes.ghost_name ≡ self.old.bytes.ghost_name }
    {
        self.cell(place)
    }

    // Beyond the trait: every byte is fixed, and those after the last whole group stay.
    #[tactic(auto, using(crate::proofs::Cells::cells_kept, crate::proofs::Cells::cells_with, crate::proofs::Cells::spare_with))]
    fn write(&mut self, place: u32, cell: Cell)
        ensures cells { cells_in self.new.bytes.now ≡ slice_set (cells_in self.old.bytes.now) place cell }
        ensures exact { self.new.bytes.now ≡ written self.old.bytes.now place cell }
        ensures rest { spare self.new.bytes.now ≡ spare self.old.bytes.now }
        ensures tied { self.new.bytes.ghost_name ≡ self.old.bytes.ghost_name }
    {
        if (place as usize) < cell_count(self.bytes.len()) {
            write_cell(self.bytes, place, cell);
        }
    }
}
