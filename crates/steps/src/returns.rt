// A place returns to the free list.
ghost use Rattle.std.specs.Prelude.{◌≡◌, Some};
ghost use Rattle.model.specs.Heap.{memory, put};
ghost use Rattle.model.specs.Steps.{longer, linked};
ghost use Rattle.model.specs.Words.{last_free};

use barrier::{read_place, write_place};
use model::FreeList;
use store::CellStore;
use values::{Cell, Value};

// Makes a place free, at the end of the free list.
pub fn return_place<S: CellStore>(free: &mut Option<FreeList>, s: &mut S, place: u32)
    ensures ends { free.new ≡ Some (longer free.old place) }
    ensures cells { S.meaning s.new ≡ (linked free.old place (put (memory (S.meaning s.old)) place last_free)).cells }
{
    write_place(s, place, Cell::free(Value::Nil));
    match free {
        None => {
            *free = Some(FreeList {
                first: place,
                last: place,
            });
        }
        Some(ends) => {
            let mut cell = read_place(s, ends.last);
            cell.parts[0] = Value::Cell(place);
            write_place(s, ends.last, cell);
            ends.last = place;
        }
    }
}
