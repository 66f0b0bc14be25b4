// Plays the tape on standard input on a heap over a table of 1,024 cells, and prints a line for each record.
#![tactic(auto)]

ghost use Rattle.std.specs.Prelude.{replicate, IfOk};
ghost use Rattle.values.specs.Cells.{blank};
ghost use Rattle.lines.specs.Listing.{ListedOver};

use lines::run;
use std::io;
use table::TableStore;
use values::{CellRecord, PlainValue};

// What a place of the table holds before the heap is opened. Written out: of records made by `From` the search did
// not find that they mean blank cells, and a proof by hand is longer.
const BLANK: CellRecord = CellRecord {
    mark: false,
    flag: false,
    waiting: false,
    parts: [PlainValue::Nil, PlainValue::Nil],
};

// `replay` has the same three lines over its own store: with no heap each array stands in its function, and `run` is what they share.
fn play_on_table(rt: &HostRuntime) -> io::Result<usize>
    ensures { IfOk result (λ n. ListedOver (replicate 1024 blank) n) }
{
    let mut cells = [BLANK; 1024];
    let mut store = TableStore { cells: &mut cells };
    run(rt, &mut store)
}

fn main(rt: HostRuntime) -> io::Result<()> {
    let _ = play_on_table(&rt)?;
    Ok(())
}
