// Plays the tape on standard input as `play` does, on a heap over a packed store of 40 cells.
#![tactic(auto)]

ghost use Rattle.std.specs.Prelude.{replicate, IfOk};
ghost use Rattle.values.specs.Cells.{blank};
ghost use Rattle.lines.specs.Listing.{ListedOver};

use lines::run;
use packed::PackedStore;
use std::io;

// Five groups of eight cells.
const BYTES: usize = 5 * 83;

// `play` has the same three lines over its own store: with no heap each array stands in its function, and `run` is what they share.
fn play_on_bytes(rt: &HostRuntime) -> io::Result<usize>
    ensures { IfOk result (λ n. ListedOver (replicate 40 blank) n) }
{
    let mut bytes = [0; BYTES];
    let mut store = PackedStore { bytes: &mut bytes };
    run(rt, &mut store)
}

fn main(rt: HostRuntime) -> io::Result<()> {
    let _ = play_on_bytes(&rt)?;
    Ok(())
}
