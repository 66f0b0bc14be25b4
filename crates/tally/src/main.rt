// Makes the calls of a tape on a heap, to count what a call costs, and prints how many there were and how many were granted.
// Standard input begins with two letters: the store, 't' for a table, 'p' for a packed store or 'n' where no call is to be made; and
// its size, 's' for 64 cells or 'l' for 4,096. The tape follows.
#![tactic(auto)]

mod calls;

use fresh::StoreKind;
use std::io;

// How much of its input it takes.
const LIMIT: usize = 1_048_576;

// The groups of eight cells of a small store and of a large one.
const SMALL: u16 = 8;

const LARGE: u16 = 512;

fn main(rt: HostRuntime) -> io::Result<()> {
    let input = input::read::<LIMIT>(&rt)?;
    let (store, groups, tape) = match input.as_slice() {
        [store, b'l', tape @ ..] => (StoreKind::try_from(*store).ok(), LARGE, tape),
        [store, _, tape @ ..] => (StoreKind::try_from(*store).ok(), SMALL, tape),
        tape => (None, SMALL, tape),
    };
    let mut log = calls::log_of(rt.alloc(), tape)?;
    if let Some(kind) = store {
        kind.run(rt.alloc(), groups, log.as_mut_slice())?;
    }
    let made = log.len();
    let granted = calls::granted(log.as_slice());
    println!(rt; "{made} calls, {granted} granted")
}
