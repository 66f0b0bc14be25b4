// Makes a run of calls on a heap of 4,096 cells, to count what a call costs.
// Standard input says which: 't' or 'p' for the store or 'n' for no run at all, 'l' or 's' for list calls or whole cycles, and then a byte for each round.
#![tactic(auto)]

mod rounds;

use fresh::StoreKind;
use std::io;

// How much of its input it takes.
const LIMIT: usize = 1_024;

// 4,096 cells.
const GROUPS: u16 = 512;

// What a run is of: a closed list, matched once.
enum Work {
    ListCalls,
    Cycles,
}

// The store that a letter asks for, a table where it names none; 'n' asks for no run.
fn store_of(letter: u8) -> Option<StoreKind> {
    match letter {
        b'n' => None,
        letter => Some(StoreKind::try_from(letter).unwrap_or(StoreKind::Table)),
    }
}

fn main(rt: HostRuntime) -> io::Result<()> {
    let input = input::read::<LIMIT>(&rt)?;
    let (store, work, rounds) = match input.as_slice() {
        [store, b's', rounds @ ..] => (store_of(*store), Work::Cycles, rounds.len()),
        [store, _, rounds @ ..] => (store_of(*store), Work::ListCalls, rounds.len()),
        _ => (Some(StoreKind::Table), Work::ListCalls, 0),
    };
    let mut log = match work {
        Work::ListCalls => rounds::list_calls(rt.alloc(), rounds)?,
        Work::Cycles => rounds::cycles(rt.alloc(), rounds)?,
    };
    if let Some(kind) = store {
        kind.run(rt.alloc(), GROUPS, log.as_mut_slice())?;
    }
    let calls = log.len();
    println!(rt; "{calls} calls")
}
