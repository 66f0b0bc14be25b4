// Runs worked sessions over both stores, compares each answer with the one expected, and prints what it did.
#![tactic(auto)]

mod compare;
mod scripts;

use compare::first_difference;
use fresh::StoreKind;
use model::Event;
use scripts::Session;
use std::io;

fn told(rt: &HostRuntime, kind: StoreKind, log: &[Event], session: &Session) -> io::Result<()> {
    let calls = log.len();
    match first_difference(log, session.events.as_slice()) {
        None => println!(rt; "  {kind}: {calls} calls answered as expected"),
        Some(at) => println!(rt; "  {kind}: call {at} of {calls} answered otherwise"),
    }
}

fn main(rt: HostRuntime) -> io::Result<()> {
    let heap = rt.alloc();
    let sessions = scripts::all(heap)?;
    for session in sessions.iter() {
        let name = session.name;
        let places = u32::from(session.groups) * 8;
        println!(rt; "{name}, over {places} cells")?;
        for kind in [StoreKind::Table, StoreKind::Packed] {
            let mut log = session.unanswered(heap)?;
            kind.run(heap, session.groups, log.as_mut_slice())?;
            told(&rt, kind, log.as_slice(), session)?;
        }
    }
    Ok(())
}
