// The runs: calls whose answers are yet to be given.
use model::{Call, Event, ListCall};
use std::alloc::{AllocError, Global};
use std::iter::repeat_n;

// Twenty list calls, one of them a create.
const ROUND: [ListCall; 20] = [
    ListCall::Nil,
    ListCall::Load(0),
    ListCall::Create,
    ListCall::Store(0),
    ListCall::Load(0),
    ListCall::Select(1),
    ListCall::Popitem,
    ListCall::Load(0),
    ListCall::Number(2.0),
    ListCall::Clobber(1),
    ListCall::Load(0),
    ListCall::Look,
    ListCall::Load(0),
    ListCall::Identical,
    ListCall::Load(0),
    ListCall::Nil,
    ListCall::Pdlget(1),
    ListCall::Pdlput(1),
    ListCall::Popitem,
    ListCall::Popitem,
];

// A cell that is dropped, and one that is put before the chain in root 0.
const PAIR: [ListCall; 8] = [
    ListCall::Nil,
    ListCall::Nil,
    ListCall::Create,
    ListCall::Popitem,
    ListCall::Nil,
    ListCall::Load(0),
    ListCall::Create,
    ListCall::Store(0),
];

// A cycle takes fewer steps than this; those after it are refused.
const STEPS: usize = 14_000;

fn ask_all(log: &mut Vec<Event>, calls: &[ListCall]) -> Result<(), AllocError> {
    log.extend(calls.iter().map(|call| Event::asked(Call::List(*call))))?;
    Ok(())
}

// So many rounds of list calls. Room for all is made first: a log that grows takes up to twice what it needs.
pub fn list_calls(heap: Global, rounds: usize) -> Result<Vec<Event>, AllocError> {
    let mut log = Vec::new(heap);
    log.reserve(rounds.saturating_mul(ROUND.len()))?;
    for _ in 0..rounds {
        ask_all(&mut log, &ROUND)?;
    }
    Ok(log)
}

// A chain of 1,024 cells among as many that are dropped, and then so many moving cycles.
pub fn cycles(heap: Global, rounds: usize) -> Result<Vec<Event>, AllocError> {
    let mut log = Vec::new(heap);
    for _ in 0..1024 {
        ask_all(&mut log, &PAIR)?;
    }
    for _ in 0..rounds {
        log.push(Event::asked(Call::Begin(1)))?;
        log.extend(repeat_n(Event::asked(Call::Step), STEPS))?;
    }
    Ok(log)
}
