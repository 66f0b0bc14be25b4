// The calls of a tape, as a log.
ghost use Rattle.std.specs.Prelude.{◌≡◌, IfOk};
ghost use Rattle.tally.specs.Calls.{calls_on, granted_in};

use model::Event;
use player::call_of;
use std::alloc::{AllocError, Global};
use tape::read_all;

// A log of the tape's calls, whose answers are yet to be given.
pub fn log_of(heap: Global, tape: &[u8]) -> Result<Vec<Event>, AllocError>
    ensures { IfOk result (λ log. log.items ≡ calls_on tape.now) }
{
    let reading = read_all(heap, tape)?;
    reading
        .records
        .iter()
        .filter_map(|placed| call_of(placed.record))
        .map(Event::asked)
        .collect(heap)
}

// How many calls of a log were granted.
pub fn granted(log: &[Event]) -> usize
    ensures { result ≡ granted_in log.now }
{
    log.iter().filter(|event| event.answer.is_ok()).count()
}
