// Answers compared, numbers by their patterns.
ghost use Rattle.std.specs.Prelude.{◌↔◌, IsTrue};
ghost use Rattle.sessions.specs.Compare.{IsFirstDifference, SameResult};

use model::Event;

fn is_as_expected(given: &Event, wanted: &Event) -> bool
    ensures { IsTrue result ↔ SameResult given.now.answer wanted.now.answer }
{
    given.answer == wanted.answer
}

// The first call that was answered otherwise than expected, as far as both logs go.
pub fn first_difference(log: &[Event], expected: &[Event]) -> Option<usize>
    ensures { IsFirstDifference log.now expected.now result }
{
    log.iter()
        .zip(expected)
        .position(|(given, wanted)| !is_as_expected(given, wanted))
}
