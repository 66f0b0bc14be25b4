// Where the reading of a tape stands.
ghost use Rattle.std.specs.Prelude.{◌≡◌};

// The unread part of a tape, and the place of its first byte, which is how many bytes were before it.
#[derive(Clone, Copy, Debug, PartialEq, Eq)]
pub struct Rest<'a> {
    pub tape: &'a [u8],
    pub place: usize,
}

impl<'a> Rest<'a> {
    // A tape of which nothing has been read.
    pub fn start(tape: &'a [u8]) -> Rest<'a>
        ensures tape { result.tape ≡ tape.entry }
        ensures place { result.place ≡ 0 }
    {
        Rest { tape, place: 0 }
    }
}
