// Why the reading of a tape stopped before its end.
ghost use Rattle.std.specs.Prelude.{◌≡◌};
ghost use Rattle.tape.specs.Faults.{fault_number};
ghost use Rattle.tape.specs.Format.{first};

use crate::rest::Rest;

// The layer that raised a fault.
#[derive(Clone, Copy, Debug, PartialEq, Eq)]
pub enum Layer {
    Tape,
    Heap,
}

// What is wrong with a record: its first byte is the number of no kind, or the tape ends before the record does.
#[derive(Clone, Copy, Debug, PartialEq, Eq)]
pub enum FaultKind {
    UnknownKind = 8,
    CutShort = 9,
}

impl FaultKind {
    // The number by which the fault is reported.
    pub fn number(self) -> u8
        ensures { result ≡ fault_number self }
    {
        self as u8
    }
}

// What is wrong, and the unread part of the tape, which begins with the faulty record.
#[derive(Clone, Copy, Debug, PartialEq, Eq)]
pub struct TapeFault<'a> {
    pub what: FaultKind,
    pub rest: Rest<'a>,
}

impl TapeFault<'_> {
    pub fn layer(self) -> Layer
        ensures { result ≡ Layer.Tape }
    {
        Layer::Tape
    }

    // The byte that stands where the faulty record has the number of its kind.
    pub fn kind(self) -> u8
        ensures { result ≡ first self.entry.rest.tape.now }
    {
        self.rest.tape.first().copied().unwrap_or(0)
    }
}
