// Why a tape was not played to its end, or a record's call not granted.
ghost use Rattle.std.specs.Prelude.{◌≡◌};
ghost use Rattle.player.specs.Faults.{of_heap, of_reader, of_memory, report_of};

use model::Refusal;
use std::alloc::AllocError;
use tape::{Layer, Placed, TapeFault};

// A call that the heap refused, with the record that asked for it and the record's place.
#[derive(Clone, Copy, Debug, PartialEq, Eq)]
pub struct RefusedCall<'a> {
    pub placed: Placed<'a>,
    pub refusal: Refusal,
}

// The reader's fault, whole; a refused call; or want of memory for what was played.
#[derive(Clone, Copy, Debug, PartialEq, Eq)]
pub enum PlayFault<'a> {
    Tape(TapeFault<'a>),
    Heap(RefusedCall<'a>),
    NoMemory,
}

// How a fault is reported: its number, the place and the first byte of the record, and the layer that raised it. Numbers, since they are what is
// printed, and the first byte of a faulty record may be the number of no kind; the fault itself is kept beside it.
#[derive(Clone, Copy, Debug, PartialEq, Eq)]
pub struct Report {
    pub number: u8,
    pub place: usize,
    pub kind: u8,
    pub layer: Layer,
}

impl PlayFault<'_> {
    // Want of memory has no number, and is not reported.
    pub fn report(self) -> Option<Report>
        ensures { result ≡ report_of self.entry }
    {
        match self {
            PlayFault::Tape(fault) => Some(Report {
                number: fault.what.number(),
                place: fault.rest.place,
                kind: fault.kind(),
                layer: fault.layer(),
            }),
            PlayFault::Heap(call) => Some(Report {
                number: call.refusal.number(),
                place: call.placed.place,
                kind: call.placed.record.kind(),
                layer: Layer::Heap,
            }),
            PlayFault::NoMemory => None,
        }
    }
}

impl<'a> From<TapeFault<'a>> for PlayFault<'a> {
    ghost from_gives = { λ f r. r ≡ of_reader f };

    fn from(fault: TapeFault<'a>) -> PlayFault<'a> {
        Self::Tape(fault)
    }
}

impl<'a> From<RefusedCall<'a>> for PlayFault<'a> {
    ghost from_gives = { λ c r. r ≡ of_heap c };

    fn from(call: RefusedCall<'a>) -> PlayFault<'a> {
        Self::Heap(call)
    }
}

impl<'a> From<AllocError> for PlayFault<'a> {
    ghost from_gives = { λ _ r. r ≡ of_memory };

    fn from(_: AllocError) -> PlayFault<'a> {
        Self::NoMemory
    }
}
