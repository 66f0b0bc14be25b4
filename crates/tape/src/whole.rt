// All records of a tape.
ghost use Rattle.std.specs.Prelude.{◌≡◌, ◌+◌, ◌^◌, ◌<◌, length, IfOk};
ghost use Rattle.tape.specs.Law.{Law};
ghost use Rattle.tape.specs.Whole.{whole_of, read_from, read_whole};

use crate::faults::TapeFault;
use crate::reader::next;
use crate::records::Record;
use crate::rest::Rest;
use std::alloc::{AllocError, Global};

// A record, and the place of its first byte.
#[derive(Clone, Copy, Debug, PartialEq, Eq)]
pub struct Placed<'a> {
    pub place: usize,
    pub record: Record<'a>,
}

// The whole records of a tape, in order, and the fault at which the reading stopped, if it did before the end.
#[derive(Drop)]
pub struct Reading<'a> {
    pub records: Vec<Placed<'a>>,
    pub fault: Option<TapeFault<'a>>,
}

// Reads a tape whose first byte has this place, until it ends or a fault stops the reading. By `next`, which hands the rest back, as a rule of the
// project has it: an iterator would keep it, and the fault with it.
// Not by a `Rest`: that the bytes of a slice in a struct are below 256, which the law needs, is not known.
fn read_from<'a>(heap: Global, tape: &'a [u8], place: usize) -> Result<Reading<'a>, AllocError>
    requires { place + length tape.now < 2 ^ 64 }
    ensures read { IfOk result (λ x. whole_of x ≡ read_from tape.now place) }
    ensures law { IfOk result (λ x. Law place tape.now (whole_of x)) }
{
    let mut records = Vec::new(heap);
    let mut rest = Rest { tape, place };
    let fault = 'reading: loop {
        match next(rest) {
            Ok(Some(taken)) => {
                records.push(Placed {
                    place: rest.place,
                    record: taken.record,
                })?;
                rest = taken.rest;
            }
            Ok(None) => break None,
            Err(fault) => break Some(fault),
        }
    };
    Ok(Reading { records, fault })
}

// Reads a tape from its start. The records, written out again and followed by the unread part, are the tape.
pub fn read_all<'a>(heap: Global, tape: &'a [u8]) -> Result<Reading<'a>, AllocError>
    ensures read { IfOk result (λ x. whole_of x ≡ read_whole tape.now) }
    ensures law { IfOk result (λ x. Law 0 tape.now (whole_of x)) }
{
    read_from(heap, tape, 0)
}
