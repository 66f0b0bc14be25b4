// One record off the front of a tape, or a fault.
ghost use Rattle.std.specs.Prelude.{◌≡◌, ◌+◌, ◌*◌};
ghost use Rattle.tape.specs.Reading.{front, split_off, read, seen};

use crate::faults::{FaultKind, TapeFault};
use crate::records::Record;
use crate::rest::Rest;

// A record, and what is left after it.
#[derive(Clone, Copy, Debug, PartialEq, Eq)]
pub struct Taken<'a> {
    pub record: Record<'a>,
    pub rest: Rest<'a>,
}

// The number in four bytes, the most significant first; a function, to say by arithmetic what they mean.
fn big_endian(a: u8, b: u8, c: u8, d: u8) -> u32
    ensures { result ≡ a * 16777216 + b * 65536 + c * 256 + d }
{
    u32::from_be_bytes([a, b, c, d])
}

// Splits the first record off a tape; `None` where the tape is empty. Its kind is a number in a slice pattern, as a rule of the project has it.
#[tactic(auto, using(crate::proofs::Fronts::front_split, crate::proofs::Fronts::front_note))]
fn split_record<'a>(tape: &'a [u8]) -> Result<Option<(Record<'a>, &'a [u8])>, FaultKind>
    ensures { split_off result ≡ front tape.now }
{
    match tape {
        [] => Ok(None),
        [1, left @ ..] => Ok(Some((Record::Nil, left))),
        [2, a, b, c, d, left @ ..] => Ok(Some((Record::Number(big_endian(*a, *b, *c, *d)), left))),
        [3, root, left @ ..] => Ok(Some((Record::Load(*root), left))),
        [4, root, left @ ..] => Ok(Some((Record::Store(*root), left))),
        [5, left @ ..] => Ok(Some((Record::Create, left))),
        [6, part, left @ ..] => Ok(Some((Record::Select(*part), left))),
        [7, part, left @ ..] => Ok(Some((Record::Clobber(*part), left))),
        [8, left @ ..] => Ok(Some((Record::Identical, left))),
        [9, left @ ..] => Ok(Some((Record::Look, left))),
        [10, left @ ..] => Ok(Some((Record::Popitem, left))),
        [11, depth, left @ ..] => Ok(Some((Record::Pdlget(*depth), left))),
        [12, depth, left @ ..] => Ok(Some((Record::Pdlput(*depth), left))),
        [13, moves, left @ ..] => Ok(Some((Record::Begin(*moves), left))),
        [14, left @ ..] => Ok(Some((Record::Step, left))),
        [15, left @ ..] => Ok(Some((Record::Census, left))),
        [16, body @ ..] => {
            let (text, left) = body.split_first_chunk::<12>().ok_or(FaultKind::CutShort)?;
            Ok(Some((Record::Note(text), left)))
        }
        [1..=15, ..] => Err(FaultKind::CutShort),
        _ => Err(FaultKind::UnknownKind),
    }
}

// Takes the first record; `None` at the end of the tape. A match, since the borrow checker does not follow a closure that takes along what borrows the
// tape, as one for `map_err` would.
pub fn next<'a>(from: Rest<'a>) -> Result<Option<Taken<'a>>, TapeFault<'a>>
    ensures { seen result ≡ read from.entry.tape.now from.entry.place }
{
    match split_record(from.tape) {
        Ok(None) => Ok(None),
        Ok(Some((record, tape))) => {
            let size = from.tape.len().saturating_sub(tape.len());
            let place = from.place.saturating_add(size);
            Ok(Some(Taken {
                record,
                rest: Rest { tape, place },
            }))
        }
        Err(what) => Err(TapeFault { what, rest: from }),
    }
}
