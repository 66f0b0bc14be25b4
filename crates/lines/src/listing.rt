// Plays a tape and writes a line for each record.
ghost use Rattle.std.specs.Io.KnownBytes.{Appends};
ghost use Rattle.std.specs.Prelude.{◌≡◌, true, is_some, IfOk, OnOk};
ghost use Rattle.lines.specs.Listing.{EndsInProgram, Listed, ListedOver, ListedSome, ListedWithin, PlayedSome, Prints, StopsAsRead};
ghost use Rattle.lines.specs.Lines.{fault_lines, played_lines};
ghost use Rattle.player.specs.Plays.{Plays};

use crate::faults::{FaultLine, ProgramFault};
use crate::granted::Line;
use input::read_tape;
use player::{Played, play};
use std::alloc::{AllocError, Global};
use std::io;
use std::io::{BufWriter, Write};
use store::CellStore;

// The line of a faulty record. Want of memory has no line, and ends the program.
fn write_fault<W: Write>(out: &mut W, fault: ProgramFault<'_>) -> io::Result<()>
    ensures reported { OnOk result (is_some fault.entry.report ≡ true) }
    ensures written { OnOk result (Appends (W.contents out.old) (W.contents out.new) (fault_lines fault.entry.report)) }
{
    let line = fault.report.map(FaultLine).ok_or(AllocError)?;
    writeln!(out, "{line}")
}

fn write_played<W: Write>(out: &mut W, played: &[Played<'_>]) -> io::Result<()>
    ensures { OnOk result (Appends (W.contents out.old) (W.contents out.new) (played_lines played.now)) }
{
    for one in played {
        match Line::try_from(*one) {
            Ok(line) => writeln!(out, "{line}")?,
            Err(fault) => write_fault(out, fault)?,
        }
    }
    Ok(())
}

// Plays a tape on a heap over a store; the fault that stops it is the program's.
fn play_tape<'a, S: CellStore>(
    s: &mut S,
    tape: &'a [u8],
    played: &mut Vec<Played<'a>>,
) -> Result<usize, ProgramFault<'a>>
    ensures ends { EndsInProgram tape.now played.new.items result }
    ensures stops { StopsAsRead tape.now result }
    ensures law { Plays (S.meaning s.old) (S.meaning s.new) played.new.items }
{
    Ok(play(s, tape, played)?)
}

// Plays a tape on a heap over a store, writes a line for each record and one with the number of whole records, and answers that number.
pub fn list_tape<W: Write, S: CellStore>(
    heap: Global,
    out: &mut W,
    s: &mut S,
    tape: &[u8],
) -> io::Result<usize>
    ensures listed { IfOk result (λ n. Listed tape.now (S.meaning s.old) (S.meaning s.new) n) }
    ensures prints { IfOk result (λ n. Prints tape.now (S.meaning s.old) (S.meaning s.new) (W.contents out.old) (W.contents out.new) n) }
    ensures law { PlayedSome (S.meaning s.old) (S.meaning s.new) }
{
    let mut played = Vec::new(heap);
    let stopped = play_tape(s, tape, &mut played);
    write_played(out, played.as_slice())?;
    if let Err(fault) = stopped {
        write_fault(out, fault)?;
    }
    let count = played.len();
    writeln!(out, "end {count}")?;
    Ok(count)
}

// Lists the tape that is the beginning of standard input.
pub fn run<S: CellStore>(rt: &HostRuntime, s: &mut S) -> io::Result<usize>
    ensures listed { IfOk result (λ n. ListedSome (S.meaning s.old) (S.meaning s.new) n) }
    ensures within { IfOk result (λ n. ListedWithin (S.meaning s.old) (S.meaning s.new) n) }
    ensures over { IfOk result (λ n. ListedOver (S.meaning s.old) n) }
{
    let tape = read_tape(rt)?;
    let mut out = BufWriter::new(rt.alloc(), rt.stdout())?;
    let records = list_tape(rt.alloc(), &mut out, s, tape.as_slice())?;
    out.flush()?;
    Ok(records)
}
