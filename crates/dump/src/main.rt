// Lists the records of the tape on standard input, one to a line.
#![tactic(auto)]

ghost use Rattle.std.specs.Io.KnownBytes.{Appends};
ghost use Rattle.std.specs.Prelude.{OnOk, Some};
ghost use Rattle.dump.specs.Lines.{fault_line, listing, record_line};

use input::read_tape;
use std::io::{BufWriter, Write};
use std::{fmt, io};
use tape::{Placed, Reading, TapeFault, read_all};

// A record's line: its place, the number and the name of its kind, and its argument.
#[derive(Clone, Copy)]
struct Line<'a>(Placed<'a>);

impl fmt::Display for Line<'_> {
    ghost output = { λ l. Some (record_line l.0) };

    fn fmt<W: fmt::Write>(&self, f: &mut fmt::Formatter<W>) -> fmt::Result {
        let Placed { place, record } = self.0;
        let kind = record.kind();
        write!(f, "{place} {kind} {record}")
    }
}

// A faulty record's line: its place, its first byte, and the number of the fault. Where a tape is played the line is of the player's report, which
// nothing here makes.
#[derive(Clone, Copy)]
struct BadLine<'a>(TapeFault<'a>);

impl fmt::Display for BadLine<'_> {
    ghost output = { λ l. Some (fault_line l.0) };

    fn fmt<W: fmt::Write>(&self, f: &mut fmt::Formatter<W>) -> fmt::Result {
        let place = self.0.rest.place;
        let kind = self.0.kind();
        let number = self.0.what.number();
        write!(f, "{place} {kind} bad {number}")
    }
}

fn list<W: Write>(out: &mut W, reading: &Reading<'_>) -> io::Result<()>
    ensures { OnOk result (Appends (W.contents out.old) (W.contents out.new) (listing reading.now)) }
{
    for placed in reading.records.iter() {
        let line = Line(*placed);
        writeln!(out, "{line}")?;
    }
    if let Some(fault) = reading.fault {
        let line = BadLine(fault);
        writeln!(out, "{line}")?;
    }
    let count = reading.records.len();
    writeln!(out, "end {count}")
}

fn main(rt: HostRuntime) -> io::Result<()> {
    let tape = read_tape(&rt)?;
    let reading = read_all(rt.alloc(), tape.as_slice())?;
    let mut out = BufWriter::new(rt.alloc(), rt.stdout())?;
    list(&mut out, &reading)?;
    out.flush()
}
