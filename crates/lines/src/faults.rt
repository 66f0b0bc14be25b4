// What stops a program, or stands in the line of a record in place of its answer.
ghost use Rattle.std.specs.Prelude.{◌≡◌, Some};
ghost use Rattle.lines.specs.Lines.{in_program, layer_word, report_text};

use player::{PlayFault, Report};
use std::fmt;
use tape::Layer;

// The player's fault, whole, and how it is reported; want of memory is not.
#[derive(Clone, Copy, Debug, PartialEq, Eq)]
pub struct ProgramFault<'a> {
    pub report: Option<Report>,
    pub cause: PlayFault<'a>,
}

impl<'a> From<PlayFault<'a>> for ProgramFault<'a> {
    ghost from_gives = { λ f r. r ≡ in_program f };

    fn from(cause: PlayFault<'a>) -> ProgramFault<'a> {
        let report = cause.report();
        ProgramFault { report, cause }
    }
}

// The line of a faulty record, or of one whose call was refused.
#[derive(Clone, Copy, Debug, PartialEq, Eq)]
pub struct FaultLine(pub Report);

impl fmt::Display for FaultLine {
    ghost output = { λ l. Some (report_text l.0) };

    fn fmt<W: fmt::Write>(&self, f: &mut fmt::Formatter<W>) -> fmt::Result {
        let Report {
            number,
            place,
            kind,
            layer,
        } = self.0;
        let word = layer_word(layer);
        write!(f, "{place} {kind} {word} {number}")
    }
}

// The word that stands before a fault's number in a line. A function, since it is a word of the line and no name of the layer.
pub fn layer_word(layer: Layer) -> &'static str
    ensures { result.now ≡ layer_word layer }
{
    match layer {
        Layer::Tape => "bad",
        Layer::Heap => "no",
    }
}
