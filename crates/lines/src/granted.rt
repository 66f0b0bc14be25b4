// The line of a note, or of a call that was granted.
ghost use Rattle.std.specs.Prelude.{◌≡◌, Some};
ghost use Rattle.lines.specs.Lines.{line_of, line_text};

use crate::faults::ProgramFault;
use model::Answer;
use player::Played;
use std::fmt;
use tape::{Hexadecimal, Placed, Record};

// A record, its place, and what its call was answered, nothing for a note.
#[derive(Clone, Copy)]
pub struct Line<'a> {
    pub placed: Placed<'a>,
    pub answer: Option<Answer>,
}

// The line of a played record; a refusal is a fault.
impl<'a> TryFrom<Played<'a>> for Line<'a> {
    type Error = ProgramFault<'a>;

    ghost try_from_gives = { λ x r. r ≡ line_of x };

    fn try_from(played: Played<'a>) -> Result<Line<'a>, ProgramFault<'a>> {
        let answer = played.answer()?;
        Ok(Line {
            placed: played.placed,
            answer,
        })
    }
}

impl fmt::Display for Line<'_> {
    ghost output = { λ l. Some (line_text l) };

    fn fmt<W: fmt::Write>(&self, f: &mut fmt::Formatter<W>) -> fmt::Result {
        let Placed { place, record } = self.placed;
        let kind = record.kind();
        write!(f, "{place} {kind} ok")?;
        if let Record::Note(text) = record {
            let text = Hexadecimal(text);
            write!(f, " {text}")?;
        }
        match self.answer {
            None | Some(Answer::Done) => Ok(()),
            Some(answer) => write!(f, " {answer}"),
        }
    }
}
