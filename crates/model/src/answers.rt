// What a call answers, and why one is refused. The words that are printed are functions of their own, which cannot fail; printing may.
ghost use Rattle.std.specs.Prelude.{◌≡◌, Some};
ghost use Rattle.std.proofs.Common.{rules};
ghost use Rattle.model.specs.Answers.{number_of, name_of, same_look, phase_word, looked_word, same_word, looked_text, stepped_text, answer_text};
ghost use Rattle.model.specs.Calls.{looked};

use crate::registers::Phase;
use std::fmt;
use values::{Value, pattern_of};

// Why a call is refused; a refused call changes nothing.
#[derive(Clone, Copy, Debug, PartialEq, Eq)]
pub enum Refusal {
    OutOfRange = 1,
    TooFew = 2,
    ListFull = 3,
    NotACell = 4,
    NoSpace = 5,
    CycleRuns = 6,
    AtRest = 7,
}

impl Refusal {
    // The number under which it is reported.
    pub fn number(self) -> u8
        ensures { result ≡ number_of self }
    {
        self as u8
    }
}

// What a look tells of a value: its kind, and the number if it is one, never a place.
#[derive(Clone, Copy)]
pub enum Looked {
    Nil,
    Number(f32),
    Cell,
}

impl From<Value> for Looked {
    ghost from_gives = { λ v l. l ≡ looked v };

    fn from(v: Value) -> Looked {
        match v {
            Value::Nil => Looked::Nil,
            Value::Number(x) => Looked::Number(x),
            Value::Cell(_) => Looked::Cell,
        }
    }
}

// By hand, since numbers are the same by their patterns; a derive would compare them as floats. Answers are compared by it; values are compared by
// the call that asks whether two are the same, which compares places too.
impl PartialEq for Looked {
    ghost eq = { same_look };

    ghost laws = { Prim.search rules };

    fn eq(&self, other: &Looked) -> bool {
        match (self, other) {
            (Looked::Nil, Looked::Nil) | (Looked::Cell, Looked::Cell) => true,
            (Looked::Number(x), Looked::Number(y)) => pattern_of(*x) == pattern_of(*y),
            _ => false,
        }
    }
}

// The word by which a look's text begins.
pub fn looked_word(looked: Looked) -> &'static str
    ensures { result.now ≡ looked_word looked }
{
    match looked {
        Looked::Nil => "nil",
        Looked::Number(_) => "number",
        Looked::Cell => "cell",
    }
}

impl fmt::Display for Looked {
    ghost output = { λ l. Some (looked_text l) };

    fn fmt<W: fmt::Write>(&self, f: &mut fmt::Formatter<W>) -> fmt::Result {
        f.write_str(looked_word(*self))?;
        match self {
            Looked::Number(x) => {
                let pattern = pattern_of(*x);
                write!(f, " {pattern:08x}")
            }
            Looked::Nil | Looked::Cell => Ok(()),
        }
    }
}

#[derive(Clone, Copy, PartialEq, Eq)]
pub enum PhaseName {
    Rest,
    Mark,
    Relocate,
    Update,
    Reclaim,
}

impl From<Phase> for PhaseName {
    ghost from_gives = { λ p n. n ≡ name_of p };

    fn from(phase: Phase) -> PhaseName {
        match phase {
            Phase::Rest => PhaseName::Rest,
            Phase::Mark { .. } => PhaseName::Mark,
            Phase::Relocate { .. } => PhaseName::Relocate,
            Phase::Update { .. } => PhaseName::Update,
            Phase::Reclaim { .. } => PhaseName::Reclaim,
        }
    }
}

// The word by which a phase is printed.
pub fn phase_word(phase: PhaseName) -> &'static str
    ensures { result.now ≡ phase_word phase }
{
    match phase {
        PhaseName::Rest => "rest",
        PhaseName::Mark => "mark",
        PhaseName::Relocate => "relocate",
        PhaseName::Update => "update",
        PhaseName::Reclaim => "reclaim",
    }
}

impl fmt::Display for PhaseName {
    ghost output = { λ n. Some (phase_word n) };

    fn fmt<W: fmt::Write>(&self, f: &mut fmt::Formatter<W>) -> fmt::Result {
        f.write_str(phase_word(*self))
    }
}

// The phase after a step, and whether the step returned a place to the free list.
#[derive(Clone, Copy, PartialEq, Eq)]
pub struct Stepped {
    pub phase: PhaseName,
    pub returned: bool,
}

impl fmt::Display for Stepped {
    ghost output = { λ s. Some (stepped_text s) };

    fn fmt<W: fmt::Write>(&self, f: &mut fmt::Formatter<W>) -> fmt::Result {
        let phase = self.phase;
        let places = u8::from(self.returned);
        write!(f, "{phase} {places}")
    }
}

// What a granted call answers.
#[derive(Clone, Copy, PartialEq)]
pub enum Answer {
    Done,
    Same(bool),
    Look(Looked),
    Step(Stepped),
    Census(usize),
}

// The word that says whether two values are the same.
pub fn same_word(same: bool) -> &'static str
    ensures { result.now ≡ same_word same }
{
    if same { "yes" } else { "no" }
}

// A call that only does something has no text.
impl fmt::Display for Answer {
    ghost output = { λ a. Some (answer_text a) };

    fn fmt<W: fmt::Write>(&self, f: &mut fmt::Formatter<W>) -> fmt::Result {
        match self {
            Answer::Done => Ok(()),
            Answer::Same(same) => f.write_str(same_word(*same)),
            Answer::Look(looked) => write!(f, "{looked}"),
            Answer::Step(stepped) => write!(f, "{stepped}"),
            Answer::Census(count) => write!(f, "{count}"),
        }
    }
}
