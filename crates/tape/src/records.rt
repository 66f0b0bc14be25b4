// The records of a tape, and the numbers and names of their kinds.
ghost use Rattle.std.specs.Prelude.{◌≡◌, Some};
ghost use Rattle.tape.specs.Format.{entry_of, kind};
ghost use Rattle.tape.specs.Printed.{hexadecimal, printed};

use std::fmt;

// A call, with its argument; or a note, whose text is a part of the tape. Arguments are the bytes that stand there: whether one is in range is for
// the heap to say.
#[derive(Clone, Copy, Debug, PartialEq, Eq)]
pub enum Record<'a> {
    Nil,
    Number(u32),
    Load(u8),
    Store(u8),
    Create,
    Select(u8),
    Clobber(u8),
    Identical,
    Look,
    Popitem,
    Pdlget(u8),
    Pdlput(u8),
    Begin(u8),
    Step,
    Census,
    Note(&'a [u8; 12]),
}

impl Record<'_> {
    // The number of a record's kind. By a match, since a case that has an argument has no number to be cast to.
    pub fn kind(self) -> u8
        ensures { result ≡ (kind (entry_of self.entry)).number }
    {
        match self {
            Record::Nil => 1,
            Record::Number(_) => 2,
            Record::Load(_) => 3,
            Record::Store(_) => 4,
            Record::Create => 5,
            Record::Select(_) => 6,
            Record::Clobber(_) => 7,
            Record::Identical => 8,
            Record::Look => 9,
            Record::Popitem => 10,
            Record::Pdlget(_) => 11,
            Record::Pdlput(_) => 12,
            Record::Begin(_) => 13,
            Record::Step => 14,
            Record::Census => 15,
            Record::Note(_) => 16,
        }
    }

    // The name of a record's kind.
    pub fn name(self) -> &'static str
        ensures { result.now ≡ (kind (entry_of self.entry)).name }
    {
        match self {
            Record::Nil => "nil",
            Record::Number(_) => "number",
            Record::Load(_) => "load",
            Record::Store(_) => "store",
            Record::Create => "create",
            Record::Select(_) => "select",
            Record::Clobber(_) => "clobber",
            Record::Identical => "identical",
            Record::Look => "look",
            Record::Popitem => "popitem",
            Record::Pdlget(_) => "pdlget",
            Record::Pdlput(_) => "pdlput",
            Record::Begin(_) => "begin",
            Record::Step => "step",
            Record::Census => "census",
            Record::Note(_) => "note",
        }
    }
}

// A record's name and its argument.
impl fmt::Display for Record<'_> {
    ghost output = { λ r. Some (printed (entry_of r)) };

    #[tactic(auto, using(std::proofs::lemmas::Grind::common_steps, crate::proofs::Printed::hex_word))]
    fn fmt<W: fmt::Write>(&self, f: &mut fmt::Formatter<W>) -> fmt::Result {
        let name = self.name();
        write!(f, "{name}")?;
        match *self {
            Record::Number(pattern) => write!(f, " {pattern:08x}"),
            Record::Load(n)
            | Record::Store(n)
            | Record::Select(n)
            | Record::Clobber(n)
            | Record::Pdlget(n)
            | Record::Pdlput(n)
            | Record::Begin(n) => write!(f, " {n}"),
            Record::Note(text) => {
                let text = Hexadecimal(text);
                write!(f, " {text}")
            }
            _ => Ok(()),
        }
    }
}

// Bytes that are printed by two hexadecimal digits each.
#[derive(Clone, Copy, Debug, PartialEq, Eq)]
pub struct Hexadecimal<'a>(pub &'a [u8]);

impl fmt::Display for Hexadecimal<'_> {
    ghost output = { λ bytes. Some (hexadecimal bytes.0.now) };

    #[tactic(auto, using(std::proofs::lemmas::Grind::common_steps, crate::proofs::Printed::byte_more))]
    fn fmt<W: fmt::Write>(&self, f: &mut fmt::Formatter<W>) -> fmt::Result {
        for &byte in self.0 {
            write!(f, "{byte:02x}")?;
        }
        Ok(())
    }
}
