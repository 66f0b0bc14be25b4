// The calls that a host can make of a heap.
ghost use Rattle.std.specs.Prelude.{◌≡◌};
ghost use Rattle.model.specs.Answers.{asked};

use crate::answers::{Answer, Refusal};

// The calls of a list script. A root, a component or a depth is any byte, as is begin's argument below and wherever a call takes one, since a call
// given a wrong one is refused and not impossible.
#[derive(Clone, Copy)]
pub enum ListCall {
    Nil,
    Number(f32),
    Load(u8),
    Store(u8),
    Create,
    Select(u8),
    Clobber(u8),
    Identical,
    Look,
    Popitem,
    Pdlget(u8),
    Pdlput(u8),
}

// Every call: a script's, and the host's own that drive the collector.
#[derive(Clone, Copy)]
pub enum Call {
    List(ListCall),
    Begin(u8),
    Step,
    Census,
}

// One entry of a heap's log: a call, and what it answered.
#[derive(Clone, Copy)]
pub struct Event {
    pub call: Call,
    pub answer: Result<Answer, Refusal>,
}

impl Event {
    // A call that is yet to be answered.
    pub fn asked(call: Call) -> Event
        ensures { result ≡ asked call }
    {
        Event {
            call,
            answer: Err(Refusal::AtRest),
        }
    }
}
