// The sessions: calls with the answers expected of them.
ghost use Rattle.std.specs.Prelude.{◌≡◌, map, IfOk};
ghost use Rattle.model.specs.Answers.{asked};
ghost use Rattle.model.specs.declared.calls.Event.{Event as EventT};

use model::{Answer, Call, Event, ListCall, Looked, PhaseName, Refusal, Stepped};
use std::alloc::{AllocError, Global};
use values::number_of;

// A session over so many groups of eight cells.
#[derive(Drop)]
pub struct Session {
    pub name: &'static str,
    pub groups: u16,
    pub events: Vec<Event>,
}

impl Session {
    fn new(heap: Global, name: &'static str, groups: u16) -> Session {
        Session {
            name,
            groups,
            events: Vec::new(heap),
        }
    }

    // Its calls, whose answers are yet to be given.
    pub fn unanswered(&self, heap: Global) -> Result<Vec<Event>, AllocError>
        ensures { IfOk result (λ log. log.items ≡ map (λ (e : EventT). asked e.call) self.now.events.items) }
    {
        self.events
            .iter()
            .map(|event| Event::asked(event.call))
            .collect(heap)
    }

    fn expect(&mut self, call: Call, answer: Result<Answer, Refusal>) -> Result<(), AllocError> {
        self.events.push(Event { call, answer })?;
        Ok(())
    }

    fn grants(&mut self, call: ListCall) -> Result<(), AllocError> {
        self.expect(Call::List(call), Ok(Answer::Done))
    }

    fn refuses(&mut self, call: ListCall, refusal: Refusal) -> Result<(), AllocError> {
        self.expect(Call::List(call), Err(refusal))
    }

    fn looks(&mut self, looked: Looked) -> Result<(), AllocError> {
        self.expect(Call::List(ListCall::Look), Ok(Answer::Look(looked)))
    }

    fn pushes(&mut self, pattern: u32) -> Result<(), AllocError> {
        self.grants(ListCall::Number(number_of(pattern)))
    }

    fn looks_number(&mut self, pattern: u32) -> Result<(), AllocError> {
        self.looks(Looked::Number(number_of(pattern)))
    }

    fn begins(&mut self, moving: u8) -> Result<(), AllocError> {
        self.expect(Call::Begin(moving), Ok(Answer::Done))
    }

    fn counts(&mut self, cells: usize) -> Result<(), AllocError> {
        self.expect(Call::Census, Ok(Answer::Census(cells)))
    }

    // So many steps that answer this.
    fn stepping(&mut self, count: u32, stepped: Stepped) -> Result<(), AllocError> {
        for _ in 0..count {
            self.expect(Call::Step, Ok(Answer::Step(stepped)))?;
        }
        Ok(())
    }

    // So many steps that answer this phase and return no place.
    fn steps(&mut self, count: u32, phase: PhaseName) -> Result<(), AllocError> {
        self.stepping(
            count,
            Stepped {
                phase,
                returned: false,
            },
        )
    }

    // So many steps of the sweep, each of which returns a place.
    fn returns(&mut self, count: u32) -> Result<(), AllocError> {
        self.stepping(
            count,
            Stepped {
                phase: PhaseName::Reclaim,
                returned: true,
            },
        )
    }

    // The chain in root 3 begins with this number, and goes on in the second component.
    fn takes_number(&mut self, pattern: u32) -> Result<(), AllocError> {
        self.grants(ListCall::Load(3))?;
        self.grants(ListCall::Select(1))?;
        self.looks_number(pattern)?;
        self.grants(ListCall::Popitem)?;
        self.grants(ListCall::Load(3))?;
        self.grants(ListCall::Select(2))?;
        self.grants(ListCall::Store(3))
    }

    // A cell of two nils on top of the list.
    fn makes_pair(&mut self) -> Result<(), AllocError> {
        self.grants(ListCall::Nil)?;
        self.grants(ListCall::Nil)?;
        self.grants(ListCall::Create)
    }
}

// The list takes 256 values and no more.
fn full_list(heap: Global) -> Result<Session, AllocError> {
    let mut s = Session::new(heap, "the 257th value", 0);
    for _ in 0..256 {
        s.grants(ListCall::Nil)?;
    }
    let on_a_full_list = [
        (ListCall::Nil, Refusal::ListFull),
        (ListCall::Number(number_of(0)), Refusal::ListFull),
        (ListCall::Load(0), Refusal::ListFull),
        (ListCall::Pdlget(255), Refusal::ListFull),
        (ListCall::Create, Refusal::NoSpace),
    ];
    for (call, refusal) in on_a_full_list {
        s.refuses(call, refusal)?;
    }
    s.grants(ListCall::Popitem)?;
    s.grants(ListCall::Pdlget(254))?;
    s.refuses(ListCall::Nil, Refusal::ListFull)?;
    Ok(s)
}

// Each call's refusals, the lowest number where several fit.
fn refusals(heap: Global) -> Result<Session, AllocError> {
    let mut s = Session::new(heap, "refusals", 1);
    let on_an_empty_list = [
        (ListCall::Load(16), Refusal::OutOfRange),
        (ListCall::Store(16), Refusal::OutOfRange),
        (ListCall::Store(15), Refusal::TooFew),
        (ListCall::Create, Refusal::TooFew),
        (ListCall::Select(0), Refusal::OutOfRange),
        (ListCall::Select(1), Refusal::TooFew),
        (ListCall::Clobber(3), Refusal::OutOfRange),
        (ListCall::Clobber(2), Refusal::TooFew),
        (ListCall::Identical, Refusal::TooFew),
        (ListCall::Look, Refusal::TooFew),
        (ListCall::Popitem, Refusal::TooFew),
        (ListCall::Pdlget(0), Refusal::TooFew),
        (ListCall::Pdlput(0), Refusal::OutOfRange),
        (ListCall::Pdlput(1), Refusal::TooFew),
    ];
    for (call, refusal) in on_an_empty_list {
        s.refuses(call, refusal)?;
    }
    let on_one_nil = [
        (ListCall::Select(2), Refusal::NotACell),
        (ListCall::Pdlput(1), Refusal::TooFew),
        (ListCall::Create, Refusal::TooFew),
    ];
    s.grants(ListCall::Nil)?;
    for (call, refusal) in on_one_nil {
        s.refuses(call, refusal)?;
    }
    s.expect(Call::Step, Err(Refusal::AtRest))?;
    s.expect(Call::Begin(2), Err(Refusal::OutOfRange))?;
    s.begins(0)?;
    s.expect(Call::Begin(0), Err(Refusal::CycleRuns))?;
    s.expect(Call::Begin(2), Err(Refusal::OutOfRange))?;
    s.counts(0)?;
    Ok(s)
}

// Numbers come back to the bit, and what is not a number as one value.
fn numbers(heap: Global) -> Result<Session, AllocError> {
    let mut s = Session::new(heap, "numbers to the bit", 2);
    let patterns = [
        (0x0000_0000, 0x0000_0000),
        (0x8000_0000, 0x8000_0000),
        (0x0000_0001, 0x0000_0001),
        (0x3f80_0000, 0x3f80_0000),
        (0x7f7f_ffff, 0x7f7f_ffff),
        (0x7f80_0000, 0x7f80_0000),
        (0xff80_0000, 0xff80_0000),
        (0x7f80_0001, 0x7fc0_0000),
        (0xffff_ffff, 0x7fc0_0000),
    ];
    for (written, read) in patterns {
        s.grants(ListCall::Nil)?;
        s.pushes(written)?;
        s.grants(ListCall::Create)?;
        s.grants(ListCall::Select(2))?;
        s.looks_number(read)?;
    }
    s.counts(9)?;
    Ok(s)
}

// A store of more than 4,096 cells is used up to there, and a cycle empties it.
fn many_cells(heap: Global) -> Result<Session, AllocError> {
    let mut s = Session::new(heap, "more cells than the heap takes", 513);
    for _ in 0..4096 {
        s.makes_pair()?;
        s.grants(ListCall::Popitem)?;
    }
    s.grants(ListCall::Nil)?;
    s.grants(ListCall::Nil)?;
    s.refuses(ListCall::Create, Refusal::NoSpace)?;
    s.counts(4096)?;
    s.begins(0)?;
    s.steps(18, PhaseName::Mark)?;
    s.steps(1, PhaseName::Reclaim)?;
    s.returns(4096)?;
    s.steps(1, PhaseName::Rest)?;
    s.counts(0)?;
    s.grants(ListCall::Create)?;
    s.counts(1)?;
    Ok(s)
}

// A chain of 512 numbered cells among as many that are dropped, moved together by a cycle and read back.
fn moved_chain(heap: Global) -> Result<Session, AllocError> {
    let mut s = Session::new(heap, "a chain moved together", 128);
    for i in 0..512 {
        s.makes_pair()?;
        s.grants(ListCall::Popitem)?;
        s.pushes(i)?;
        s.grants(ListCall::Load(3))?;
        s.grants(ListCall::Create)?;
        s.grants(ListCall::Store(3))?;
    }
    s.counts(1024)?;
    s.begins(1)?;
    // Marking: sixteen roots and 512 cells. Relocating: the dropped cells lie at the even places.
    s.steps(528, PhaseName::Mark)?;
    s.steps(769, PhaseName::Relocate)?;
    s.steps(1041, PhaseName::Update)?;
    s.steps(513, PhaseName::Reclaim)?;
    s.returns(512)?;
    s.steps(1, PhaseName::Rest)?;
    s.counts(512)?;
    for i in (0..512).rev() {
        s.takes_number(i)?;
    }
    s.grants(ListCall::Load(3))?;
    s.looks(Looked::Nil)?;
    Ok(s)
}

// Copies within the list.
fn depths(heap: Global) -> Result<Session, AllocError> {
    let mut s = Session::new(heap, "depths of the list", 0);
    for pattern in 1..4 {
        s.pushes(pattern)?;
    }
    s.grants(ListCall::Pdlget(2))?;
    s.looks_number(1)?;
    s.grants(ListCall::Pdlput(1))?;
    s.looks_number(1)?;
    s.grants(ListCall::Popitem)?;
    s.looks_number(2)?;
    s.grants(ListCall::Pdlget(1))?;
    s.expect(Call::List(ListCall::Identical), Ok(Answer::Same(false)))?;
    s.grants(ListCall::Pdlget(0))?;
    s.expect(Call::List(ListCall::Identical), Ok(Answer::Same(true)))?;
    s.refuses(ListCall::Look, Refusal::TooFew)?;
    Ok(s)
}

// Every session.
pub fn all(heap: Global) -> Result<Vec<Session>, AllocError> {
    Ok(vec![in heap;
        full_list(heap)?,
        refusals(heap)?,
        numbers(heap)?,
        many_cells(heap)?,
        moved_chain(heap)?,
        depths(heap)?,
    ]?)
}
