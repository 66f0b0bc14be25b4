// Every call with its answer, as one function over any store.
// The calls are a closed list: a match over them says all, and a table of functions would hide which takes what.
ghost use Rattle.std.specs.Prelude.{◌≡◌};
ghost use Rattle.model.specs.Every.{call, list_call};
ghost use Rattle.model.specs.Heap.{Done, view};
ghost use Rattle.model.specs.declared.answers.Answer.{Answer as AnswerT};

use model::{Answer, Call, ListCall, Refusal, Registers, Top};
use store::CellStore;

// Makes a call of a list script.
fn perform_list<S: CellStore>(
    top: &mut Top,
    regs: &mut Registers,
    s: &mut S,
    asked: ListCall,
) -> Result<Answer, Refusal>
    ensures { ◌≡◌ {A = Done AnswerT} (record { says = result; heap = view top.new regs.new (S.meaning s.new) }) (list_call asked (view top.old regs.old (S.meaning s.old))) }
{
    match asked {
        ListCall::Nil => lists::nil(top, regs, s)?,
        ListCall::Number(x) => lists::number(top, regs, s, x)?,
        ListCall::Load(root) => lists::load(top, regs, s, root)?,
        ListCall::Store(root) => lists::store(top, regs, s, root)?,
        ListCall::Create => components::create(top, regs, s)?,
        ListCall::Select(component) => components::select(top, regs, s, component)?,
        ListCall::Clobber(component) => components::clobber(top, regs, s, component)?,
        ListCall::Identical => return Ok(Answer::Same(lists::identical(top, regs, s)?)),
        ListCall::Look => return Ok(Answer::Look(lists::look(top, regs, s)?)),
        ListCall::Popitem => lists::popitem(top, regs, s)?,
        ListCall::Pdlget(depth) => lists::pdlget(top, regs, s, depth)?,
        ListCall::Pdlput(depth) => lists::pdlput(top, regs, s, depth)?,
    }
    Ok(Answer::Done)
}

// Makes a call.
pub fn perform<S: CellStore>(
    top: &mut Top,
    regs: &mut Registers,
    s: &mut S,
    asked: Call,
) -> Result<Answer, Refusal>
    ensures { ◌≡◌ {A = Done AnswerT} (record { says = result; heap = view top.new regs.new (S.meaning s.new) }) (call asked (view top.old regs.old (S.meaning s.old))) }
{
    match asked {
        Call::List(listed) => perform_list(top, regs, s, listed),
        Call::Begin(moving) => {
            collector::begin(top, regs, s, moving)?;
            Ok(Answer::Done)
        }
        Call::Step => Ok(Answer::Step(collector::step(top, regs, s)?)),
        Call::Census => Ok(Answer::Census(scan::census(s))),
    }
}
