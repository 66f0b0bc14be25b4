// The call that a record asks for.
ghost use Rattle.std.specs.Prelude.{◌≡◌};
ghost use Rattle.player.specs.Calls.{call_of};
ghost use Rattle.tape.specs.Format.{entry_of};

use model::{Call, ListCall};
use tape::Record;
use values::number_of;

// The call of a record; a note asks for none. A function, since neither type is this crate's, and a note is no error. The two enums are nearly alike by
// a rule of the project: a record has a number's pattern and borrows a note from the tape, a call has the number.
pub fn call_of(record: Record<'_>) -> Option<Call>
    ensures { result ≡ call_of (entry_of «record».entry) }
{
    let call = match record {
        Record::Nil => ListCall::Nil,
        Record::Number(pattern) => ListCall::Number(number_of(pattern)),
        Record::Load(root) => ListCall::Load(root),
        Record::Store(root) => ListCall::Store(root),
        Record::Create => ListCall::Create,
        Record::Select(component) => ListCall::Select(component),
        Record::Clobber(component) => ListCall::Clobber(component),
        Record::Identical => ListCall::Identical,
        Record::Look => ListCall::Look,
        Record::Popitem => ListCall::Popitem,
        Record::Pdlget(depth) => ListCall::Pdlget(depth),
        Record::Pdlput(depth) => ListCall::Pdlput(depth),
        Record::Begin(moving) => return Some(Call::Begin(moving)),
        Record::Step => return Some(Call::Step),
        Record::Census => return Some(Call::Census),
        Record::Note(_) => return None,
    };
    Some(Call::List(call))
}
