// What a step answers.
ghost use Rattle.std.specs.Prelude.{◌≡◌, Ok};
ghost use Rattle.model.specs.Answers.{name_of};

use model::{Refusal, Registers, Stepped};

// The answer of a step that left these registers.
pub(crate) fn done(regs: &Registers, returned: bool) -> Result<Stepped, Refusal>
    ensures { result ≡ Ok (record { phase = name_of regs.now.phase; returned = returned }) }
{
    Ok(Stepped {
        phase: regs.phase.into(),
        returned,
    })
}
