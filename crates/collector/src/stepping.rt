// Step: the cycle goes on by one place, root or slot.
ghost use Rattle.std.specs.Prelude.{◌≡◌};
ghost use Rattle.model.specs.Heap.{Done, view};
ghost use Rattle.model.specs.Steps.{step};
ghost use Rattle.model.specs.declared.answers.Stepped.{Stepped as SteppedT};

use crate::answers::done;
use barrier::{normalise, offer, offer_all, places, read_place};
use model::{Phase, Refusal, Registers, Stepped, Top};
use steps::{clear_mark, mark_place, move_cell, return_place, update_cell};
use store::CellStore;
use values::Kind;

// Does the first thing of its phase that is left to do, by a match on the phase, as a rule of the project has it. The cursors stand in the registers,
// and are lent from there: one is moved on before a call that takes the registers whole.
pub fn step<S: CellStore>(top: &Top, regs: &mut Registers, s: &mut S) -> Result<Stepped, Refusal>
    ensures { ◌≡◌ {A = Done SteppedT} (record { says = result; heap = view top.now regs.new (S.meaning s.new) }) (step (view top.now regs.old (S.meaning s.old))) }
{
    match &mut regs.phase {
        Phase::Rest => Err(Refusal::AtRest),
        Phase::Mark { root, slot, moving } => {
            if let Some(place) = stack::pop(&regs.pending, &mut regs.pending_height) {
                let parts = mark_place(s, place as u32);
                offer_all(top, regs, s, parts);
            } else if let Some(v) = stack::item(&regs.roots, *root) {
                *root += 1;
                offer(top, regs, s, v);
            } else if let Some(entry) = stack::slot(&regs.list, top.height, *slot) {
                *slot += 1;
                offer(top, regs, s, entry);
            } else {
                regs.phase = if *moving {
                    let high = places(s);
                    Phase::Relocate { low: 0, high }
                } else {
                    Phase::Reclaim { sweep: 0 }
                };
            }
            done(regs, false)
        }
        Phase::Relocate { low, high } => {
            if *low >= *high {
                regs.phase = Phase::Update {
                    root: 0,
                    place: 0,
                    slot: 0,
                };
                return done(regs, false);
            }
            if read_place(s, *low).kind() != Kind::Plain {
                *low += 1;
                return done(regs, false);
            }
            *high -= 1;
            if read_place(s, *high).kind() == Kind::Accessible {
                move_cell(s, *high, *low);
                *low += 1;
            }
            done(regs, false)
        }
        Phase::Update { root, place, slot } => {
            if let Some(v) = stack::item(&regs.roots, *root) {
                regs.roots[*root] = normalise(s, v);
                *root += 1;
            } else if *place < places(s) {
                update_cell(s, *place);
                *place += 1;
            } else if let Some(entry) = stack::slot(&regs.list, top.height, *slot) {
                let normal = normalise(s, entry);
                stack::replace_slot(&mut regs.list, top.height, *slot, normal);
                *slot += 1;
            } else {
                regs.phase = Phase::Reclaim { sweep: 0 };
            }
            done(regs, false)
        }
        Phase::Reclaim { sweep } => {
            let place = *sweep;
            if place >= places(s) {
                regs.phase = Phase::Rest;
                return done(regs, false);
            }
            *sweep += 1;
            match read_place(s, place).kind() {
                Kind::Plain | Kind::Moved => {
                    return_place(&mut regs.free, s, place);
                    return done(regs, true);
                }
                Kind::Accessible => clear_mark(s, place),
                Kind::Free => {}
            }
            done(regs, false)
        }
    }
}
