// A run: a heap is opened over a store, and the calls of a log are made of it.
ghost use Rattle.heap.specs.Runs.{Ran};

use crate::every::perform;
use model::Event;
use scan::{Opened, open};
use store::CellStore;

// Opens a heap over a store, whatever its cells hold, makes the calls of the log in order, and writes each answer beside its call.
pub fn run<S: CellStore>(s: &mut S, log: &mut [Event])
    ensures { Ran (S.meaning s.old) (S.meaning s.new) log.old log.new }
{
    let Opened { mut top, mut regs } = open(s);
    for event in log.iter_mut() {
        event.answer = perform(&mut top, &mut regs, s, event.call);
    }
}
