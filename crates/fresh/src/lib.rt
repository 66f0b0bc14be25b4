// A heap over a new store, of either kind.
#![tactic(auto)]

ghost use Rattle.std.specs.Prelude.{◌≡◌, ◌*◌, MatchResult, Some};
ghost use Rattle.fresh.specs.Kinds.{Reads, kind_word};
ghost use Rattle.fresh.specs.Runs.{RanFresh};

use model::Event;
use packed::PackedStore;
use std::alloc::{AllocError, Global};
use std::fmt;
use table::TableStore;
use values::{Cell, CellRecord};

// The two stores.
#[derive(Clone, Copy, Debug, PartialEq, Eq)]
pub enum StoreKind {
    Table,
    Packed,
}

// A letter that asks for no store.
#[derive(Clone, Copy, Debug, PartialEq, Eq)]
pub struct NoStore(pub u8);

// The letter with which a program's input asks for a store.
impl TryFrom<u8> for StoreKind {
    type Error = NoStore;

    ghost try_from_gives = { Reads };

    fn try_from(letter: u8) -> Result<StoreKind, NoStore> {
        match letter {
            b't' => Ok(StoreKind::Table),
            b'p' => Ok(StoreKind::Packed),
            _ => Err(NoStore(letter)),
        }
    }
}

impl fmt::Display for StoreKind {
    ghost output = { λ k. Some (kind_word k) };

    fn fmt<W: fmt::Write>(&self, f: &mut fmt::Formatter<W>) -> fmt::Result {
        f.write_str(match self {
            StoreKind::Table => "table",
            StoreKind::Packed => "packed",
        })
    }
}

impl StoreKind {
    // Makes the calls of a log of a heap over a new store of this kind, of so many groups of eight cells, and writes each answer beside its call.
    // Where memory for the store is wanting, no call is made.
    pub fn run(self, alloc: Global, groups: u16, log: &mut [Event]) -> Result<(), AllocError>
        ensures { MatchResult result (λ _. RanFresh (8 * groups) log.old log.new) (λ _. log.new ≡ log.old) }
    {
        let groups = usize::from(groups);
        // The memory differs in its type, its size and its first contents, and the store in the memory that it takes; the run itself is one.
        match self {
            StoreKind::Table => {
                let mut cells = vec![in alloc; CellRecord::from(Cell::blank()); 8 * groups]?;
                let mut store = TableStore {
                    cells: cells.as_mut_slice(),
                };
                heap::run(&mut store, log);
            }
            StoreKind::Packed => {
                let mut bytes = vec![in alloc; 0; 83 * groups]?;
                let mut store = PackedStore {
                    bytes: bytes.as_mut_slice(),
                };
                heap::run(&mut store, log);
            }
        }
        Ok(())
    }
}

#[cfg(test)]
mod tests {
    use super::*;
    use model::{Answer, Call};
    use std::test::Fail;

    // There is memory for a store of each kind.
    #[test]
    fn runs_over_each_kind(rt: HostRuntime) -> Result<(), Fail> {
        for kind in [StoreKind::Table, StoreKind::Packed] {
            let mut log = [Event::asked(Call::Census)];
            kind.run(rt.alloc(), 1, &mut log)?;
            assert!(rt; log[0].answer == Ok(Answer::Census(0)));
        }
        Ok(())
    }
}
