// The census: how many places are in use.
ghost use Rattle.std.specs.Prelude.{◌≡◌, ◌≤◌};
ghost use Rattle.model.specs.Heap.{cell_in, memory};
ghost use Rattle.model.specs.Steps.{in_use, used};
ghost use Rattle.values.specs.Cells.{kind};

use barrier::{places, read_place};
use store::CellStore;
use values::Kind;

// What a place of this kind adds to the count; the bound keeps the sum from wrapping.
fn in_use(kind: Kind) -> usize
    ensures value { result ≡ in_use kind }
    ensures bound { result ≤ 1 }
{
    usize::from(kind != Kind::Free)
}

// What a place adds to the count of those after it.
fn use_of<S: CellStore>(s: &mut S, place: u32) -> usize
    ensures value { result ≡ in_use (kind (cell_in (S.meaning s.old) place)) }
    ensures bound { result ≤ 1 }
    ensures same { S.meaning s.new ≡ S.meaning s.old }
{
    let cell = read_place(s, place);
    in_use(cell.kind())
}

// Counts the places that are not free. The places are addresses in a store, behind calls: no slice is there to go over. A chain that ends in `count`
// was tried: nothing is known then of what it leaves of the store that its closure borrows.
#[tactic(auto, using(crate::proofs::Turns::used_more, crate::proofs::Turns::used_all))]
pub fn census<S: CellStore>(s: &mut S) -> usize
    ensures value { result ≡ used (memory (S.meaning s.old)) }
    ensures same { S.meaning s.new ≡ S.meaning s.old }
{
    let mut count = 0;
    for place in 0..places(s) {
        count += use_of(s, place);
    }
    count
}
