// Normalise: a value that names a moved place names its new place instead.
ghost use Rattle.std.specs.Prelude.{◌≡◌};
ghost use Rattle.model.specs.Heap.{memory};
ghost use Rattle.model.specs.Words.{normal, normal_all};

use crate::access::read_place;
use store::CellStore;
use values::{Kind, Value};

pub fn normalise<S: CellStore>(s: &mut S, v: Value) -> Value
    ensures value { result ≡ normal (memory (S.meaning s.old)) v }
    ensures same { S.meaning s.new ≡ S.meaning s.old }
{
    let Value::Cell(place) = v else {
        return v;
    };
    let cell = read_place(s, place);
    if cell.kind() == Kind::Moved {
        cell.parts[0]
    } else {
        v
    }
}

// Normalises all components of a cell.
pub fn normalise_all<S: CellStore>(s: &mut S, mut parts: [Value; 2]) -> [Value; 2]
    ensures value { result ≡ normal_all (memory (S.meaning s.old)) parts }
    ensures same { S.meaning s.new ≡ S.meaning s.old }
{
    for part in parts.iter_mut() {
        *part = normalise(s, *part);
    }
    parts
}
