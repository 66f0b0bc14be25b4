// The plain forms of values and cells: a number stands in them as its pattern. Types of their own, and not one generic over the number, as a rule of
// the project has it: a value carries a float, and a caller's table may have none in it.
ghost use Rattle.std.specs.Prelude.{◌≡◌, map};
ghost use Rattle.values.specs.Records.{plain_value, meant_value, plain_cell, meant_cell};

use crate::cells::{Cell, Value};
use crate::numbers::{number_of, pattern_of};

#[derive(Clone, Copy)]
pub enum PlainValue {
    Nil,
    Number(u32),
    Cell(u32),
}

#[derive(Clone, Copy)]
pub struct CellRecord {
    pub mark: bool,
    pub flag: bool,
    pub waiting: bool,
    pub parts: [PlainValue; 2],
}

impl From<Value> for PlainValue {
    ghost from_gives = { λ v r. (r ≡ plain_value v) × (meant_value r ≡ v) };

    fn from(v: Value) -> PlainValue {
        match v {
            Value::Nil => PlainValue::Nil,
            Value::Number(x) => PlainValue::Number(pattern_of(x)),
            Value::Cell(place) => PlainValue::Cell(place),
        }
    }
}

impl From<PlainValue> for Value {
    ghost from_gives = { λ p r. r ≡ meant_value p };

    fn from(v: PlainValue) -> Value {
        match v {
            PlainValue::Nil => Value::Nil,
            PlainValue::Number(pattern) => Value::Number(number_of(pattern)),
            PlainValue::Cell(place) => Value::Cell(place),
        }
    }
}

impl From<Cell> for CellRecord {
    ghost from_gives = { λ c r. (r ≡ plain_cell c) × (meant_cell r ≡ c) };

    fn from(c: Cell) -> CellRecord {
        CellRecord {
            mark: c.mark,
            flag: c.flag,
            waiting: c.waiting,
            parts: c.parts.map(PlainValue::from),
        }
    }
}

impl From<CellRecord> for Cell {
    ghost from_gives = { λ r c. c ≡ meant_cell r };

    fn from(r: CellRecord) -> Cell {
        Cell {
            mark: r.mark,
            flag: r.flag,
            waiting: r.waiting,
            parts: r.parts.map(Value::from),
        }
    }
}
