// Values as five bytes: a kind, and a word of four bytes, most significant first.
ghost use Rattle.std.specs.Prelude.{◌≡◌};
ghost use Rattle.packed.specs.Words.{five_of, value_bytes, value_in, value_of};

use values::{Value, number_of, pattern_of};

// The kinds are bytes of the layout: an enum of them would be `Value` again without its contents, and a byte that is none of them reads as nil.
const NIL: u8 = 0;

const NUMBER: u8 = 1;

const CELL: u8 = 2;

// The five bytes of a value.
#[derive(Clone, Copy)]
pub(crate) struct ValueBytes(pub(crate) [u8; 5]);

fn five_of(kind: u8, word: u32) -> ValueBytes
    ensures value { result.0 ≡ five_of kind word }
    ensures back { value_in result.0 ≡ value_of kind word }
{
    let [a, b, c, d] = word.to_be_bytes();
    ValueBytes([kind, a, b, c, d])
}

// What is written of a value reads as that value.
impl From<Value> for ValueBytes {
    ghost from_gives = { λ v five. (five.0 ≡ value_bytes v) × (value_in five.0 ≡ v) };

    fn from(v: Value) -> Self {
        match v {
            Value::Nil => five_of(NIL, 0),
            Value::Number(x) => five_of(NUMBER, pattern_of(x)),
            Value::Cell(place) => five_of(CELL, place),
        }
    }
}

impl From<ValueBytes> for Value {
    ghost from_gives = { λ five v. v ≡ value_in five.0 };

    fn from(five: ValueBytes) -> Self {
        let [kind, a, b, c, d] = five.0;
        let word = u32::from_be_bytes([a, b, c, d]);
        match kind {
            NUMBER => Value::Number(number_of(word)),
            CELL => Value::Cell(word),
            _ => Value::Nil,
        }
    }
}
