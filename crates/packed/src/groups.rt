// Cells in bytes, eight to a group: a byte of marks, one of flags, one of waiting bits, then eight cells.
ghost use Rattle.std.specs.Prelude.{take, drop, ◌+◌, ◌≡◌, ℕ, ◌<◌, ◌≤◌, length, slice_index_or};
ghost use Rattle.std.proofs.lemmas.List.Edits.{sets};
ghost use Rattle.values.specs.declared.cells.Value.TheVariants as V;
ghost use Rattle.packed.specs.Words.{value_bytes, value_in};
ghost use Rattle.packed.specs.Groups.{bit_place, bytes_with, cell_at, cell_count, part_place, row_number, width};

use crate::bits::{bit_of, set_bit};
use crate::words::ValueBytes;
use values::{Cell, Value};

// The components of a cell, the bytes of a cell, and the bytes of a group.
const WIDTH: usize = 2;

const CELL_SIZE: usize = 5 * WIDTH;

const GROUP_SIZE: usize = 3 + 8 * CELL_SIZE;

// The rows of bits at the start of a group, a byte each.
#[derive(Clone, Copy)]
enum Row {
    Marks,
    Flags,
    Waiting,
}

// The number of cells in so many bytes, whatever the bytes.
pub(crate) fn cell_count(len: usize) -> usize
    ensures { result ≡ cell_count len }
{
    8 * (len / GROUP_SIZE)
}

// The byte that has a place's bit.
fn bit_place(place: u32, row: Row) -> usize
    ensures { result ≡ bit_place place (row_number row) }
{
    GROUP_SIZE * (place as usize / 8) + row as usize
}

// The first of the five bytes of a component.
fn part_place(place: u32, i: usize) -> usize
    requires { i < width }
    ensures { result ≡ part_place place i }
{
    GROUP_SIZE * (place as usize / 8) + 3 + CELL_SIZE * (place as usize % 8) + 5 * i
}

// The value as which the five bytes from a place on are read.
fn value_at(bytes: &[u8], at: usize) -> Value
    requires { at + 5 ≤ length bytes.now }
    ensures { result ≡ value_in (take 5 (drop at bytes.now)) }
{
    Value::from(ValueBytes(*bytes[at..].first_chunk().unwrap()))
}

// The cell at a place that has one. Its components are listed: with `array::from_fn` the mean step over the store is 4% dearer.
pub(crate) fn read_cell(bytes: &[u8], place: u32) -> Cell
    requires { place < cell_count (length bytes.now) }
    ensures { result ≡ cell_at bytes.now place }
{
    let bit = |row| bit_of(bytes[bit_place(place, row)], place);
    let part = |i| value_at(bytes, part_place(place, i));
    Cell {
        mark: bit(Row::Marks),
        flag: bit(Row::Flags),
        waiting: bit(Row::Waiting),
        parts: [part(0), part(1)],
    }
}

// Writes a value as the five bytes from a place on, which read as that value.
fn put_value(bytes: &mut [u8], at: usize, v: Value)
    requires { at + 5 ≤ length bytes.old }
    ensures after { bytes.new ≡ sets bytes.old at (value_bytes v) }
    ensures back { value_in (value_bytes v) ≡ v }
{
    bytes[at..at + 5].copy_from_slice(&ValueBytes::from(v).0);
}

// Writes a cell at a place that has one. Each component reads as it was written.
pub(crate) fn write_cell(bytes: &mut [u8], place: u32, cell: Cell)
    requires { place < cell_count (length bytes.old) }
    ensures exact { bytes.new ≡ bytes_with bytes.old place cell }
    ensures back { (i : ℕ) → i < width → value_in (value_bytes (slice_index_or cell.parts i V.Nil)) ≡ slice_index_or cell.parts i V.Nil }
{
    let mut put_bit = |row, on| set_bit(&mut bytes[bit_place(place, row)], place, on);
    put_bit(Row::Marks, cell.mark);
    put_bit(Row::Flags, cell.flag);
    put_bit(Row::Waiting, cell.waiting);
    for (i, value) in cell.parts.iter().enumerate() {
        put_value(bytes, part_place(place, i), *value);
    }
}
