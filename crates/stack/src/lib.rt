// A pushdown list in the lowest slots of a lent slice, with its height. Depth 0 is the top entry, index 0 the bottom slot.
// Slots and height are taken apart, as a rule of the project has it: the array lies in the heap's registers, and the height may lie elsewhere.
// No height is refused: one past the end of the slice counts as the slice's length.
// The clauses `there` follow from `value`; they tell a caller at once in which case it is.
#![tactic(auto)]

ghost use Rattle.std.specs.Prelude.{◌≡◌, ◌+◌, ◌-◌, ◌<◌, ◌≤◌, min, ◌∷◌, reverse, length, drop, if◌then◌else◌, MatchOption, nat_lt, slice_set, is_ok, is_some, Ok, Err};
ghost use Rattle.std.specs.List.{slice_get};
ghost use Rattle.stack.specs.Entries.{stacked, tail, last_of};
ghost use Rattle.stack.specs.Slots.{Held};

use std::mem;

// There is no room for another entry.
#[derive(Clone, Copy, Debug, PartialEq, Eq)]
pub struct Full;

// How many slots are in use, which is how many entries there are.
#[tactic(auto, using(crate::proofs::Entries::held))]
fn used<T: Copy>(slots: &[T], height: usize) -> usize
    ensures { Held height slots.now result }
{
    height.min(slots.len())
}

// Puts `x` on top, if there is room.
pub fn push<T: Copy>(slots: &mut [T], height: &mut usize, x: T) -> Result<(), Full>
    ensures value { result ≡ (if nat_lt (length (stacked height.old slots.old)) (length slots.old) then Ok tt else Err (record {})) }
    ensures entries { stacked height.new slots.new ≡ (if is_ok result then x ∷ stacked height.old slots.old else stacked height.old slots.old) }
    ensures height { height.new ≡ (if is_ok result then height.old + 1 else height.old) }
    ensures memory { slots.new ≡ (if is_ok result then slice_set slots.old height.old x else slots.old) }
{
    if used(slots, *height) == slots.len() {
        return Err(Full);
    }
    slots[*height] = x;
    *height += 1;
    Ok(())
}

// Takes the top entry.
pub fn pop<T: Copy>(slots: &[T], height: &mut usize) -> Option<T>
    ensures value { result ≡ slice_get (stacked height.old slots.now) 0 }
    ensures entries { stacked height.new slots.now ≡ tail (stacked height.old slots.now) }
    ensures height { height.new ≡ min height.old (length slots.now) - 1 }
{
    let top = peek(slots, *height, 0);
    discard(slots, height, 1);
    top
}

// The entry at `depth` below the top.
pub fn peek<T: Copy>(slots: &[T], height: usize, depth: usize) -> Option<T>
    ensures value { result ≡ slice_get (stacked height slots.now) depth }
    ensures there { MatchOption result (min height (length slots.now) ≤ depth) (λ _. depth < min height (length slots.now)) }
{
    let used = used(slots, height);
    if depth < used {
        Some(slots[used - 1 - depth])
    } else {
        None
    }
}

// Writes `x` over the entry at `depth` below the top, and answers what stood there.
pub fn replace<T: Copy>(slots: &mut [T], height: usize, depth: usize, x: T) -> Option<T>
    ensures value { result ≡ slice_get (stacked height slots.old) depth }
    ensures there { is_some result ≡ nat_lt depth (length (stacked height slots.old)) }
    ensures entries { stacked height slots.new ≡ slice_set (stacked height slots.old) depth x }
    ensures memory { slots.new ≡ (if is_some result then slice_set slots.old (min height (length slots.old) - 1 - depth) x else slots.old) }
{
    let used = used(slots, height);
    if depth < used {
        Some(mem::replace(&mut slots[used - 1 - depth], x))
    } else {
        None
    }
}

// The entry in slot `index`, counted from the bottom: no twin of `peek`, which counts from the top.
pub fn slot<T: Copy>(slots: &[T], height: usize, index: usize) -> Option<T>
    ensures value { result ≡ slice_get (reverse (stacked height slots.now)) index }
    ensures there { MatchOption result (min height (length slots.now) ≤ index) (λ _. index < min height (length slots.now)) }
{
    let used = used(slots, height);
    if index < used {
        Some(slots[index])
    } else {
        None
    }
}

// Writes `x` over the entry in slot `index`, counted from the bottom, and answers what stood there.
pub fn replace_slot<T: Copy>(slots: &mut [T], height: usize, index: usize, x: T) -> Option<T>
    ensures value { result ≡ slice_get (reverse (stacked height slots.old)) index }
    ensures there { is_some result ≡ nat_lt index (length (stacked height slots.old)) }
    ensures entries { stacked height slots.new ≡ reverse (slice_set (reverse (stacked height slots.old)) index x) }
    ensures memory { slots.new ≡ (if is_some result then slice_set slots.old index x else slots.old) }
{
    let used = used(slots, height);
    if index < used {
        Some(mem::replace(&mut slots[index], x))
    } else {
        None
    }
}

// Takes `count` entries, or all where there are fewer.
pub fn discard<T: Copy>(slots: &[T], height: &mut usize, count: usize)
    ensures entries { stacked height.new slots.now ≡ drop count (stacked height.old slots.now) }
    ensures height { height.new ≡ min height.old (length slots.now) - count }
{
    let used = used(slots, *height);
    *height = used.saturating_sub(count);
}

// The top two entries, the lower first.
pub fn last_two<T: Copy>(slots: &[T], height: usize) -> Option<[T; 2]>
    ensures value { result ≡ last_of 2 (stacked height slots.now) }
    ensures there { MatchOption result (min height (length slots.now) < 2) (λ _. 2 ≤ min height (length slots.now)) }
{
    let top = peek(slots, height, 0)?;
    let below = peek(slots, height, 1)?;
    Some([below, top])
}

// The element at `index` of a plain array, all of whose slots are used.
pub fn item<T: Copy>(slots: &[T], index: usize) -> Option<T>
    ensures value { result ≡ slice_get slots.now index }
    ensures there { MatchOption result (length slots.now ≤ index) (λ _. index < length slots.now) }
{
    slots.get(index).copied()
}
