// The bits of a byte, one for each of eight places.
ghost use Rattle.std.specs.Prelude.{◌≡◌, ◌%◌};
ghost use Rattle.packed.specs.Bits.{bit_of, mask, with_bit};

// The mask of a place, by its remainder by 8.
const MASKS: [u8; 8] = [128, 64, 32, 16, 8, 4, 2, 1];

fn mask(place: u32) -> u8
    ensures { result ≡ mask (place % 8) }
{
    MASKS[place as usize % 8]
}

// Whether a byte has a place's bit.
pub(crate) fn bit_of(b: u8, place: u32) -> bool
    ensures { result ≡ bit_of b (place % 8) }
{
    b & mask(place) != 0
}

// Sets or clears a place's bit in a byte.
pub(crate) fn set_bit(b: &mut u8, place: u32, on: bool)
    ensures { b.new ≡ with_bit b.old (place % 8) on }
{
    if on {
        *b |= mask(place);
    } else {
        *b &= !mask(place);
    }
}
