// The opening dispatch in bytes (02, C-11): the length of the prefix's first block, and the first bits of a row.
// Both functions are total. From which table the row comes, and when, is left to `run`.
#![tactic(auto)]

ghost use Rattle.std.specs.Prelude.{◌≡◌};
ghost use Rattle.opening.specs.Start.{equal_from_start, first_bits};

use rows::Row;

// How many kinds from the start on are the one given.
pub fn block(kinds: &[u8], kind: u8) -> usize
    ensures { result ≡ equal_from_start kind kinds.now }
{
    for (length, k) in kinds.iter().enumerate() {
        if *k != kind {
            return length;
        }
    }
    kinds.len()
}

// The first bits of the row at a place, as a row whose other bits are zero. A place outside the table has no bit set.
pub fn first_bits(rows: &[u8], place: usize, length: usize) -> Row
    ensures { result ≡ first_bits rows.now place length }
{
    let mut row = [0u8; 16];
    for k in 0..length {
        if rows::bit(rows, place, k) {
            rows::set_bit(&mut row, 0, k);
        }
    }
    row
}
