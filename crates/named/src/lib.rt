// Formulas by their names, as a text has them: their meaning, and the positions that a reader gives to names (specs/Named.antt); names that
// no block binds, and the formula closed by them (specs/Closing.antt). The code has the limits of names and the literal of a name alone; `text`
// is proved to read by these definitions.
#![tactic(auto)]

ghost use Rattle.std.specs.Prelude.{◌≡◌};
ghost use Rattle.named.specs.Named.{signed as with_sign};

// The largest name.
pub const LARGEST: usize = 32_767;

// A table by name has an entry for each name, and one for 0.
pub const PLACES: usize = 32_768;

// A table with a byte for each name, and for 0.
pub type Places = [u8; PLACES];

// The literal of a name or of a position.
pub fn signed(negative: bool, v: u16) -> i32
    ensures { result ≡ with_sign negative v }
{
    let z = v as i32;
    if negative { -z } else { z }
}
