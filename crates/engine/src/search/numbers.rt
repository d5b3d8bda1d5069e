// Numbers of small tables as indices, the least of two numbers, and the lowest bit of a word.
ghost use Rattle.std.specs.Prelude.{◌≡◌, ◌⊎◌, ◌≤◌, ◌<◌};

pub(crate) fn wide8(x: u8) -> usize
    ensures { result ≡ x }
{
    x as usize
}

pub(crate) fn wide16(x: u16) -> usize
    ensures { result ≡ x }
{
    x as usize
}

pub(crate) fn least(a: usize, b: usize) -> usize
    ensures { (result ≤ a) × (result ≤ b) × ((result ≡ a) ⊎ (result ≡ b)) }
{
    if a < b { a } else { b }
}

// The lowest bit of a word; 64 if there is none.
pub(crate) fn lowest(word: u64) -> usize
    ensures { (result ≤ 64) × (0 < word → result < 64) }
{
    u64::trailing_zeros(word) as usize
}
