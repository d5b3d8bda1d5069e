// Words as numbers, names and literals.
ghost use Rattle.std.specs.Prelude.{◌≡◌, cond, ◌≤◌, length};
ghost use Rattle.lines.specs.Lines.{same as same_bytes};
ghost use Rattle.lines.specs.Numbers.{number as number_of, number_within, all_digits, value, no_number, is_zero as zero_shape, is_name as name_shape};
ghost use Rattle.lines.specs.Numbers.{is_literal as literal_shape, negative as has_minus, unsigned};

// What stands for the value of a word that is no number.
pub const NO_NUMBER: usize = 1_000_000_000;

// The most digits of a number in 01's texts.
pub const DIGITS: usize = 5;

// Whether two words are the same.
pub fn same(a: &[u8], b: &[u8]) -> bool
    ensures { result ≡ same_bytes a.now b.now }
{
    a == b
}

// The value of a word as a number of at most so many digits, and never over nine; NO_NUMBER if it is none.
pub fn number(word: &[u8], most: usize) -> usize
    ensures { result ≡ number_within most word.now }
{
    let n = word.len();
    if n < 1 {
        return NO_NUMBER;
    }
    if most < n {
        return NO_NUMBER;
    }
    if 9 < n {
        return NO_NUMBER;
    }
    if n == 1 {
        return decimal(word);
    }
    if word[0] == b'0' {
        return NO_NUMBER;
    }
    decimal(word)
}

// The value of digits, NO_NUMBER if another byte is among them.
fn decimal(word: &[u8]) -> usize
    requires { length word.now ≤ 9 }
    ensures { result ≡ cond (all_digits word.now) (value 0 word.now) no_number }
{
    let mut v = 0;
    for d in word {
        if !d.is_ascii_digit() {
            return NO_NUMBER;
        }
        v = v * 10 + usize::from(*d - b'0');
    }
    v
}

// Whether a word is the number 0.
pub fn is_zero(word: &[u8]) -> bool
    ensures { result ≡ zero_shape word.now }
{
    if word.len() != 1 {
        return false;
    }
    word[0] == b'0'
}

pub(crate) fn is_name(word: &[u8]) -> bool
    ensures { result ≡ name_shape word.now }
{
    let v = number(word, DIGITS);
    if v < 1 {
        return false;
    }
    v < NO_NUMBER
}

pub(crate) fn is_literal(word: &[u8]) -> bool
    ensures { result ≡ literal_shape word.now }
{
    let v = magnitude(word);
    if v < 1 {
        return false;
    }
    v < NO_NUMBER
}

// The value of a word after its minus sign, if it has one.
pub fn magnitude(word: &[u8]) -> usize
    ensures { result ≡ number_of (unsigned word.now) }
{
    if negative(word) {
        number(&word[1..], DIGITS)
    } else {
        number(word, DIGITS)
    }
}

// Whether a word begins with a minus sign.
pub fn negative(word: &[u8]) -> bool
    ensures { result ≡ has_minus word.now }
{
    if word.len() == 0 {
        return false;
    }
    word[0] == b'-'
}
