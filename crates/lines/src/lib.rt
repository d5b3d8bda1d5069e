// Bytes as lines and words (01, 'Text'), words as numbers, and the shapes of lines.
// Every public function is total and says where something stands, what a word is worth or whether a line has a shape. What a line then gives, and
// every cause of a refusal, is left to the readers.
#![tactic(auto)]

ghost use Rattle.std.specs.Prelude.{◌≡◌, ◌+◌, min, length, drop};
ghost use Rattle.lines.specs.Places.{before, spaces, Next};

pub mod numbers;
pub mod shapes;

#[derive(Clone, Copy)]
pub struct Word {
    pub start: usize,
    pub end: usize,
}

// The first word at or after i.
pub fn next(line: &[u8], i: usize) -> Word
    ensures { Next line.now i result.start result.end }
{
    let start = skip(line, i);
    let end = find(line, start, b' ');
    Word { start, end }
}

// The place of the first b at or after i, or the length; i if it is past the end.
pub fn find(bytes: &[u8], i: usize, b: u8) -> usize
    ensures { result ≡ i + before b (drop i bytes.now) }
{
    for at in i..bytes.len() {
        if bytes[at] == b {
            return at;
        }
    }
    i.max(bytes.len())
}

// The place of the first byte at or after i that is no space, or the length.
fn skip(bytes: &[u8], i: usize) -> usize
    ensures { result ≡ min i (length bytes.now) + spaces (drop i bytes.now) }
{
    for at in i..bytes.len() {
        if bytes[at] != b' ' {
            return at;
        }
    }
    bytes.len()
}
