// The records of a text.
ghost use Rattle.std.specs.Prelude.{◌≡◌, ◌≤◌, length, take};
ghost use Rattle.lines.specs.Lines.{lines};
ghost use Rattle.season.specs.Season.{max_studies};
ghost use Rattle.season.specs.Text.{max_bytes, other_line, records};
ghost use Rattle.season.specs.Private.Steps.{Parted, field, line_read, checked};

use crate::Study;
use lines::numbers;

// The most digits of a number.
const DIGITS: usize = 9;

// How many lines a text of records has; or the number of the first line that is none.
pub(crate) fn check(text: &[u8]) -> Result<usize, u32>
    requires { length text.now ≤ max_bytes }
    ensures { result ≡ checked (lines text.now) }
{
    let mut at = 0;
    let mut count: usize = 0;
    while at < text.len() {
        let end = lines::find(text, at, b'\n');
        let other = (count + 1) as u32;
        if end == text.len() {
            return Err(other);
        }
        if read_line(&text[at..end]).is_none() {
            return Err(other);
        }
        count += 1;
        at = end + 1;
    }
    Ok(count)
}

// The studies of a text that has no other line, at the start of a table.
pub(crate) fn read(text: &[u8]) -> [Study; crate::STUDIES]
    requires { (length text.now ≤ max_bytes) × (other_line 1 (lines text.now) ≡ 0) × (length (lines text.now) ≤ max_studies) }
    ensures { take (length (lines text.now)) result ≡ records (lines text.now) }
{
    let mut rows = [Study {
        answer: 0,
        rounds: 0,
        fee: 0,
    }; crate::STUDIES];
    let mut at = 0;
    let mut i = 0;
    while at < text.len() {
        let end = lines::find(text, at, b'\n');
        rows[i] = read_line(&text[at..end]).unwrap();
        i += 1;
        at = end + 1;
    }
    rows
}

// The study of a line, without its LF, that is three numbers parted by one space.
fn read_line(line: &[u8]) -> Option<Study>
    ensures { result ≡ line_read line.now }
{
    let (a, b) = find_spaces(line)?;
    let answer = field(&line[..a])?;
    let rounds = field(&line[a + 1..b])?;
    let fee = field(&line[b + 1..])?;
    Some(Study {
        answer,
        rounds,
        fee,
    })
}

// The number that a word is.
fn field(word: &[u8]) -> Option<u32>
    ensures { result ≡ field word.now }
{
    let value = numbers::number(word, DIGITS);
    if numbers::NO_NUMBER <= value {
        return None;
    }
    Some(value as u32)
}

// Where the two spaces of a line stand, if it has two.
fn find_spaces(line: &[u8]) -> Option<(usize, usize)>
    ensures { Parted line.now result }
{
    let first = lines::find(line, 0, b' ');
    if first == line.len() {
        return None;
    }
    let second = lines::find(line, first + 1, b' ');
    if second == line.len() {
        return None;
    }
    let end = lines::find(line, second + 1, b' ');
    if end == line.len() {
        return Some((first, second));
    }
    None
}
