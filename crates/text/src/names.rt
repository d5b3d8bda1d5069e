// Names bound and names placed in front, and the words of prefix and clause lines taken one by one.
ghost use Rattle.std.specs.Prelude.{◌≡◌, ◌+◌, ◌≤◌, ◌<◌, true, cond, ltb, length, take};
ghost use Rattle.formula.specs.Formula.{max_unknowns, max_entries};
ghost use Rattle.text.specs.Reading.{max_variables, room_cause as cause_of_room};
ghost use Rattle.text.specs.Private.Steps.{Marked, placed_in, Named, BoundAll, WordRead, NamePlaced, AddedAll};

use formula::Formula;
use lines::numbers;

// How far a prefix line was taken: the names bound, and a cause, 0 for none.
#[derive(Clone, Copy)]
pub(crate) struct Used {
    pub(crate) count: usize,
    pub(crate) cause: u32,
}

// How far a clause line was taken: the names bound nowhere, the entries used, and a cause, 0 for none.
#[derive(Clone, Copy)]
pub(crate) struct Added {
    pub(crate) free: usize,
    pub(crate) count: usize,
    pub(crate) cause: u32,
}

// Binds the names of a prefix line from i on. Of the tables, n entries are used.
pub(crate) fn bind_all(
    line: &[u8],
    i: usize,
    kind: u8,
    variables: usize,
    n: usize,
    kinds: &mut [u8; Formula::UNKNOWNS],
    names: &mut [u16; Formula::UNKNOWNS],
    places: &mut [u8; named::PLACES],
) -> Used
    requires i_in_bounds { (i ≤ length line.now) × (n ≤ max_unknowns) × (variables ≤ max_variables) × (length kinds.old ≡ max_unknowns) × (length names.old ≡ max_unknowns) }
    requires marked { Marked (take n names.old) places.old }
    ensures { BoundAll line.now i kind variables n kinds.old names.old result.cause result.count kinds.new names.new places.new }
{
    let mut count = n;
    let mut at = i;
    while at < line.len() {
        let w = lines::next(line, at);
        let start = w.start;
        let end = w.end;
        if start == end {
            return Used { count, cause: 0 };
        }
        let v = numbers::number(&line[start..end], numbers::DIGITS);
        if v == 0 {
            return Used { count, cause: 0 };
        }
        let cause = name_cause(v, variables, count, places);
        if cause != 0 {
            return Used { count, cause };
        }
        kinds[count] = kind;
        names[count] = v as u16;
        count += 1;
        places[v] = 1;
        at = end;
    }
    Used { count, cause: 0 }
}

// The cause of a name in a prefix line, n names being bound.
fn name_cause(v: usize, variables: usize, n: usize, places: &[u8; named::PLACES]) -> u32
    requires { variables ≤ max_variables }
    ensures { Named variables v n places.now result }
{
    if variables < v {
        return 11;
    }
    if places[v] != 0 {
        return 12;
    }
    if n < Formula::UNKNOWNS {
        return 0;
    }
    14
}

// Adds the entries of a clause line. Of the names, `bound` are bound and `free` stand behind them; of the literals, m entries are used.
pub(crate) fn add_entries(
    line: &[u8],
    variables: usize,
    bound: usize,
    free: usize,
    m: usize,
    names: &mut [u16; Formula::UNKNOWNS],
    places: &mut [u8; named::PLACES],
    literals: &mut [i32; Formula::ENTRIES],
) -> Added
    requires variables_le_max_variables { (variables ≤ max_variables) × (bound + free ≤ max_unknowns) × (m ≤ max_entries) × (length names.old ≡ max_unknowns) × (length literals.old ≡ max_entries) }
    requires marked { Marked (placed_in bound free names.old) places.old }
    ensures { AddedAll line.now variables bound free m names.old literals.old result.cause result.free result.count names.new places.new literals.new }
{
    let mut more = free;
    let mut count = m;
    let mut at = 0;
    while at < line.len() {
        let w = lines::next(line, at);
        let start = w.start;
        let end = w.end;
        if start == end {
            return Added {
                free: more,
                count,
                cause: 0,
            };
        }
        let e = entry(&line[start..end], variables, places, bound + more, count);
        if e.cause != 0 {
            return Added {
                free: more,
                count,
                cause: e.cause,
            };
        }
        let literal = e.literal;
        literals[count] = literal;
        count += 1;
        more = place(e.new, e.name, bound, more, names, places);
        at = end;
    }
    Added {
        free: more,
        count,
        cause: 0,
    }
}

// A word of a clause line: its cause, 0 for none, its entry by name, its name, and whether the name is new.
#[derive(Clone, Copy)]
struct Word {
    cause: u32,
    literal: i32,
    name: usize,
    new: bool,
}

// Reads a word of a clause line, n names being placed and m entries used.
fn entry(word: &[u8], variables: usize, places: &[u8; named::PLACES], n: usize, m: usize) -> Word
    requires { variables ≤ max_variables }
    ensures { WordRead variables places.now n m word.now result.cause result.literal result.name result.new }
{
    if numbers::is_zero(word) {
        return Word {
            cause: room_cause(m),
            literal: 0,
            name: 0,
            new: false,
        };
    }
    let v = numbers::magnitude(word);
    if variables < v {
        return Word {
            cause: 11,
            literal: 0,
            name: 0,
            new: false,
        };
    }
    let new = places[v] == 0;
    Word {
        cause: place_cause(new, n, m),
        literal: named::signed(numbers::negative(word), v as u16),
        name: v,
        new,
    }
}

// The cause of a literal: a new name wants a place besides those placed, and each literal an entry.
fn place_cause(new: bool, placed: usize, m: usize) -> u32
    ensures { result ≡ cond new (cond (ltb placed max_unknowns) (cause_of_room m) 14) (cause_of_room m) }
{
    if new {} else {
        return room_cause(m);
    }
    if placed < Formula::UNKNOWNS {
        return room_cause(m);
    }
    14 // no place is left
}

fn room_cause(m: usize) -> u32
    ensures { result ≡ cause_of_room m }
{
    if m < Formula::ENTRIES {
        return 0;
    }
    14
}

// Places a name that is new among the free ones, of which there are `free`; returns how many there are then.
fn place(
    new: bool,
    name: usize,
    bound: usize,
    free: usize,
    names: &mut [u16; Formula::UNKNOWNS],
    places: &mut [u8; named::PLACES],
) -> usize
    requires { (bound + free ≤ max_unknowns) × (new ≡ true → bound + free < max_unknowns) × (name ≤ max_variables) × (length names.old ≡ max_unknowns) }
    ensures { NamePlaced new name bound free names.old places.old result names.new places.new }
{
    if new {} else {
        return free;
    }
    text_closing::insert(names, bound, free, name as u16);
    places[name] = 1;
    free + 1
}
