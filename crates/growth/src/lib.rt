// How a row table grows (01, 'The run'): the first universal row, then the new ones of the rows that a search yields, all of them or none.
// Every public function is total: its contract gives every lent byte for whatever is lent. What the rows mean is left to `run`.
// A yielded row costs a look through the table and through the yielded rows before it, twice.
#![tactic(auto)]

ghost use Rattle.std.specs.Prelude.{◌≡◌, replicate};
ghost use Rattle.preference.specs.Preference.{prefer};
ghost use Rattle.rows.specs.Access.{first_place, rows_written, marks_written};
ghost use Rattle.growth.specs.Growth.{is_absent, is_new, is_added, count_below, all_fit, bytes, with_new_row, with_new_rows, grown, growth, Numbered};
ghost use Rattle.growth.specs.Growth.{with_preferred};

use preference::preference;

const ROW: usize = 16;

// Adds the new ones of the first yielded rows at the table's end, in order, each once, with their mark: the table's count afterwards. None is added if they
// don't all fit.
pub fn grow(
    rows: &mut [u8],
    marks: &mut [u16],
    count: usize,
    yielded: &[u8],
    number: usize,
    mark: u16,
) -> Option<usize>
    ensures value { result ≡ growth rows.old marks.old count yielded.now number mark }
    ensures rows_after { rows.new ≡ (grown rows.old marks.old count yielded.now number mark).row_part }
    ensures marks_after { marks.new ≡ (grown rows.old marks.old count yielded.now number mark).mark_part }
    ensures numbered { Numbered rows.old marks.old count yielded.now number mark result }
{
    if !all_fit(rows, count, yielded, number) {
        return None;
    }
    let end = append_new(rows, marks, count, yielded, number, mark);
    Some(end)
}

// The first universal row: bit k is preference k, mark 0.
pub fn write_start(preferences: &[u8], universals: usize, rows: &mut [u8], marks: &mut [u16])
    ensures rows_after { rows.new ≡ rows_written rows.old marks.old 0 (with_preferred (prefer preferences.now) universals
        (replicate 16 0)) 0 }
    ensures marks_after { marks.new ≡ marks_written rows.old marks.old 0 (with_preferred (prefer preferences.now) universals
        (replicate 16 0)) 0 0 }
{
    let mut row = [0u8; 16];
    for k in 0..universals {
        if preference(preferences, k) {
            rows::set_bit(&mut row, 0, k);
        }
    }
    rows::write(rows, marks, 0, &row, 0, 0);
}

// There is room for all that are new.
fn all_fit(rows: &[u8], count: usize, yielded: &[u8], number: usize) -> bool
    ensures { result ≡ all_fit rows.now count yielded.now number }
{
    let room = rows.len() / ROW;
    if room < count {
        return false;
    }
    let added = count_new(rows, count, yielded, number);
    added <= room - count
}

// How many of the yielded rows are new, each counted once.
fn count_new(rows: &[u8], count: usize, yielded: &[u8], number: usize) -> usize
    ensures { result ≡ count_below number (λ j. is_new rows.now count yielded.now j) }
{
    let mut new: usize = 0;
    for j in 0..number {
        if is_new(rows, count, yielded, j) {
            new += 1;
        }
    }
    new
}

// Adds the new ones of the yielded rows while the table has places; its count afterwards.
fn append_new(
    rows: &mut [u8],
    marks: &mut [u16],
    count: usize,
    yielded: &[u8],
    number: usize,
    mark: u16,
) -> usize
    ensures { bytes rows.new marks.new result ≡ with_new_rows yielded.now mark number
        (bytes rows.old marks.old count) }
{
    let mut end = count;
    for j in 0..number {
        end = append_if_new(rows, marks, end, yielded, j, mark);
    }
    end
}

// Adds row j of the yielded rows if it is new; the table's count afterwards.
fn append_if_new(
    rows: &mut [u8],
    marks: &mut [u16],
    end: usize,
    yielded: &[u8],
    j: usize,
    mark: u16,
) -> usize
    ensures { bytes rows.new marks.new result ≡ with_new_row yielded.now mark j
        (bytes rows.old marks.old end) }
{
    if is_added(rows, end, yielded, j) {} else {
        return end;
    }
    rows::write(rows, marks, end, yielded, j, mark);
    end + 1
}

// Row j of the yielded rows is new, and the table has a place for it.
fn is_added(rows: &[u8], end: usize, yielded: &[u8], j: usize) -> bool
    ensures { result ≡ is_added rows.now end yielded.now j }
{
    if is_new(rows, end, yielded, j) {
        end < rows.len() / ROW
    } else {
        false
    }
}

// Row j of the yielded rows is not in the table, and is none of those before it.
fn is_new(rows: &[u8], count: usize, yielded: &[u8], j: usize) -> bool
    ensures { result ≡ is_new rows.now count yielded.now j }
{
    if is_absent(rows, count, yielded, j) {
        is_absent(yielded, j, yielded, j)
    } else {
        false
    }
}

fn is_absent(rows: &[u8], count: usize, other: &[u8], j: usize) -> bool
    ensures { result ≡ is_absent (first_place rows.now count other.now j) }
{
    rows::find(rows, count, other, j).is_none()
}
