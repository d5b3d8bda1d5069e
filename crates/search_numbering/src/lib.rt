// The numbers of the copies over sorted rows: by position, then by the first lent row that has the copy. What a copy's number prefers is
// written into the table of cells (crate `search_cells`) for each sorted row that has it. `fill` is total: its contract gives every byte of the
// table for whatever is lent. How the rows were sorted is left to the caller.
// A position costs a pass over the sorted rows, one over the lent rows and one over the cells written.
#![tactic(auto)]

ghost use Rattle.std.specs.Prelude.{◌≡◌, ℕ, ◌+◌, ◌*◌, ◌≤◌, ◌<◌, eqb, length, get_or};
ghost use Rattle.formula.specs.Formula.{max_unknowns, max_rows, work_size};
ghost use Rattle.preference.specs.Preference.{prefer};
ghost use Rattle.rows.specs.Row.{weight};
ghost use Rattle.search_cells.specs.Cells.{flags};
ghost use Rattle.search_numbering.specs.Numbering.{copies_at, written, filled_at, filled_from, sized, filled};
ghost use Rattle.search_numbering.specs.Private.Wants.{Grouped, firsts, note, Numbered};

use formula::Formula;
use preference::preference;
use search_cells::FLAGS;

// Entry r of `place` is the sorted place of lent row r, and entry i of `differences` the position where sorted row i first differs from the one
// before it. The copies at the positions whose kind is `side` are numbered from 0.
pub fn fill(
    kinds: &[u8],
    preferences: &[u8],
    place: &[u8],
    differences: &[u8],
    side: u8,
    work: &mut [u8],
)
    ensures { work.new ≡ filled kinds.now preferences.now place.now differences.now side
        work.old }
{
    if is_sized(kinds.len(), place.len(), differences.len(), work.len()) {} else {
        return;
    }
    fill_positions(kinds, preferences, place, differences, side, work);
}

fn is_sized(kinds: usize, places: usize, differences: usize, bytes: usize) -> bool
    ensures { result ≡ sized kinds places differences bytes }
{
    if kinds > Formula::UNKNOWNS {
        return false;
    }
    if places > Formula::ROWS {
        return false;
    }
    if differences != Formula::ROWS {
        return false;
    }
    bytes == Formula::WORK
}

fn fill_positions(
    kinds: &[u8],
    preferences: &[u8],
    place: &[u8],
    differences: &[u8],
    side: u8,
    work: &mut [u8],
)
    requires { (length kinds.now ≤ max_unknowns) × (length place.now ≤ max_rows) × (length differences.now ≡ max_rows) × (length work.old ≡ work_size) }
    ensures { work.new ≡ filled_from preferences.now place.now differences.now side kinds.now 0 0
        work.old }
{
    let mut number = 0;
    for (k, kind) in kinds.iter().enumerate() {
        if *kind == side {
            number = fill_at(preferences, place, differences, k, number, work);
        }
    }
}

// Fills position k, whose copies are numbered from `number` on, and returns the number behind them.
fn fill_at(
    preferences: &[u8],
    place: &[u8],
    differences: &[u8],
    k: usize,
    number: usize,
    work: &mut [u8],
) -> usize
    requires { (length place.now ≤ max_rows) × (length differences.now ≡ max_rows) × (k < max_unknowns) × (number ≤ flags) × (length work.old ≡ work_size) }
    ensures value { result ≡ number + length (copies_at differences.now place.now k) }
    ensures work_after { work.new ≡ filled_at preferences.now place.now differences.now k number work.old }
{
    let count = place.len();
    let mut first = [0u8; Formula::ROWS];
    group(differences, k, count, &mut first);
    let mut notes = [0u8; Formula::ROWS];
    let next = number_copies(preferences, place, &first, number, &mut notes);
    write(&first, &notes, k, count, work);
    next
}

// Writes for each of so many sorted rows the first row of its copy at position k.
fn group(differences: &[u8], k: usize, count: usize, first: &mut [u8])
    requires count_le_max_rows { (count ≤ max_rows) × (length differences.now ≡ max_rows) × (length first.old ≡ max_rows) }
    requires by_index { (x : ℕ) → get_or first.old x 0 ≡ 0 }
    ensures { Grouped differences.now k count first.new }
{
    let mut start = 0;
    for i in 0..count {
        if usize::from(differences[i]) < k {
            start = i as u8;
        }
        first[i] = start;
    }
}

// Goes over the lent rows in order. A copy met for the first time gets the next number, and at its first sorted row is noted what it
// prefers, plus 1.
fn number_copies(
    preferences: &[u8],
    place: &[u8],
    first: &[u8],
    number: usize,
    notes: &mut [u8],
) -> usize
    requires place_len_bound { (length place.now ≤ max_rows) × (length first.now ≡ max_rows) × (number ≤ flags) × (length notes.old ≡ max_rows) }
    requires by_index { (x : ℕ) → get_or notes.old x 0 ≡ 0 }
    ensures { Numbered preferences.now number (firsts first.now place.now) result notes.new }
{
    let mut next = number;
    for i in place {
        let start = usize::from(first[usize::from(*i)]);
        if notes[start] == 0 {
            notes[start] = note_of(preferences, next);
            next += 1;
        }
    }
    next
}

fn note_of(preferences: &[u8], number: usize) -> u8
    ensures { result ≡ note (prefer preferences.now number) }
{
    if preference(preferences, number) {
        2
    } else {
        1
    }
}

// Writes into each cell of position k what is noted of its copy.
fn write(first: &[u8], notes: &[u8], k: usize, count: usize, work: &mut [u8])
    requires { (length first.now ≡ max_rows) × (length notes.now ≡ max_rows) × (k < max_unknowns) × (count ≤ max_rows) × (length work.old ≡ work_size) }
    ensures { work.new ≡ written (λ i. eqb (get_or notes.now (get_or first.now i 0) 0) 2) k count work.old }
{
    for i in 0..count {
        let start = usize::from(first[i]);
        work[FLAGS + (Formula::UNKNOWNS * i + k)] = cell(notes[start]);
    }
}

// The byte of a cell whose copy has the note.
fn cell(note: u8) -> u8
    ensures { result ≡ 2 * weight (eqb note 2) }
{
    if note == 2 { 2 } else { 0 }
}
