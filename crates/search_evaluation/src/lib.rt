// What clauses and literals are worth in one row of the table of cells: which are false, unit, satisfied or true.
// Every public function is total: it gives a fixed answer if the area is no table or has no such row, and a defined one for any codes.
// Nothing is changed. What follows from the answers is left to the search.
#![tactic(auto)]

ghost use Rattle.std.specs.Prelude.{◌≡◌, ◌<◌, false, length, drop};
ghost use Rattle.formula.specs.Formula.{max_unknowns, max_rows, work_size};
ghost use Rattle.codes.specs.Codes.{row_position};
ghost use Rattle.search_evaluation.specs.Evaluation.{has_row, is_set, is_true, is_satisfied};
ghost use Rattle.search_evaluation.specs.Evaluation.{look_on, look_at, unsatisfied_on, unsatisfied_at, next_unsatisfied_on};
ghost use Rattle.search_evaluation.specs.Evaluation.{next_unsatisfied_at, matrix_on, matrix_in, satisfied_at, level_in};

use formula::Formula;
use search_cells::FLAGS;

// The last position.
const LAST: usize = Formula::UNKNOWNS - 1;

// The clause at `start` in row i: 0 if all its literals are false, the code of its one open literal if all others are false, else 1.
pub fn look(codes: &[u16], work: &[u8], i: usize, start: usize) -> usize
    ensures { result ≡ look_at codes.now work.now i start }
{
    if has_row(work, i) {} else {
        return 1;
    }
    look_on(codes, work, i, start)
}

// Whether the entries from `start` to the end of a clause have no literal that is set and true in row i.
pub fn unsatisfied(codes: &[u16], work: &[u8], i: usize, start: usize) -> bool
    ensures { result ≡ unsatisfied_at codes.now work.now i start }
{
    if has_row(work, i) {} else {
        return false;
    }
    unsatisfied_on(codes, work, i, start)
}

// The start of the first clause from `from` on that is not satisfied in row i; at least the number of entries if there is none.
pub fn next_unsatisfied(codes: &[u16], work: &[u8], i: usize, from: usize) -> usize
    ensures { result ≡ next_unsatisfied_at codes.now work.now i from }
{
    if has_row(work, i) {} else {
        return codes.len();
    }
    next_unsatisfied_on(codes, work, i, from)
}

// Whether every clause has a true literal in row i, by the values of all cells, set or not.
pub fn matrix(codes: &[u16], work: &[u8], i: usize) -> bool
    ensures { result ≡ matrix_in codes.now work.now i }
{
    if has_row(work, i) {} else {
        return false;
    }
    matrix_on(codes, work, i)
}

// Whether the literal of code c is set and true in row i.
pub fn satisfied(work: &[u8], i: usize, c: usize) -> bool
    ensures { result ≡ satisfied_at work.now i c }
{
    if has_row(work, i) {} else {
        return false;
    }
    is_satisfied(work, i, c)
}

// The level of row i's cell at position k, plus 1; 0 if the cell is open, or none of the table.
pub fn level(work: &[u8], i: usize, k: usize) -> u8
    ensures { result ≡ level_in work.now i k }
{
    if has_row(work, i) {} else {
        return 0;
    }
    if Formula::UNKNOWNS <= k {
        return 0;
    }
    work[Formula::UNKNOWNS * i + k]
}

fn has_row(work: &[u8], i: usize) -> bool
    ensures { result ≡ has_row work.now i }
{
    if work.len() == Formula::WORK {
        i < Formula::ROWS
    } else {
        false
    }
}

fn look_on(codes: &[u16], work: &[u8], i: usize, start: usize) -> usize
    requires { (length work.now ≡ work_size) × (i < max_rows) }
    ensures { result ≡ look_on (is_set work.now i) (is_true work.now i) 0 (drop start codes.now) }
{
    let mut unit = 0;
    for e in start..codes.len() {
        let c = usize::from(codes[e]);
        if c == 0 {
            return unit;
        }
        if is_set(work, i, c) {
            if is_true(work, i, c) {
                return 1; // a true literal
            }
        } else {
            if unit != 0 {
                return 1; // a second open literal
            }
            unit = c;
        }
    }
    1
}

fn unsatisfied_on(codes: &[u16], work: &[u8], i: usize, start: usize) -> bool
    requires { (length work.now ≡ work_size) × (i < max_rows) }
    ensures { result ≡ unsatisfied_on (is_satisfied work.now i) (drop start codes.now) }
{
    for e in start..codes.len() {
        let c = usize::from(codes[e]);
        if c == 0 {
            return true;
        }
        if is_satisfied(work, i, c) {
            return false;
        }
    }
    false // no end
}

fn next_unsatisfied_on(codes: &[u16], work: &[u8], i: usize, from: usize) -> usize
    requires { (length work.now ≡ work_size) × (i < max_rows) }
    ensures { result ≡ next_unsatisfied_on (is_satisfied work.now i) from false from (drop from codes.now) }
{
    let mut start = from;
    let mut hit = false;
    for e in from..codes.len() {
        let c = usize::from(codes[e]);
        if c == 0 {
            if hit {
                start = e + 1;
                hit = false;
            } else {
                return start;
            }
        } else if hit {} else if is_satisfied(work, i, c) {
            hit = true;
        }
    }
    from.max(codes.len())
}

fn matrix_on(codes: &[u16], work: &[u8], i: usize) -> bool
    requires { (length work.now ≡ work_size) × (i < max_rows) }
    ensures { result ≡ matrix_on (is_true work.now i) false codes.now }
{
    let mut met = false;
    for code in codes {
        let c = usize::from(*code);
        if c == 0 {
            if met {} else {
                return false;
            }
            met = false;
        } else if is_true(work, i, c) {
            met = true;
        }
    }
    true
}

fn is_satisfied(work: &[u8], i: usize, c: usize) -> bool
    requires { (length work.now ≡ work_size) × (i < max_rows) }
    ensures { result ≡ is_satisfied work.now i c }
{
    if is_set(work, i, c) {
        is_true(work, i, c)
    } else {
        false // open
    }
}

fn is_set(work: &[u8], i: usize, c: usize) -> bool
    requires { (length work.now ≡ work_size) × (i < max_rows) }
    ensures { result ≡ is_set work.now i c }
{
    0 < work[Formula::UNKNOWNS * i + position(c)]
}

// Whether the literal is true by its cell's value, set or not.
fn is_true(work: &[u8], i: usize, c: usize) -> bool
    requires { (length work.now ≡ work_size) × (i < max_rows) }
    ensures { result ≡ is_true work.now i c }
{
    let value = work[FLAGS + (Formula::UNKNOWNS * i + position(c))] % 2 == 1;
    if c % 2 == 0 {
        return value;
    }
    !value
}

// The position of a code's unknown: c / 2 - 1 for a literal, and inside the row for any number, so that no code needs a test.
fn position(c: usize) -> usize
    ensures { (result ≡ row_position c) × (result < max_unknowns) }
{
    (c / 2 + LAST) % Formula::UNKNOWNS
}
