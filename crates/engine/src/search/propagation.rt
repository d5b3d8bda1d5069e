// The existential side's consequences of a value: a clause whose literals are all false but one open one forces that one (unit
// propagation), and a clause whose literals are all false ends the branch. What is looked at, and when, is a hint: the changed positions and
// their rows may hold anything. A literal's clauses are found through the index, which is the one of the codes.
ghost use Rattle.std.specs.Prelude.{◌≡◌, ◌+◌, ◌≤◌, ◌<◌, length, get_or, true};
ghost use Rattle.formula.specs.Formula.{max_unknowns};
ghost use Rattle.index.specs.Index.{code_count, index_size};
ghost use Rattle.codes.specs.Codes.{last_code};
ghost use Rattle.codes.specs.Private.Clauses.{position, Begins};
ghost use Rattle.search_sets.specs.Sets.{sets_size};
ghost use Rattle.search_sets.specs.Private.Masks.{SetsKept};
ghost use Rattle.search_evaluation.specs.Private.Looked.{Looked};
ghost use Rattle.engine.specs.Private.Steps.{Propagates, Indexed, Lent, Starts};

use super::clauses::{list_of, literal_position};
use super::sets_table::{CHANGED, CHANGED_ROWS, CONFLICT};
use super::{cell, reasons, sets_table};
use formula::Formula;

// The code under which the index lists every clause.
const ANY: usize = 1;

// The cells of the table: no more positions with changes are taken at a level.
const CELLS: usize = Formula::ROWS * Formula::UNKNOWNS;

// Looks in every row at the clauses that the row may make unit or false, and at what follows. False: there is no model, and the set at CONFLICT says by which
// decisions.
pub(crate) fn propagate_all(
    kinds: &[u8],
    differences: &[u8],
    codes: &[u16],
    work: &mut [u8],
    sets: &mut [u64],
    index: &[u16],
) -> bool
    requires { Lent 0 differences.now codes.now work.old sets.old index.now }
    ensures { Indexed 0 codes.now index.now → Propagates 0 differences.now codes.now 0 (length differences.now) 1 work.old work.new sets.old sets.new result }
{
    let mut short = [0u16; Formula::CLAUSES];
    let count = list_short(kinds, codes, index, &mut short);
    propagate_rows(differences, codes, work, sets, index, &short[..count])
}

// Lists the clauses with at most one existential literal: no other can be unit or false by a row alone. Returns how many there are.
fn list_short(kinds: &[u8], codes: &[u16], index: &[u16], short: &mut [u16]) -> usize
    requires { length index.now ≡ index_size }
    ensures { (result ≤ length short.new) × (Starts codes.now index.now (get_or index.now 1 0) (get_or index.now (code_count + 1) 0) → Starts codes.now short.new 0 result) }
{
    let list = list_of(index, ANY);
    let mut count = 0;
    for start in list {
        if count < short.len() {} else {
            return count;
        }
        short[count] = *start; // stays if it is counted
        count += usize::from(is_short(kinds, codes, usize::from(*start)));
    }
    count
}

// Whether the clause at `start` has at most one existential literal.
fn is_short(kinds: &[u8], codes: &[u16], start: usize) -> bool {
    let mut one = false;
    for e in start..codes.len() {
        let c = usize::from(codes[e]);
        if c == 0 {
            return true;
        }
        if is_existential(kinds, c) {
            if one {
                return false;
            }
            one = true;
        }
    }
    true
}

fn is_existential(kinds: &[u8], c: usize) -> bool {
    let k = c / 2;
    if k == 0 {
        return false;
    }
    if k - 1 < kinds.len() {
        return kinds[k - 1] == 0;
    }
    false
}

// Looks at the clauses of `short` in every row, and at what follows.
fn propagate_rows(
    differences: &[u8],
    codes: &[u16],
    work: &mut [u8],
    sets: &mut [u64],
    index: &[u16],
    short: &[u16],
) -> bool
    requires { Lent 0 differences.now codes.now work.old sets.old index.now }
    ensures { Indexed 0 codes.now index.now × Starts codes.now short.now 0 (length short.now) → Propagates 0 differences.now codes.now 0 (length differences.now) 1 work.old work.new sets.old sets.new result }
{
    search_sets::empty(sets, CHANGED);
    for i in 0..differences.len() {
        if propagate_list(
            differences,
            codes,
            work,
            sets,
            index,
            short,
            1,
            0,
            differences.len(),
            0,
            i,
        ) {} else {
            return false;
        }
    }
    propagate(
        differences,
        codes,
        work,
        sets,
        index,
        1,
        0,
        differences.len(),
    )
}

// What follows in the rows from lo to hi from the value that they just got at position k.
pub(crate) fn propagate_from(
    differences: &[u8],
    codes: &[u16],
    work: &mut [u8],
    sets: &mut [u64],
    index: &[u16],
    k: usize,
    lo: usize,
    hi: usize,
) -> bool
    requires lent { Lent 0 differences.now codes.now work.old sets.old index.now }
    requires k_lt_max_unknowns { (k < max_unknowns) × (lo < hi) × (hi ≤ length differences.now) }
    ensures { Indexed 0 codes.now index.now → Propagates 0 differences.now codes.now lo hi (k + 2) work.old work.new sets.old sets.new result }
{
    search_sets::empty(sets, CHANGED);
    note(sets, k, lo, hi);
    propagate(differences, codes, work, sets, index, k as u8 + 2, lo, hi)
}

// Takes the positions with changes, until there is none.
fn propagate(
    differences: &[u8],
    codes: &[u16],
    work: &mut [u8],
    sets: &mut [u64],
    index: &[u16],
    level: u8,
    lo: usize,
    hi: usize,
) -> bool
    requires lent { Lent 0 differences.now codes.now work.old sets.old index.now }
    requires hi_in_bounds { hi ≤ length differences.now }
    ensures { Indexed 0 codes.now index.now → Propagates 0 differences.now codes.now lo hi level work.old work.new sets.old sets.new result }
{
    for _ in 0..CELLS {
        let Some(k) = sets_table::take_lowest(sets, CHANGED) else {
            return true;
        };
        let from = (sets[CHANGED_ROWS + 2 * k] as usize).max(lo);
        let to = (sets[CHANGED_ROWS + 2 * k + 1] as usize).min(hi);
        if propagate_occurrences(
            differences,
            codes,
            work,
            sets,
            index,
            level,
            lo,
            hi,
            k,
            from,
            to,
        ) {} else {
            return false;
        }
    }
    true
}

// Looks at the clauses that the values set at this level at position k make shorter, in the rows from `from` to `to`.
fn propagate_occurrences(
    differences: &[u8],
    codes: &[u16],
    work: &mut [u8],
    sets: &mut [u64],
    index: &[u16],
    level: u8,
    lo: usize,
    hi: usize,
    k: usize,
    from: usize,
    to: usize,
) -> bool
    requires lent { Lent 0 differences.now codes.now work.old sets.old index.now }
    requires hi_in_bounds { (hi ≤ length differences.now) × (k < max_unknowns) × (lo ≤ from) × (to ≤ hi) }
    ensures { Indexed 0 codes.now index.now → Propagates 0 differences.now codes.now lo hi level work.old work.new sets.old sets.new result }
{
    for i in from..to {
        if search_evaluation::level(work, i, k) == level {
            let list = list_of(index, falsified(cell::value(work, i, k), k));
            if propagate_list(
                differences,
                codes,
                work,
                sets,
                index,
                list,
                level,
                lo,
                hi,
                from,
                i,
            ) {} else {
                return false;
            }
        }
    }
    true
}

// The code of the literal that is false by the value at position k.
fn falsified(value: bool, k: usize) -> usize
    requires { k < max_unknowns }
    ensures { (2 ≤ result) × (result ≤ last_code) }
{
    if value { 2 * k + 3 } else { 2 * k + 2 }
}

// Looks at the clauses of the list in row i, but for those that repeat the row before it.
fn propagate_list(
    differences: &[u8],
    codes: &[u16],
    work: &mut [u8],
    sets: &mut [u64],
    index: &[u16],
    list: &[u16],
    level: u8,
    lo: usize,
    hi: usize,
    from: usize,
    i: usize,
) -> bool
    requires lent { Lent 0 differences.now codes.now work.old sets.old index.now }
    requires lo_le_i { (lo ≤ i) × (i < hi) × (hi ≤ length differences.now) }
    ensures { Starts codes.now list.now 0 (length list.now) → Propagates 0 differences.now codes.now lo hi level work.old work.new sets.old sets.new result }
{
    let agreement = search_groups::agreement(differences, from, i);
    for place in list {
        let start = usize::from(*place);
        if search_groups::repeats(codes, start, agreement) {} else {
            if propagate_clause(
                differences,
                codes,
                work,
                sets,
                index,
                level,
                lo,
                hi,
                i,
                start,
            ) {} else {
                return false;
            }
        }
    }
    true
}

// Looks at the clause at `start` in row i. False: it is false there, and the set at CONFLICT says by which decisions.
fn propagate_clause(
    differences: &[u8],
    codes: &[u16],
    work: &mut [u8],
    sets: &mut [u64],
    index: &[u16],
    level: u8,
    lo: usize,
    hi: usize,
    i: usize,
    start: usize,
) -> bool
    requires lent { Lent 0 differences.now codes.now work.old sets.old index.now }
    requires lo_le_i { (lo ≤ i) × (i < hi) × (hi ≤ length differences.now) }
    ensures { Begins codes.now start → Propagates 0 differences.now codes.now lo hi level work.old work.new sets.old sets.new result }
{
    let c = search_evaluation::look(codes, work, i, start);
    if c == 1 {
        return true;
    }
    if c == 0 {
        sets_table::note_conflict(sets, i);
        search_sets::empty(sets, CONFLICT);
        search_sets::add_reasons(codes, sets, start, CONFLICT);
        reasons::shorten(codes, work, sets, index, i, level);
        return false;
    }
    assign(
        differences,
        codes,
        work,
        sets,
        index,
        level,
        lo,
        hi,
        i,
        start,
        c,
    );
    true
}

// Sets the one open literal, of code c, of the clause at `start` in all rows of the group that have row i's copy.
fn assign(
    differences: &[u8],
    codes: &[u16],
    work: &mut [u8],
    sets: &mut [u64],
    index: &[u16],
    level: u8,
    lo: usize,
    hi: usize,
    i: usize,
    start: usize,
    c: usize,
)
    requires lent { Lent 0 differences.now codes.now work.old sets.old index.now }
    requires lo_le_i { (lo ≤ i) × (i < hi) × (hi ≤ length differences.now) × (2 ≤ c) × (position c < max_unknowns) }
    ensures { Begins codes.now start → Looked codes.now work.old i start c → Propagates 0 differences.now codes.now lo hi level work.old work.new sets.old sets.new true }
{
    let k = literal_position(c);
    search_sets::add_reasons(codes, sets, start, k);
    let from = search_groups::copy_start(differences, k, lo, i);
    let to = search_groups::copy_end(differences, k, i, hi);
    search_cells::set_rows(work, k, from, to, level, c % 2 == 0);
    note(sets, k, from, to);
}

// Position k has changes in the rows from lo to hi.
fn note(sets: &mut [u64], k: usize, lo: usize, hi: usize)
    requires { (length sets.old ≡ sets_size) × (k < max_unknowns) }
    ensures { SetsKept sets.old sets.new }
{
    let at = CHANGED_ROWS + 2 * k;
    let mut from = lo;
    let mut to = hi;
    if search_sets::has(sets, CHANGED, k) {
        from = (sets[at] as usize).min(lo);
        to = (sets[at + 1] as usize).max(hi);
    }
    search_sets::add(sets, CHANGED, k);
    sets[at] = from as u64;
    sets[at + 1] = to as u64;
}
