// Rows on the universal side in which every clause is true, and with them no goal can be reached: each term that is open there has a true literal
// (see `term_table`). The hints of this side stand behind the sets (`sets_table`): for each row the clause that it watches, one without a true literal, and the
// terms that are open there; for each code the terms that have it; and for each position the terms that have a true literal by the decisions up to it.
// Every public function is total. Promised is that a row that is found satisfied is satisfied by the decisions of the set at CONFLICT, if the open terms that are
// lent are the row's, and that a clause that is found false is false; the sets of the positions stay. Which rows and clauses are looked at is not
// promised: nothing rests on hints.
ghost use Rattle.std.specs.Prelude.{◌≡◌, ◌≤◌, ◌<◌, ◌⊎◌, true, length, IfSome, Some};
ghost use Rattle.formula.specs.Formula.{max_unknowns, max_rows};
ghost use Rattle.engine.specs.Private.TermTables.{others, open_size, is_open, name_of};
ghost use Rattle.engine.specs.Private.Terms.{own};
ghost use Rattle.codes.specs.Codes.{last_code, row_position};
ghost use Rattle.codes.specs.Private.Clauses.{Begins};
ghost use Rattle.search_sets.specs.Sets.{sets_size};
ghost use Rattle.search_sets.specs.Private.Masks.{SetsKept};
ghost use Rattle.search_evaluation.specs.Evaluation.{look_at, satisfied_at};
ghost use Rattle.engine.specs.declared.search.satisfied_rows.Truth.TheVariants.{Given, At};
ghost use Rattle.engine.specs.Private.Satisfied.{IsGiven, IsOwn, OwnTrue, Checked, RowTold, RowLooked, RowReasons, TermsMet, TermPassed, TermMet, TakesIn, FalseFound};

use super::clauses::{begins, list_of, position};
use super::numbers::lowest;
use super::sets_table::{CONFLICT, HOLDS, LAST_CONFLICT, OPEN, TRUE, WATCHED};
use super::term_table;
use super::term_table::OTHERS;
use codes::LAST_CODE;
use formula::Formula;

// What makes a clause true, of the literals that were read: nothing, a given value, or that of the own position which was set at the lowest level.
#[derive(Clone, Copy)]
enum Truth {
    Missing,
    Given,
    At(usize),
}

// In a word of a row's open terms: the bit of the clauses of no term.
const NO_TERM: u64 = 9_223_372_036_854_775_808;

// The kind of an unknown whose value the rows do not give.
const UNIVERSAL: u8 = 1;

// Notes the terms that are open in each row below the count, and those that each code belongs to.
pub(crate) fn begin(
    kinds: &[u8],
    codes: &[u16],
    terms: &[u16],
    opened: &[u64],
    count: usize,
    sets: &mut [u64],
)
    ensures { SetsKept sets.old sets.new }
{
    if sets.len() == search_sets::WORDS {} else {
        return;
    }
    term_table::by_row(opened, count, &mut sets[OPEN..HOLDS]);
    term_table::holds(kinds, codes, terms, &mut sets[HOLDS..TRUE]);
}

// Whether each row below the count has a clause that is not satisfied before any decision. False: the set at CONFLICT says by which decisions one has none.
pub(crate) fn check_given(
    kinds: &[u8],
    codes: &[u16],
    work: &[u8],
    sets: &mut [u64],
    opened: &[u64],
    count: usize,
) -> bool
    ensures { Checked kinds.now codes.now opened.now work.now 0 count sets.old sets.new result }
{
    if sizes_fit(sets.len(), opened.len(), count) {} else {
        return true;
    }
    check_rows(kinds, codes, work, sets, opened, 0, 0, count)
}

// The same for each row from lo to hi after the decision at position k.
pub(crate) fn check(
    kinds: &[u8],
    codes: &[u16],
    work: &[u8],
    sets: &mut [u64],
    opened: &[u64],
    k: usize,
    lo: usize,
    hi: usize,
) -> bool
    ensures { Checked kinds.now codes.now opened.now work.now lo hi sets.old sets.new result }
{
    if sizes_fit(sets.len(), opened.len(), hi) {} else {
        return true;
    }
    let met = note_true(kinds, work, sets, k, lo);
    check_rows(kinds, codes, work, sets, opened, met, lo, hi)
}

// Whether the clause that row i watches, or another that may be false there, is false. False: nothing is known.
pub(crate) fn finds_false(
    codes: &[u16],
    work: &[u8],
    sets: &mut [u64],
    kinds: &[u8],
    index: &[u16],
    opened: &[u64],
    i: usize,
) -> bool
    ensures { FalseFound codes.now work.now i sets.old sets.new result }
{
    if sizes_fit(sets.len(), opened.len(), i) {} else {
        return false;
    }
    if i < Formula::ROWS {} else {
        return false;
    }
    if is_false(codes, work, i, watched(sets, i)) {
        return true;
    }
    let start = likely(codes, work, sets, kinds, index, opened, i);
    if is_false(codes, work, i, start) {
        sets[WATCHED + i] = start as u64;
        return true;
    }
    false
}

fn sizes_fit(size: usize, terms: usize, rows: usize) -> bool
    ensures { result ≡ true → (size ≡ sets_size) × (terms ≡ open_size) × (rows ≤ max_rows) }
{
    if size != search_sets::WORDS {
        return false;
    }
    if terms != term_table::WORDS {
        return false;
    }
    rows <= Formula::ROWS
}

// The terms that have a true literal by the decisions up to the one at position k, in the rows of row i's group.
fn note_true(kinds: &[u8], work: &[u8], sets: &mut [u64], k: usize, i: usize) -> u64
    requires { length sets.old ≡ sets_size }
    ensures { SetsKept sets.old sets.new }
{
    if k < Formula::UNKNOWNS {} else {
        return 0;
    }
    let met = sets[TRUE + decided_before(kinds, k)] | sets[HOLDS + true_code(work, i, k)];
    sets[TRUE + k + 1] = met;
    met
}

// One more than the last universal position before k; 0 if there is none.
fn decided_before(kinds: &[u8], k: usize) -> usize
    ensures { result ≤ k }
{
    for p in (0..k).rev() {
        if is_given(kinds, p) {} else {
            return p + 1;
        }
    }
    0
}

// The code of position k's literal that is true in row i.
fn true_code(work: &[u8], i: usize, k: usize) -> usize
    requires { k < max_unknowns }
    ensures { result ≤ last_code }
{
    if search_evaluation::satisfied(work, i, 2 * k + 2) {
        return 2 * k + 2;
    }
    2 * k + 3
}

// Whether each row from lo to hi has a clause that is not satisfied, where the terms `met` have a true literal.
fn check_rows(
    kinds: &[u8],
    codes: &[u16],
    work: &[u8],
    sets: &mut [u64],
    opened: &[u64],
    met: u64,
    lo: usize,
    hi: usize,
) -> bool
    requires { (length sets.old ≡ sets_size) × (length opened.now ≡ open_size) × (hi ≤ max_rows) }
    ensures { Checked kinds.now codes.now opened.now work.now lo hi sets.old sets.new result }
{
    for i in lo..hi {
        if row_satisfied(kinds, codes, work, sets, opened, met, i) {
            sets[LAST_CONFLICT] = i as u64 + 1;
            return false;
        }
    }
    true
}

// Whether every clause has a true literal in row i. True: the set at CONFLICT says by which decisions. An open term that is not met has a clause that is not satisfied.
fn row_satisfied(
    kinds: &[u8],
    codes: &[u16],
    work: &[u8],
    sets: &mut [u64],
    opened: &[u64],
    met: u64,
    i: usize,
) -> bool
    requires { (length sets.old ≡ sets_size) × (length opened.now ≡ open_size) × (i < max_rows) }
    ensures { RowTold kinds.now codes.now opened.now work.now i sets.old sets.new result }
{
    let left = sets[OPEN + i] & !met;
    if left == 0 {
        return satisfied_by_terms(kinds, codes, work, sets, opened, i);
    }
    if left == NO_TERM {
        return none_unsatisfied(kinds, codes, work, sets, i);
    }
    false
}

// The same by the terms that are open in row i, or else by reading all clauses.
fn satisfied_by_terms(
    kinds: &[u8],
    codes: &[u16],
    work: &[u8],
    sets: &mut [u64],
    opened: &[u64],
    i: usize,
) -> bool
    requires { (length sets.old ≡ sets_size) × (length opened.now ≡ open_size) × (i < max_rows) }
    ensures { RowTold kinds.now codes.now opened.now work.now i sets.old sets.new result }
{
    search_sets::empty(sets, CONFLICT);
    if terms_met(kinds, codes, work, sets, opened, i) {
        return true;
    }
    satisfied_by_clauses(kinds, codes, work, sets, i)
}

// Whether each term that is open in row i has a true own literal there, whose set is taken in at CONFLICT, and no clause of no term is open.
fn terms_met(
    kinds: &[u8],
    codes: &[u16],
    work: &[u8],
    sets: &mut [u64],
    opened: &[u64],
    i: usize,
) -> bool
    requires { (length sets.old ≡ sets_size) × (length opened.now ≡ open_size) × (i < max_rows) }
    ensures { TermsMet kinds.now codes.now opened.now work.now i sets.old sets.new result }
{
    for t in 0..OTHERS {
        if is_passed(kinds, codes, work, sets, opened, i, t) {} else {
            return false;
        }
    }
    if is_open(opened, OTHERS, i) {
        return false;
    }
    true
}

// The same of the term t alone.
fn is_passed(
    kinds: &[u8],
    codes: &[u16],
    work: &[u8],
    sets: &mut [u64],
    opened: &[u64],
    i: usize,
    t: usize,
) -> bool
    requires { (length sets.old ≡ sets_size) × (length opened.now ≡ open_size) × (i < max_rows) × (t < others) }
    ensures { TermPassed kinds.now codes.now opened.now work.now i t sets.old sets.new result }
{
    if is_open(opened, t, i) {
        return is_met(kinds, codes, work, sets, i, first(opened, t));
    }
    true
}

// Whether the place t is open in row i.
fn is_open(opened: &[u64], t: usize, i: usize) -> bool
    requires { (length opened.now ≡ open_size) × (t ≤ others) × (i < max_rows) }
    ensures { result ≡ is_open opened.now t i }
{
    (opened[term_table::ACROSS * t + i / 64] >> (i % 64)) % 2 == 1
}

// The start of the clause that stands for the term t.
fn first(opened: &[u64], t: usize) -> usize
    requires { (length opened.now ≡ open_size) × (t < others) }
    ensures { result ≡ name_of opened.now t }
{
    opened[term_table::NAMES + t] as usize
}

// Whether the clause at `start` has an own literal that is true in row i. True: the set of the earliest is taken in at CONFLICT.
fn is_met(
    kinds: &[u8],
    codes: &[u16],
    work: &[u8],
    sets: &mut [u64],
    i: usize,
    start: usize,
) -> bool
    requires { length sets.old ≡ sets_size }
    ensures { TermMet kinds.now codes.now work.now i start sets.old sets.new result }
{
    match earliest_own(kinds, codes, work, i, start) {
        Some(best) => {
            take_in(sets, best);
            true
        }
        None => false,
    }
}

// Of the own literals of the clause at `start` that are true in row i the position that was set at the lowest level.
fn earliest_own(kinds: &[u8], codes: &[u16], work: &[u8], i: usize, start: usize) -> Option<usize>
    ensures { IfSome result (λ p. OwnTrue kinds.now codes.now work.now i start p) }
{
    let mut best = None;
    for e in start..codes.len() {
        let c = usize::from(codes[e]);
        if c == 0 {
            return best;
        }
        best = earlier_own(kinds, work, i, best, c);
    }
    best
}

// The best position so far, or that of the literal of code c if it is own, true in row i and was set at a lower level.
fn earlier_own(kinds: &[u8], work: &[u8], i: usize, best: Option<usize>, c: usize) -> Option<usize>
    ensures { (result ≡ best) ⊎ ((result ≡ Some (row_position c)) × (own kinds.now c ≡ true) × (satisfied_at work.now i c ≡ true)) }
{
    let p = position(c);
    if is_own(kinds, p) {} else {
        return best;
    }
    if search_evaluation::satisfied(work, i, c) {} else {
        return best;
    }
    match best {
        Some(k) => Some(earlier(work, i, k, p)),
        None => Some(p),
    }
}

// The same by the clause that it watches, or another that is not satisfied.
fn none_unsatisfied(kinds: &[u8], codes: &[u16], work: &[u8], sets: &mut [u64], i: usize) -> bool
    requires { (length sets.old ≡ sets_size) × (i < max_rows) }
    ensures { RowLooked kinds.now codes.now work.now i sets.old sets.new result }
{
    if search_evaluation::unsatisfied(codes, work, i, watched(sets, i)) {
        return false;
    }
    let start = other_unsatisfied(codes, work, sets, i);
    if start < codes.len() {
        sets[WATCHED + i] = start as u64;
        return false;
    }
    if satisfied_by_clauses(kinds, codes, work, sets, i) {
        return true;
    }
    sets[WATCHED + i] = search_evaluation::next_unsatisfied(codes, work, i, 0) as u64;
    false
}

// The same by reading all clauses.
fn satisfied_by_clauses(
    kinds: &[u8],
    codes: &[u16],
    work: &[u8],
    sets: &mut [u64],
    i: usize,
) -> bool
    requires { length sets.old ≡ sets_size }
    ensures { RowLooked kinds.now codes.now work.now i sets.old sets.new result }
{
    search_sets::empty(sets, CONFLICT);
    add_reasons(kinds, codes, work, sets, i)
}

// The clause that row i watches.
fn watched(sets: &[u64], i: usize) -> usize
    requires { (length sets.now ≡ sets_size) × (i < max_rows) }
{
    sets[WATCHED + i] as usize
}

// The start of another clause without a true literal in row i: that of the row before or behind, or the next one from row i's on. At least
// the number of entries if there is none.
fn other_unsatisfied(codes: &[u16], work: &[u8], sets: &[u64], i: usize) -> usize
    requires { (length sets.now ≡ sets_size) × (i < max_rows) }
{
    if let Some(near) = near_unsatisfied(codes, work, sets, i) {
        return near;
    }
    search_evaluation::next_unsatisfied(codes, work, i, watched(sets, i))
}

// That of the row before or behind; none if both are satisfied in row i.
fn near_unsatisfied(codes: &[u16], work: &[u8], sets: &[u64], i: usize) -> Option<usize>
    requires { (length sets.now ≡ sets_size) × (i < max_rows) }
{
    if i > 0 {
        let before = watched(sets, i - 1);
        if search_evaluation::unsatisfied(codes, work, i, before) {
            return Some(before);
        }
    }
    if i + 1 < Formula::ROWS {
        let behind = watched(sets, i + 1);
        if search_evaluation::unsatisfied(codes, work, i, behind) {
            return Some(behind);
        }
    }
    None
}

// Where all cells of row i are set, the start of a clause that may be false there: that of the row before or behind, one with a literal of a term
// that is open and not met, or the next one from row i's on.
fn likely(
    codes: &[u16],
    work: &[u8],
    sets: &[u64],
    kinds: &[u8],
    index: &[u16],
    opened: &[u64],
    i: usize,
) -> usize
    requires { (length sets.now ≡ sets_size) × (length opened.now ≡ open_size) × (i < max_rows) }
{
    if let Some(near) = near_unsatisfied(codes, work, sets, i) {
        return near;
    }
    if let Some(t) = unmet_term(sets, kinds, i) {
        if let Some(c) = own_code(kinds, codes, first(opened, t)) {
            if let Some(listed) = unsatisfied_with(codes, work, index, i, c) {
                return listed;
            }
        }
    }
    search_evaluation::next_unsatisfied(codes, work, i, watched(sets, i))
}

// A term that is open in row i and has no true literal by all decisions.
fn unmet_term(sets: &[u64], kinds: &[u8], i: usize) -> Option<usize>
    requires { (length sets.now ≡ sets_size) × (i < max_rows) }
    ensures { IfSome result (λ t. t < others) }
{
    if kinds.len() <= Formula::UNKNOWNS {} else {
        return None;
    }
    let met = sets[TRUE + decided_before(kinds, kinds.len())];
    let t = lowest(sets[OPEN + i] & !met);
    if t < OTHERS { Some(t) } else { None }
}

// The first own literal of the clause at `start`.
fn own_code(kinds: &[u8], codes: &[u16], start: usize) -> Option<usize> {
    for e in start..codes.len() {
        let c = usize::from(codes[e]);
        if c == 0 {
            return None;
        }
        if is_own(kinds, position(c)) {
            return Some(c);
        }
    }
    None
}

// The start of a clause with the code c that has no true literal in row i, found through the index.
fn unsatisfied_with(
    codes: &[u16],
    work: &[u8],
    index: &[u16],
    i: usize,
    c: usize,
) -> Option<usize> {
    if index.len() != index::SIZE {
        return None;
    }
    if c > LAST_CODE {
        return None;
    }
    for place in list_of(index, c) {
        let start = usize::from(*place);
        if search_evaluation::unsatisfied(codes, work, i, start) {
            return Some(start);
        }
    }
    None
}

// Whether a clause begins at `start`, and all its literals are false in row i.
fn is_false(codes: &[u16], work: &[u8], i: usize, start: usize) -> bool
    ensures { result ≡ true → Begins codes.now start × (look_at codes.now work.now i start ≡ 0) }
{
    if begins(codes, start) {
        search_evaluation::look(codes, work, i, start) == 0
    } else {
        false
    }
}

// Unites, at CONFLICT, for each clause without a given true literal in row i the set of its earliest true one. False: a clause has no true literal.
fn add_reasons(kinds: &[u8], codes: &[u16], work: &[u8], sets: &mut [u64], i: usize) -> bool
    requires { length sets.old ≡ sets_size }
    ensures { RowReasons kinds.now codes.now work.now i sets.old sets.new result }
{
    let mut best = Truth::Missing;
    for code in codes {
        let c = usize::from(*code);
        if c == 0 {
            match best {
                Truth::Missing => return false,
                Truth::Given => {}
                Truth::At(p) => take_in(sets, p),
            }
            best = Truth::Missing;
        } else {
            best = better(kinds, work, i, best, c);
        }
    }
    true
}

// The set at CONFLICT takes in that of the position `best`.
fn take_in(sets: &mut [u64], best: usize)
    requires { (length sets.old ≡ sets_size) × (best < max_unknowns) }
    ensures { TakesIn best sets.old sets.new }
{
    search_sets::unite(sets, CONFLICT, best);
}

// The best so far, or the literal of code c if it is true in row i, and given or set at a lower level.
fn better(kinds: &[u8], work: &[u8], i: usize, best: Truth, c: usize) -> Truth
    ensures { (result ≡ best) ⊎ ((satisfied_at work.now i c ≡ true) × (((result ≡ Given) × IsGiven kinds.now (row_position c)) ⊎ (result ≡ At (row_position c)))) }
{
    if let Truth::Given = best {
        return best;
    }
    if search_evaluation::satisfied(work, i, c) {} else {
        return best;
    }
    let p = position(c);
    if is_given(kinds, p) {
        return Truth::Given;
    }
    match best {
        Truth::At(k) => Truth::At(earlier(work, i, k, p)),
        _ => Truth::At(p),
    }
}

// Of two positions the one that was set at the lower level.
fn earlier(work: &[u8], i: usize, k: usize, l: usize) -> usize
    ensures { (result ≡ l) ⊎ (result ≡ k) }
{
    if search_evaluation::level(work, i, k) <= search_evaluation::level(work, i, l) {
        return k;
    }
    l
}

// Whether the unknown at position p is universal.
fn is_own(kinds: &[u8], p: usize) -> bool
    ensures { result ≡ true → IsOwn kinds.now p }
{
    if p < kinds.len() {
        kinds[p] == UNIVERSAL
    } else {
        false
    }
}

// Whether the rows give the value at position p.
fn is_given(kinds: &[u8], p: usize) -> bool
    ensures { result ≡ true → IsGiven kinds.now p }
{
    if p < kinds.len() {
        kinds[p] != UNIVERSAL
    } else {
        false
    }
}
