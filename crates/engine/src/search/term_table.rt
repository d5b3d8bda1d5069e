// The universal side's clauses by their own literals, the universal ones. Clauses with the same own literals are one term; a term is open in
// a row if one of its clauses has no literal that the row's given values make true. The row is satisfied if every open term has a true own literal.
// The terms are listed once a formula, the open rows are found once a search, 64 rows at a time.
// Every public function is total. Which term a clause gets is a hint: `list` tests it before anything rests on it.
//
//   terms, 16-bit numbers                                     opened, words
//   0 .. 2047      start of the clause that is listed j-th    4 t + w   bit l: row 64 w + l, in which term t is open; t = 63: the others
//   2048 .. 4095   ROOM + j: its term                         256 + t   NAMES + t: the clause that stands for term t
//   4096 .. 4158   FIRSTS + t: a clause of term t
//   4160           LISTED: how many clauses are listed
ghost use Rattle.std.specs.Prelude.{◌≡◌, true, false, ◌⊎◌, ℕ, ◌+◌, ◌*◌, ◌≤◌, ◌<◌, length, set, drop};
ghost use Rattle.formula.specs.Formula.{max_unknowns, max_clauses, max_entries, max_rows, work_size};
ghost use Rattle.formula.specs.Lists.{Some};
ghost use Rattle.codes.specs.Codes.{last_code, row_position};
ghost use Rattle.codes.specs.Private.Clauses.{clause_of, Begins, Coded};
ghost use Rattle.engine.specs.Private.TermTables.{others, row_words, table_size, open_size, bit};
ghost use Rattle.engine.specs.Private.Terms.{own, OwnWithin, HasTerm, Listed, ListedIn, SizesFit, OpenedIn};
ghost use Rattle.engine.specs.Private.TermSteps.{Past, EntryMade, Closed, Named, Joined, Told, RowsLooked, Remaining, WordFilled, Filled};

use super::clauses::{begins, position};
use codes::LAST_CODE;
use formula::Formula;

// The place of the clauses that have no term of their own: without own literals, behind the last term, or behind the room of the table.
pub(crate) const OTHERS: usize = 63;

// Words of 64 rows.
pub(crate) const ACROSS: usize = Formula::ROWS / 64;

// In the table of terms: the clauses' terms behind their starts, a clause for each term, and the number of clauses.
const ROOM: usize = Formula::CLAUSES;

const FIRSTS: usize = 2 * ROOM;

const LISTED: usize = FIRSTS + OTHERS + 1;

pub(crate) const TABLE: usize = LISTED + 1;

// The place of the others, as it stands there.
const REST: u16 = OTHERS as u16;

// No clause begins there.
const NONE: u16 = 65_535;

// In the table of open rows: the first clauses behind the rows.
pub(crate) const NAMES: usize = ACROSS * (OTHERS + 1);

pub(crate) const WORDS: usize = NAMES + OTHERS + 1;

// Of 64 rows those in which an unknown is true, and those in which it is false.
#[derive(Clone, Copy)]
struct Values {
    on: u64,
    off: u64,
}

// Lists the clauses with their terms.
pub(crate) fn list(kinds: &[u8], codes: &[u16], terms: &mut [u16])
    ensures { ListedIn kinds.now codes.now terms.new }
{
    if terms.len() != TABLE || Formula::ENTRIES < codes.len() {
        return;
    }
    classify(kinds, codes, terms);
    enter_clauses(kinds, codes, terms);
}

// Finds the rows below the count in which each term is open.
pub(crate) fn open(
    kinds: &[u8],
    codes: &[u16],
    terms: &[u16],
    work: &[u8],
    count: usize,
    opened: &mut [u64],
)
    ensures { OpenedIn kinds.now codes.now terms.now work.now count opened.new }
{
    if !sizes_fit(kinds.len(), terms.len(), work.len(), count, opened.len()) {
        return;
    }
    opened.fill(0);
    let mut misses = [0u64; LAST_CODE + 1];
    fill(kinds, codes, terms, work, count, &mut misses, opened);
    name(terms, opened);
}

// For each code the word of the terms whose own literals have it: a hint.
pub(crate) fn holds(kinds: &[u8], codes: &[u16], terms: &[u16], words: &mut [u64])
    ensures { length words.new ≡ length words.old }
{
    if terms.len() != TABLE {
        return;
    }
    words.fill(0);
    for t in 0..OTHERS {
        hold(kinds, codes, words, usize::from(terms[FIRSTS + t]), t);
    }
}

// For each row below the count the word of its open terms, the last bit for the others: a hint.
pub(crate) fn by_row(opened: &[u64], count: usize, words: &mut [u64])
    ensures { length words.new ≡ length words.old }
{
    if opened.len() != WORDS {
        return;
    }
    words.fill(0);
    for p in 0..NAMES {
        spread(opened[p], p / ACROSS, 64 * (p % ACROSS), count, words);
    }
}

// ---- the terms of a formula

// Gives each clause a term, as a hint.
fn classify(kinds: &[u8], codes: &[u16], terms: &mut [u16])
    requires { (length terms.old ≡ table_size) × (length codes.now ≤ max_entries) }
{
    terms[FIRSTS..FIRSTS + OTHERS].fill(NONE);
    let mut start = 0;
    for j in 0..ROOM {
        if codes.len() <= start {
            return;
        }
        give(kinds, codes, terms, j, start);
        start = past(codes, start);
    }
}

// The last clause of a term stands for it.
fn give(kinds: &[u8], codes: &[u16], terms: &mut [u16], j: usize, start: usize)
    requires { (length terms.old ≡ table_size) × (j < max_clauses) × (start < max_entries) }
{
    let t = term(kinds, codes, terms, start);
    terms[ROOM + j] = t as u16;
    terms[FIRSTS + t] = start as u16;
}

// The term with the same own literals as the clause at start, or one that is free.
fn term(kinds: &[u8], codes: &[u16], terms: &[u16], start: usize) -> usize
    requires { length terms.now ≡ table_size }
    ensures { result ≤ others }
{
    if within(kinds, codes, start, codes.len()) {
        return OTHERS; // no own literal
    }
    for t in 0..OTHERS {
        let first = usize::from(terms[FIRSTS + t]);
        if codes.len() <= first || same(kinds, codes, first, start) {
            return t;
        }
    }
    OTHERS
}

fn same(kinds: &[u8], codes: &[u16], a: usize, b: usize) -> bool {
    within(kinds, codes, a, b) && within(kinds, codes, b, a)
}

// Whether every own literal of the clause at a is one of the clause at b.
fn within(kinds: &[u8], codes: &[u16], a: usize, b: usize) -> bool
    ensures { result ≡ true → OwnWithin kinds.now codes.now a b }
{
    for e in a..codes.len() {
        let c = usize::from(codes[e]);
        if c == 0 {
            return true;
        }
        if is_own(kinds, c) && !names(codes, b, c) {
            return false;
        }
    }
    true
}

// Whether the clause at start has the code c.
fn names(codes: &[u16], start: usize, c: usize) -> bool
    ensures { result ≡ true → Some (λ d. d ≡ c) (clause_of (drop start codes.now)) }
{
    for e in start..codes.len() {
        let d = usize::from(codes[e]);
        if d == 0 {
            return false;
        }
        if d == c {
            return true;
        }
    }
    false
}

fn is_own(kinds: &[u8], c: usize) -> bool
    ensures { result ≡ own kinds.now c }
{
    let k = position(c);
    k < kinds.len() && kinds[k] == 1
}

// Lists every clause's start, and its term if the clause that stands for it shows that. An empty clause among the others stands for those
// that there is no room for.
fn enter_clauses(kinds: &[u8], codes: &[u16], terms: &mut [u16])
    requires { (length terms.old ≡ table_size) × (length codes.now ≤ max_entries) }
    ensures { Listed kinds.now codes.now terms.new }
{
    // Kept: (4) the step goes from clause to clause; by `for j in 0..ROOM` the count would be stored at two places, inside the loop and behind it.
    let mut j = 0;
    let mut start = 0;
    while start < codes.len() {
        if j == ROOM {
            close(terms, ROOM - 1, codes.len());
            return;
        }
        enter(kinds, codes, terms, j, start);
        j += 1;
        start = past(codes, start);
    }
    terms[LISTED] = j as u16;
}

// The last entry is that of the empty clause at the end.
fn close(terms: &mut [u16], last: usize, end: usize)
    requires { (length terms.old ≡ table_size) × (last < max_clauses) × (end ≤ max_entries) }
    ensures { Closed last end terms.new }
{
    terms[last] = end as u16;
    terms[ROOM + last] = REST;
    terms[LISTED] = (last + 1) as u16;
}

fn enter(kinds: &[u8], codes: &[u16], terms: &mut [u16], j: usize, start: usize)
    requires { (length terms.old ≡ table_size) × (j < max_clauses) × (start < max_entries) }
    ensures { EntryMade kinds.now codes.now j start terms.old terms.new }
{
    let t = shown(kinds, codes, terms, usize::from(terms[ROOM + j]), start);
    terms[j] = start as u16;
    terms[ROOM + j] = t as u16;
}

// The term t, if the own literals of its first clause are in the clause at start; else the place of the others.
fn shown(kinds: &[u8], codes: &[u16], terms: &[u16], t: usize, start: usize) -> usize
    requires { length terms.now ≡ table_size }
    ensures { HasTerm kinds.now codes.now terms.now result start }
{
    if t < OTHERS {
        let first = usize::from(terms[FIRSTS + t]);
        if first < codes.len() && begins(codes, first) && within(kinds, codes, first, start) {
            return t;
        }
    }
    OTHERS
}

// The entry behind the clause at start.
fn past(codes: &[u16], start: usize) -> usize
    requires { start < length codes.now }
    ensures { Past codes.now start result }
{
    for e in start..codes.len() {
        if codes[e] == 0 {
            return e + 1;
        }
    }
    codes.len()
}

// ---- the open rows

fn sizes_fit(kinds: usize, terms: usize, area: usize, count: usize, opened: usize) -> bool
    ensures { (result ≡ true → SizesFit kinds terms area count opened) × (result ≡ false → SizesFit kinds terms area count opened → ⊥) }
{
    terms == TABLE
        && area == Formula::WORK
        && opened == WORDS
        && kinds <= Formula::UNKNOWNS
        && count <= Formula::ROWS
}

// The clauses that stand for the terms.
fn name(terms: &[u16], opened: &mut [u64])
    requires { (length terms.now ≡ table_size) × (length opened.old ≡ open_size) }
    ensures { Named terms.now others opened.old opened.new }
{
    for t in 0..OTHERS {
        opened[NAMES + t] = u64::from(terms[FIRSTS + t]);
    }
}

// The rows, 64 at a time.
fn fill(
    kinds: &[u8],
    codes: &[u16],
    terms: &[u16],
    work: &[u8],
    count: usize,
    misses: &mut [u64],
    opened: &mut [u64],
)
    requires kinds_len_bound { (length kinds.now ≤ max_unknowns) × (length terms.now ≡ table_size) × (length work.now ≡ work_size) × (count ≤ max_rows) }
    requires misses_len { (length misses.old ≡ last_code + 1) × (length opened.old ≡ open_size) }
    ensures { Coded (length kinds.now) codes.now → Filled kinds.now codes.now terms.now work.now count opened.new }
{
    for w in 0..count.div_ceil(64) {
        let all = look(kinds, work, misses, w, count);
        fill_word(codes, terms, misses, opened, w, all);
    }
}

// For each code of a given unknown the rows of word w in which its literal is not true; all for an own one. The word of these rows is returned.
fn look(kinds: &[u8], work: &[u8], misses: &mut [u64], w: usize, count: usize) -> u64
    requires { (length kinds.now ≤ max_unknowns) × (length work.now ≡ work_size) × (length misses.old ≡ last_code + 1) × (64 * w < count) × (count ≤ max_rows) }
    ensures { RowsLooked kinds.now work.now w count result misses.new }
{
    let rows = (count - 64 * w).min(64);
    for (k, kind) in kinds.iter().enumerate() {
        let column = column(*kind, work, k, 64 * w, rows);
        put(misses, k, column.off, column.on);
    }
    ones(rows)
}

fn put(misses: &mut [u64], k: usize, positive: u64, negative: u64)
    requires { (length misses.old ≡ last_code + 1) × (k < max_unknowns) }
    ensures { misses.new ≡ set (set misses.old (2 * k + 2) positive) (2 * k + 3) negative }
{
    misses[2 * k + 2] = positive;
    misses[2 * k + 3] = negative;
}

// The values of position k.
fn column(kind: u8, work: &[u8], k: usize, from: usize, rows: usize) -> Values
    requires { (length work.now ≡ work_size) × (k < max_unknowns) × (rows ≤ 64) × (from + rows ≤ max_rows) }
    ensures { Told kind work.now k from rows result.on result.off }
{
    if kind == 1 {
        return Values {
            on: u64::MAX,
            off: u64::MAX,
        };
    }
    let mut on = 0u64;
    let mut off = 0u64;
    for l in 0..rows {
        let value = u64::from(work[search_cells::FLAGS + (Formula::UNKNOWNS * (from + l) + k)] % 2);
        on |= value << l;
        off |= (1 - value) << l;
    }
    Values { on, off }
}

// Every listed clause in the rows of word w.
fn fill_word(codes: &[u16], terms: &[u16], misses: &[u64], opened: &mut [u64], w: usize, all: u64)
    requires { (length terms.now ≡ table_size) × (length misses.now ≡ last_code + 1) × (length opened.old ≡ open_size) × (w < row_words) }
    ensures { WordFilled codes.now terms.now misses.now w all opened.old opened.new }
{
    let listed = usize::from(terms[LISTED]).min(ROOM);
    for j in 0..listed {
        let t = usize::from(terms[ROOM + j]) % (OTHERS + 1);
        let left = all & (all ^ opened[ACROSS * t + w]);
        unite(
            opened,
            t,
            w,
            remaining(codes, misses, usize::from(terms[j]), left),
        );
    }
}

// The place t is open in more rows of word w.
fn unite(opened: &mut [u64], t: usize, w: usize, rows: u64)
    requires { (length opened.old ≡ open_size) × (t ≤ others) × (w < row_words) }
    ensures { Joined (row_words * t + w) rows opened.old opened.new }
{
    let at = ACROSS * t + w;
    opened[at] |= rows;
}

// Of the rows those in which the clause at start has no given literal that is true.
fn remaining(codes: &[u16], misses: &[u64], start: usize, rows: u64) -> u64
    requires { length misses.now ≡ last_code + 1 }
    ensures { Remaining codes.now misses.now start rows result }
{
    let mut left = rows;
    for e in start..codes.len() {
        if left == 0 {
            return left;
        }
        let c = usize::from(codes[e]);
        if c == 0 {
            return left;
        }
        if c <= LAST_CODE {
            left &= misses[c];
        }
    }
    left
}

// A word whose lowest k bits are ones.
fn ones(k: usize) -> u64
    requires { k ≤ 64 }
    ensures { (l : ℕ) → l < k → bit result l ≡ true }
{
    if k < 64 { (1u64 << k) - 1 } else { u64::MAX }
}

// ---- hints

fn hold(kinds: &[u8], codes: &[u16], words: &mut [u64], start: usize, t: usize)
    requires { t < others }
{
    for e in start..codes.len() {
        let c = usize::from(codes[e]);
        if c == 0 {
            return;
        }
        if is_own(kinds, c) {
            join(words, c, t);
        }
    }
}

// Bit t of word p, if there is one.
fn join(words: &mut [u64], p: usize, t: usize)
    requires { t ≤ others }
{
    if p < words.len() {
        words[p] |= 1u64 << t;
    }
}

fn spread(rows: u64, t: usize, from: usize, count: usize, words: &mut [u64])
    requires { (t ≤ others) × (from < max_rows) }
{
    let mut left = rows;
    while left != 0 {
        let i = from + left.trailing_zeros() as usize;
        left &= left - 1;
        if i < count {
            join(words, i, t);
        }
    }
}
