// A shorter reason for a conflict of one row: of the decisions that gave the row its values, a set under which no values of the other unknowns
// make every clause true. The row is searched alone, in a table of its own, with the given values and some of the decisions: its open positions
// are decided from the last one backwards, each value has the set of decisions by which it was reached, and a false clause turns the last
// decision of its set round (unit propagation and backjumping). A number of steps bounds the work.
// Promised is that a set that is found is a reason, for whatever is lent. When one is found is not: what is tried, and when it is given up, is
// a hint, and so is the index. Which set the search goes on with is left to it.
ghost use Rattle.std.specs.Prelude.{◌≡◌, ◌⊎◌, true, false, List, ℕ, ◌+◌, ◌≤◌, ◌<◌, length, IfSome};
ghost use Rattle.formula.specs.Formula.{max_unknowns, max_rows, work_size};
ghost use Rattle.codes.specs.Codes.{last_code, row_position};
ghost use Rattle.codes.specs.Private.Clauses.{Begins, Coded};
ghost use Rattle.index.specs.Index.{index_size};
ghost use Rattle.search_cells.specs.Cells.{cells};
ghost use Rattle.search_sets.specs.Sets.{sets_size};
ghost use Rattle.search_sets.specs.Private.Masks.{set_at, SetsKept};
ghost use Rattle.engine.specs.Private.Reasons.{Fixed, IsReason, Shorter};
ghost use Rattle.engine.specs.Private.Held.{IsFalse, FalseBut, LineSet, LineOpened, Held, Moves, StepsOn, Same, Inheriting, Inherited, Lent};

use super::cell;
use super::clauses::{begins, position};
use super::sets_table::{CONFLICT, DECISIONS, DEPTH, HIGH, LOW, QUEUE, QUEUED};
use codes::LAST_CODE;
use formula::Formula;

// A set of decisions, two words, if one was found, and the steps that are left.
#[derive(Clone, Copy)]
pub struct Reason {
    pub found: bool,
    pub low: u64,
    pub high: u64,
    pub left: usize,
}

// There are so many levels, as a number of that table.
const LEVELS: u64 = Formula::UNKNOWNS as u64;

// The code under which the index lists every clause.
const ANY: usize = 1;

// How a search of the row ends, and the steps that are left.
#[derive(Clone, Copy)]
struct End {
    refuted: bool,
    left: usize,
}

// What a look at a clause shows: its literals are all false, or all but one, an open one of that code.
#[derive(Clone, Copy)]
enum Look {
    Neither,
    False,
    Unit(usize),
}

// A reason for the conflict of row i among the decisions before position k, in at most that many steps. What the row was given, or reached by
// no decision, is what has a value and an empty set.
pub(crate) fn shorter(
    codes: &[u16],
    index: &[u16],
    work: &[u8],
    sets: &[u64],
    i: usize,
    k: usize,
    steps: usize,
) -> Reason
    ensures { Shorter codes.now work.now sets.now i k result.found result.low result.high }
{
    if !sizes_fit(index.len(), work.len(), sets.len(), i, k) {
        return Reason {
            found: false,
            low: 0,
            high: 0,
            left: steps,
        };
    }
    let mut line = [0u16; Formula::UNKNOWNS];
    let mut own = [0u64; search_sets::WORDS];
    narrow(codes, index, work, sets, &mut line, &mut own, i, k, steps)
}

fn sizes_fit(index: usize, area: usize, sets: usize, i: usize, k: usize) -> bool
    ensures { result ≡ true → (index ≡ index_size) × (area ≡ work_size) × (sets ≡ sets_size) × (i < max_rows) × (k ≤ max_unknowns) }
{
    index == index::SIZE
        && area == Formula::WORK
        && sets == search_sets::WORDS
        && i < Formula::ROWS
        && k <= Formula::UNKNOWNS
}

// The decisions before the first of the positions up to k that do, by halves: a search that fails says that more are wanted.
fn narrow(
    codes: &[u16],
    index: &[u16],
    work: &[u8],
    sets: &[u64],
    line: &mut [u16],
    own: &mut [u64],
    i: usize,
    k: usize,
    steps: usize,
) -> Reason
    requires { Lent index.now work.now sets.now line.old own.old i × (k ≤ max_unknowns) }
    ensures { Shorter codes.now work.now sets.now i k result.found result.low result.high }
{
    let mut found = false;
    let mut low: u64 = 0;
    let mut high: u64 = 0;
    let mut left = steps;
    let mut from = 0;
    let mut to = k;
    while from < to {
        let m = middle(from, to);
        let end = probe(codes, index, work, sets, line, own, i, m, left);
        left = end.left;
        if end.refuted {
            found = true;
            low = own[LOW];
            high = own[HIGH];
            to = m;
        } else {
            from = m + 1;
        }
    }
    Reason {
        found,
        low,
        high,
        left,
    }
}

// None at first: a row may have no model at all.
fn middle(from: usize, to: usize) -> usize
    requires { from < to }
    ensures { (from ≤ result) × (result < to) }
{
    if from == 0 {
        return 0;
    }
    from + (to - from) / 2
}

// Searches row i alone under its decisions before position k. Refuted: there is no model, and the set at CONFLICT says by which of them.
fn probe(
    codes: &[u16],
    index: &[u16],
    work: &[u8],
    sets: &[u64],
    line: &mut [u16],
    own: &mut [u64],
    i: usize,
    k: usize,
    steps: usize,
) -> End
    requires { Lent index.now work.now sets.now line.old own.old i × (k ≤ max_unknowns) }
    ensures { Coded max_unknowns codes.now → result.refuted ≡ true → IsReason codes.now work.now sets.now i k (set_at own.new max_unknowns) }
{
    begin(work, sets, line, own, i, k);
    let mut going = propagate_all(codes, index, line, own);
    for left in (0..steps).rev() {
        let Some(p) = next(index, line, own, going) else {
            return End {
                refuted: is_reason(own, going, k),
                left,
            };
        };
        going = step(codes, index, work, line, own, i, going, p);
    }
    End {
        refuted: false,
        left: 0,
    }
}

// Opens all positions, and then sets those that are given and those that were decided before position k.
fn begin(work: &[u8], sets: &[u64], line: &mut [u16], own: &mut [u64], i: usize, k: usize)
    requires { (length work.now ≡ work_size) × (length sets.now ≡ sets_size) × (length line.old ≡ max_unknowns) × (length own.old ≡ sets_size)
        × (i < max_rows) }
    ensures { (codes : List ℕ) → Held codes work.now sets.now i line.new own.new }
{
    own[QUEUED] = 0;
    own[DEPTH] = 0;
    line.fill(0);
    for p in 0..Formula::UNKNOWNS {
        assume(work, sets, line, own, i, k, p);
    }
}

fn assume(
    work: &[u8],
    sets: &[u64],
    line: &mut [u16],
    own: &mut [u64],
    i: usize,
    k: usize,
    p: usize,
)
    requires { (length work.now ≡ work_size) × (length sets.now ≡ sets_size) × (length line.old ≡ max_unknowns) × (length own.old ≡ sets_size)
        × (i < max_rows) × (p < max_unknowns) }
    ensures { (codes : List ℕ) → Held codes work.now sets.now i line.old own.old → Held codes work.now sets.now i line.new own.new }
{
    if is_fixed(work, sets, i, p) {
        search_sets::empty(own, p);
        set(line, p, 1, cell::value(work, i, p));
        return;
    }
    if p < k && is_decided(work, i, p) {
        put(work, line, own, i, p, 1);
    }
}

fn is_fixed(work: &[u8], sets: &[u64], i: usize, p: usize) -> bool
    requires { (length work.now ≡ work_size) × (length sets.now ≡ sets_size) × (i < max_rows) × (p < max_unknowns) }
    ensures { result ≡ true → Fixed work.now sets.now i p }
{
    sets[2 * p] == 0 && sets[2 * p + 1] == 0 && 0 < search_evaluation::level(work, i, p)
}

fn is_decided(work: &[u8], i: usize, p: usize) -> bool
    requires { p < max_unknowns }
{
    usize::from(search_evaluation::level(work, i, p)) == p + 2
}

// Position p gets the row's value, as a decision.
fn put(work: &[u8], line: &mut [u16], own: &mut [u64], i: usize, p: usize, level: u16)
    requires { (length work.now ≡ work_size) × (length line.old ≡ max_unknowns) × (length own.old ≡ sets_size) × (i < max_rows) × (p < max_unknowns) }
    ensures { (codes s : List ℕ) → Held codes work.now s i line.old own.old → Held codes work.now s i line.new own.new }
{
    search_sets::empty(own, p);
    search_sets::add(own, p, p);
    set(line, p, level, cell::value(work, i, p));
}

// Looks at every clause, and at what follows. False: one is false, and the set at CONFLICT says by which decisions.
fn propagate_all(codes: &[u16], index: &[u16], line: &mut [u16], own: &mut [u64]) -> bool
    requires { (length index.now ≡ index_size) × (length line.old ≡ max_unknowns) × (length own.old ≡ sets_size) }
    ensures { Moves codes.now line.old line.new own.old own.new result }
{
    propagate_occurrences(codes, index, line, own, 1, ANY) && propagate(codes, index, line, own, 1)
}

// Looks at the clauses of the positions in the queue, and of those that follow.
fn propagate(codes: &[u16], index: &[u16], line: &mut [u16], own: &mut [u64], level: u16) -> bool
    requires { (length index.now ≡ index_size) × (length line.old ≡ max_unknowns) × (length own.old ≡ sets_size) }
    ensures { Moves codes.now line.old line.new own.old own.new result }
{
    for h in 0..Formula::UNKNOWNS {
        if own[QUEUED] <= h as u64 {
            return true;
        }
        let p = own[QUEUE + h] as usize % Formula::UNKNOWNS;
        if !propagate_occurrences(codes, index, line, own, level, falsified(line, p)) {
            return false;
        }
    }
    true
}

// The code of the literal that is false by the value at position p.
fn falsified(line: &[u16], p: usize) -> usize
    requires { (length line.now ≡ max_unknowns) × (p < max_unknowns) }
    ensures { result ≤ last_code }
{
    if line[p] % 2 == 1 {
        2 * p + 3
    } else {
        2 * p + 2
    }
}

// Looks at the clauses with the code c.
fn propagate_occurrences(
    codes: &[u16],
    index: &[u16],
    line: &mut [u16],
    own: &mut [u64],
    level: u16,
    c: usize,
) -> bool
    requires { (length index.now ≡ index_size) × (length line.old ≡ max_unknowns) × (length own.old ≡ sets_size) × (c ≤ last_code) }
    ensures { Moves codes.now line.old line.new own.old own.new result }
{
    let end = usize::from(index[index::CODES + c]).min(index.len());
    for at in usize::from(index[c])..end {
        if !propagate_clause(codes, line, own, level, usize::from(index[at])) {
            return false;
        }
    }
    true
}

// Looks at the clause at `start`, if one begins there. False: it is false, and the set at CONFLICT says by which decisions.
fn propagate_clause(
    codes: &[u16],
    line: &mut [u16],
    own: &mut [u64],
    level: u16,
    start: usize,
) -> bool
    requires { (length line.old ≡ max_unknowns) × (length own.old ≡ sets_size) }
    ensures { Moves codes.now line.old line.new own.old own.new result }
{
    if !begins(codes, start) {
        return true;
    }
    match shown(codes, line, start) {
        Look::Neither => true,
        Look::False => {
            if !is_false_but(codes, line, start, 0) {
                return true;
            }
            search_sets::empty(own, CONFLICT);
            search_sets::add_reasons(codes, own, start, CONFLICT);
            false
        }
        Look::Unit(c) => {
            if is_false_but(codes, line, start, c) {
                assign(codes, line, own, level, start, c);
            }
            true
        }
    }
}

// What the clause at `start` shows. A hint.
fn shown(codes: &[u16], line: &[u16], start: usize) -> Look
    requires { length line.now ≡ max_unknowns }
{
    let mut shows = Look::False;
    for e in start..codes.len() {
        let c = usize::from(codes[e]);
        if c == 0 {
            return shows;
        }
        let x = usize::from(line[position(c)]);
        if x == 0 {
            if matches!(shows, Look::Unit(_)) {
                return Look::Neither; // a second open literal
            }
            shows = Look::Unit(c);
        } else if x % 2 != c % 2 {
            return Look::Neither; // a true literal
        }
    }
    Look::Neither
}

// Whether the clause at `start` has its end, and its literals are all false but those of code `but`; no literal has code 0.
fn is_false_but(codes: &[u16], line: &[u16], start: usize, but: usize) -> bool
    requires { length line.now ≡ max_unknowns }
    ensures { result ≡ true → FalseBut codes.now line.now start but }
{
    for e in start..codes.len() {
        let c = usize::from(codes[e]);
        if c == 0 {
            return true;
        }
        if !is_false_or(line, c, but) {
            return false;
        }
    }
    false
}

// Whether the literal of code c is false, or of code `but`.
fn is_false_or(line: &[u16], c: usize, but: usize) -> bool
    requires { length line.now ≡ max_unknowns }
    ensures { result ≡ true → (c ≡ but) ⊎ IsFalse line.now c }
{
    if c == but {
        return true;
    }
    let x = usize::from(line[position(c)]);
    x != 0 && x % 2 == c % 2
}

// Sets the one open literal, of code c, of the clause at `start`.
fn assign(codes: &[u16], line: &mut [u16], own: &mut [u64], level: u16, start: usize, c: usize)
    requires { (length line.old ≡ max_unknowns) × (length own.old ≡ sets_size) }
    ensures { Begins codes.now start → FalseBut codes.now line.old start c → Moves codes.now line.old line.new own.old own.new true }
{
    if c < 2 {
        return;
    }
    if LAST_CODE < c {
        return;
    }
    let p = position(c);
    if line[p] != 0 {
        return;
    }
    search_sets::empty(own, p);
    search_sets::add_reasons(codes, own, start, p);
    set(line, p, level, c % 2 == 0);
    enqueue(own, p);
}

// Sets position p: twice the level, and one more for true.
fn set(line: &mut [u16], p: usize, level: u16, value: bool)
    requires { (length line.old ≡ max_unknowns) × (p < max_unknowns) }
    ensures { LineSet p value line.old line.new }
{
    line[p] = 2 * (level % 256) + u16::from(value);
}

// Opens the positions whose level is over the bound.
fn open_above(line: &mut [u16], bound: u16)
    requires { length line.old ≡ max_unknowns }
    ensures { LineOpened line.old line.new }
{
    for x in line.iter_mut() {
        *x = within(*x, bound);
    }
}

fn within(x: u16, bound: u16) -> u16
    ensures { (result ≡ 0) ⊎ (result ≡ x) }
{
    if x / 2 <= bound { x } else { 0 }
}

// Position p goes into the queue: its clauses are to be looked at.
fn enqueue(own: &mut [u64], p: usize)
    requires { length own.old ≡ sets_size }
    ensures { SetsKept own.old own.new }
{
    let n = own[QUEUED] as usize;
    if n < Formula::UNKNOWNS {
        own[QUEUE + n] = p as u64;
        own[QUEUED] = n as u64 + 1;
    }
}

// It alone is in the queue.
fn enqueue_alone(own: &mut [u64], p: usize)
    requires { length own.old ≡ sets_size }
    ensures { SetsKept own.old own.new }
{
    own[QUEUED] = 0;
    enqueue(own, p);
}

// The position of the next step: the last open one that a clause names, or after a conflict the last decision that it was reached by.
fn next(index: &[u16], line: &[u16], own: &mut [u64], going: bool) -> Option<usize>
    requires { (length index.now ≡ index_size) × (length line.now ≡ max_unknowns) × (length own.old ≡ sets_size) }
    ensures inside { IfSome result (λ p. p < max_unknowns) }
    ensures same { Same own.old own.new }
{
    if going {
        open_position(index, line)
    } else {
        backjump_target(own)
    }
}

fn open_position(index: &[u16], line: &[u16]) -> Option<usize>
    requires { (length index.now ≡ index_size) × (length line.now ≡ max_unknowns) }
    ensures { IfSome result (λ p. p < max_unknowns) }
{
    for p in (0..Formula::UNKNOWNS).rev() {
        if line[p] == 0 && is_named(index, p) {
            return Some(p);
        }
    }
    None
}

// Whether a clause has a literal of position p.
fn is_named(index: &[u16], p: usize) -> bool
    requires { (length index.now ≡ index_size) × (p < max_unknowns) }
{
    let c = 2 * p + 2;
    index[c] < index[index::CODES + c] || index[c + 1] < index[index::CODES + c + 1]
}

// Takes back the decisions up to the last one that CONFLICT has.
fn backjump_target(own: &mut [u64]) -> Option<usize>
    requires { length own.old ≡ sets_size }
    ensures inside { IfSome result (λ p. p < max_unknowns) }
    ensures same { Same own.old own.new }
{
    let depth = own[DEPTH] as usize % (Formula::UNKNOWNS + 1);
    for d in (0..depth).rev() {
        let p = own[DECISIONS + d] as usize % Formula::UNKNOWNS;
        if search_sets::has(own, CONFLICT, p) {
            own[DEPTH] = d as u64;
            return Some(p);
        }
    }
    None
}

// Whether, after a conflict, CONFLICT has decisions before position k alone.
fn is_reason(own: &[u64], going: bool, k: usize) -> bool
    requires { length own.now ≡ sets_size }
    ensures { result ≡ true → (going ≡ false) × ((l : ℕ) → k ≤ l → l < max_unknowns → set_at own.now max_unknowns l ≡ false) }
{
    if going {
        return false;
    }
    for l in k..Formula::UNKNOWNS {
        if search_sets::has(own, CONFLICT, l) {
            return false;
        }
    }
    true
}

// Decides position p, or flips it after a conflict, and looks at what follows.
fn step(
    codes: &[u16],
    index: &[u16],
    work: &[u8],
    line: &mut [u16],
    own: &mut [u64],
    i: usize,
    going: bool,
    p: usize,
) -> bool
    requires { (length index.now ≡ index_size) × (length work.now ≡ work_size) × (length line.old ≡ max_unknowns) × (length own.old ≡ sets_size)
        × (i < max_rows) × (p < max_unknowns) }
    ensures { StepsOn codes.now work.now i line.old line.new own.old own.new going result }
{
    if going {
        decide(codes, index, work, line, own, i, p)
    } else {
        flip(codes, index, work, line, own, i, p)
    }
}

fn decide(
    codes: &[u16],
    index: &[u16],
    work: &[u8],
    line: &mut [u16],
    own: &mut [u64],
    i: usize,
    p: usize,
) -> bool
    requires { (length index.now ≡ index_size) × (length work.now ≡ work_size) × (length line.old ≡ max_unknowns) × (length own.old ≡ sets_size)
        × (i < max_rows) × (p < max_unknowns) }
    ensures { StepsOn codes.now work.now i line.old line.new own.old own.new true result }
{
    let level = new_level(own, p);
    put(work, line, own, i, p, level);
    enqueue_alone(own, p);
    propagate(codes, index, line, own, level)
}

// Notes the decision at position p; what is reached by it gets its level.
fn new_level(own: &mut [u64], p: usize) -> u16
    requires { length own.old ≡ sets_size }
    ensures { Same own.old own.new }
{
    let d = own[DEPTH] as usize % Formula::UNKNOWNS;
    own[DECISIONS + d] = p as u64;
    own[DEPTH] = d as u64 + 1;
    d as u16 + 2
}

// The other value at position p, reached by the decisions of CONFLICT without it.
fn flip(
    codes: &[u16],
    index: &[u16],
    work: &[u8],
    line: &mut [u16],
    own: &mut [u64],
    i: usize,
    p: usize,
) -> bool
    requires { (length index.now ≡ index_size) × (length work.now ≡ work_size) × (length line.old ≡ max_unknowns) × (length own.old ≡ sets_size)
        × (i < max_rows) × (p < max_unknowns) }
    ensures { StepsOn codes.now work.now i line.old line.new own.old own.new false result }
{
    let level = (own[DEPTH] % LEVELS) as u16 + 1;
    open_above(line, level);
    inherit(own, p);
    set(line, p, level, !cell::value(work, i, p));
    enqueue_alone(own, p);
    propagate(codes, index, line, own, level)
}

// The set at p becomes that at CONFLICT without the position p.
fn inherit(own: &mut [u64], p: usize)
    requires { (length own.old ≡ sets_size) × (p < max_unknowns) }
    ensures { Inherited p own.old own.new }
{
    search_sets::empty(own, p);
    for l in 0..Formula::UNKNOWNS {
        take(own, p, l);
    }
}

// The set at p takes in the position l if that at CONFLICT has it, and l is another.
fn take(own: &mut [u64], p: usize, l: usize)
    requires { (length own.old ≡ sets_size) × (p < max_unknowns) × (l < max_unknowns) }
    ensures { (o : List ℕ) → Inheriting p l o own.old → Inheriting p (l + 1) o own.new }
{
    if l == p {
        return;
    }
    if search_sets::has(own, CONFLICT, l) {
        search_sets::add(own, p, l);
    }
}
