// A table of codes with marks, as trimming keeps it: 512 is added to what is dropped, so that every entry keeps its place and every clause
// its name, the place of its first entry. Here stands what is read of one clause and what is dropped of one. Each function answers for
// every table and every place; which clauses are looked at, and why, is left to `trimming`.
#![tactic(auto)]

ghost use Rattle.std.specs.Prelude.{◌≡◌, ◌+◌, ◌<◌, ◌++◌, length, take, drop};
ghost use Rattle.formula.specs.Causes.{any};
ghost use Rattle.codes.specs.Codes.{last_code, opposite as code_opposite};
ghost use Rattle.trimming_marks.specs.Marks.{ends, first_clause, first_length, is_universal as universal_code, marked as marked_entry, mark_clause};
ghost use Rattle.trimming_marks.specs.Marks.{always_true, reducible_from, raised as raised_by, only as only_left, unit as unit_code, noted_one, noted};
ghost use Rattle.trimming_marks.specs.Marks.{noted_clash};

use codes::LAST_CODE;

// How many codes there are, with 0 and 1.
pub const CODES: usize = LAST_CODE + 1;

// A byte for each of them.
pub type Seen = [u8; CODES];

// The place behind the clause that begins at `start`.
pub fn past(table: &[u16], start: usize) -> usize
    ensures { result ≡ start + first_length (drop start table.now) }
{
    for i in start..table.len() {
        if is_end(table[i]) {
            return i + 1;
        }
    }
    start.max(table.len())
}

// Drops the entries from `low` to `high` of the clause that begins at `start`, its end among them if `low` is 0, and returns the place
// behind the clause.
pub fn mark(table: &mut [u16], start: usize, low: u16, high: u16) -> usize
    ensures value { result ≡ start + first_length (drop start table.old) }
    ensures table_after { table.new ≡ take start table.old ++ mark_clause low high (drop start table.old) }
{
    for i in start..table.len() {
        let x = table[i];
        table[i] = marked(x, low, high);
        if is_end(x) {
            return i + 1;
        }
    }
    start.max(table.len())
}

// Whether a clause has v and -v. Two walks, so that a long clause costs no more an entry than a short one.
pub fn is_always_true(table: &[u16], start: usize) -> bool
    ensures { result ≡ always_true (first_clause (drop start table.now)) }
{
    let mut seen = [0u8; CODES];
    note(table, start, &mut seen);
    has_clash(table, start, &seen)
}

// Puts a 1 at each code of the clause that is not dropped.
fn note(table: &[u16], start: usize, seen: &mut Seen)
    ensures { seen.new ≡ noted seen.old (first_clause (drop start table.now)) }
{
    for i in start..table.len() {
        let x = table[i];
        if is_end(x) {
            return;
        }
        note_one(seen, x);
    }
}

fn note_one(seen: &mut Seen, x: u16)
    ensures { seen.new ≡ noted_one seen.old x }
{
    let code = usize::from(x);
    if code < CODES {
        seen[code] = 1;
    }
}

fn has_clash(table: &[u16], start: usize, seen: &Seen) -> bool
    ensures { result ≡ any (noted_clash seen.now) (first_clause (drop start table.now)) }
{
    for i in start..table.len() {
        let x = table[i];
        if is_end(x) {
            return false;
        }
        if is_noted_clash(seen, x) {
            return true;
        }
    }
    false
}

fn is_noted_clash(seen: &Seen, x: u16) -> bool
    ensures { result ≡ noted_clash seen.now x }
{
    let code = usize::from(x);
    if code < CODES {
        seen[opposite(code)] == 1
    } else {
        false
    }
}

fn opposite(code: usize) -> usize
    requires { code < last_code + 1 }
    ensures { result ≡ code_opposite code }
{
    if code % 2 == 0 { code + 1 } else { code - 1 }
}

// The lowest code that rule 2 drops of a clause, if it has it: behind every existential one that is left.
pub fn reducible(kinds: &[u8], table: &[u16], start: usize) -> u16
    ensures { result ≡ reducible_from kinds.now 2 (first_clause (drop start table.now)) }
{
    let mut low: u16 = 2;
    for i in start..table.len() {
        let x = table[i];
        if is_end(x) {
            return low;
        }
        low = raised(kinds, low, x);
    }
    low
}

fn raised(kinds: &[u8], low: u16, x: u16) -> u16
    ensures { result ≡ raised_by kinds.now low x }
{
    if x < 512 {
        if x >= low {
            if is_universal(kinds, x) {} else {
                return x / 2 * 2 + 2;
            }
        }
    }
    low
}

// The only entry that is left of a clause, if its unknown is existential, or 0.
pub fn unit(kinds: &[u8], table: &[u16], start: usize) -> u16
    ensures { result ≡ unit_code kinds.now (first_clause (drop start table.now)) }
{
    let code = only(table, start);
    if is_universal(kinds, code) { 0 } else { code }
}

fn only(table: &[u16], start: usize) -> u16
    ensures { result ≡ only_left 0 (first_clause (drop start table.now)) }
{
    let mut found: u16 = 0;
    for i in start..table.len() {
        let x = table[i];
        if is_end(x) {
            return found;
        }
        if x < 512 {
            if found != 0 {
                return 0;
            }
            found = x;
        }
    }
    found
}

// An unknown that the kinds don't have is none that is universal.
pub fn is_universal(kinds: &[u8], code: u16) -> bool
    ensures { result ≡ universal_code kinds.now code }
{
    let name = usize::from(code / 2);
    if name == 0 {
        return false;
    }
    if name > kinds.len() {
        return false;
    }
    kinds[name - 1] != 0
}

fn is_end(x: u16) -> bool
    ensures { result ≡ ends x }
{
    x % 512 == 0
}

fn marked(x: u16, low: u16, high: u16) -> u16
    ensures { result ≡ marked_entry low high x }
{
    if low <= x {
        if x <= high {
            if x < 512 {
                return x + 512;
            }
        }
    }
    x
}
