// Trimming before the run (02, C-13): clauses that settle themselves are dropped, and the verdict stays.
// `trim` promises, for all that is lent, the answer and every entry of the output table that the definition gives; of every accepted formula
// the theorems on trimming hold (`trimming_rules`). It makes the changes in rounds, which come to the same as one at a time: always-true clauses
// are dropped once; then in each round every clause is reduced and one literal is made true, at most once an unknown.
// What one clause tells and loses belongs to `trimming_marks`.
#![tactic(auto)]

ghost use Rattle.std.specs.Prelude.{◌≡◌, ℕ, zero, ◌+◌, ◌≤◌, ◌<◌, List, [], ◌∷◌, ◌++◌, map, length, take, drop, replicate, true, false, not, cond, eqb, ltb, get_or, set, ◌-◌, ◌/◌};
ghost use Rattle.formula.specs.Formula.{max_unknowns, max_entries, prefix, Clause};
ghost use Rattle.formula.specs.Private.Accepted.{Accepted as AcceptedFormula};
ghost use Rattle.codes.specs.Codes.{last_code, code_of, opposite as code_opposite};
ghost use Rattle.formula.specs.Causes.{any};
ghost use Rattle.trimming_marks.specs.Marks.{ends, first_clause, first_length, reducible_from};
ghost use Rattle.index.specs.Occurrences.{listed};
ghost use Rattle.index.specs.Index.{code_count, index_size, begin_of, end_of, removed};
ghost use Rattle.trimming_rules.specs.Trimming.{without_clauses, without_literal, set_true, lowest_unit, lowest_pure, trimmed};
ghost use Rattle.trimming_rules.specs.Private.Rounds.{untrue, reduced, rounds};
ghost use Rattle.trimming_rules.specs.Proved.{Proved};
ghost use Rattle.formula.specs.Lists.{Every, In};
ghost use Rattle.trimming.specs.Outcome.{formula_cause, cause as cause_of, outcome, output_after, number};
ghost use Rattle.trimming.specs.Private.Table.{literal_of, left, codes as codes_of, clauses_left, Laid, Passed, Chosen, Picked, Found, pure_code, Next};
ghost use Rattle.trimming.specs.Private.Table.{true_from, Indexed, Here, marked_at, times, Dropping, At, left_from, Irreducible, Except, Units};
ghost use Rattle.trimming.specs.Private.Table.{noted_unit, Pending, Dropped, Cleared};

use cause::Cause;
use formula::Formula;
use trimming_marks::CODES;

const DROPPED: u16 = 512;

// No clause.
const NONE: u16 = 65_535;

// An entry for each name, and for 0.
const NAMES: usize = Formula::UNKNOWNS + 1;

// Trims the literals into the output table: the entries used, zeros included.
pub fn trim(kinds: &[u8], literals: &[i32], output: &mut [i32]) -> Result<usize, Cause>
    ensures value { result ≡ outcome kinds.now literals.now output.old }
    ensures output_after { output.new ≡ output_after kinds.now literals.now output.old }
    ensures result_value { number result ≡ cause_of kinds.now literals.now output.old }
    ensures proved { formula_cause kinds.now literals.now ≡ 0 → Proved kinds.now literals.now }
{
    Formula::check(kinds, literals)?;
    if output.len() < literals.len() {
        return Err(Cause::Output);
    }
    Ok(over_output(kinds, literals, output))
}

// Over as much of the output as there are literals. For that it calls itself, because the compiler then leaves it, and the tables below, out of its
// caller: 50,000 bytes are on the stack only while it trims. As part of `study` they would stand there through every run.
fn over_output(kinds: &[u8], literals: &[i32], output: &mut [i32]) -> usize
    requires { AcceptedFormula kinds.now literals.now × (length literals.now ≤ length output.old) }
    ensures value { result ≡ length (trimmed kinds.now literals.now) }
    ensures output_after { output.new ≡ trimmed kinds.now literals.now ++ drop result output.old }
{
    let entries = literals.len();
    if entries < output.len() {
        return over_output(kinds, literals, &mut output[..entries]);
    }
    with_table(kinds, literals, output)
}

fn with_table(kinds: &[u8], literals: &[i32], output: &mut [i32]) -> usize
    requires { AcceptedFormula kinds.now literals.now × (length literals.now ≤ length output.old) }
    ensures value { result ≡ length (trimmed kinds.now literals.now) }
    ensures output_after { output.new ≡ trimmed kinds.now literals.now ++ drop result output.old }
{
    let mut table = [0u16; Formula::ENTRIES];
    over_table(kinds, literals, output, &mut table)
}

// As much of the table as there are literals.
fn over_table(kinds: &[u8], literals: &[i32], output: &mut [i32], table: &mut [u16]) -> usize
    requires { AcceptedFormula kinds.now literals.now × (length literals.now ≤ length output.old) × (length literals.now ≤ length table.old) }
    ensures value { result ≡ length (trimmed kinds.now literals.now) }
    ensures output_after { output.new ≡ trimmed kinds.now literals.now ++ drop result output.old }
{
    let entries = literals.len();
    in_table(kinds, literals, output, &mut table[0..entries])
}

fn in_table(kinds: &[u8], literals: &[i32], output: &mut [i32], table: &mut [u16]) -> usize
    requires { AcceptedFormula kinds.now literals.now × (length literals.now ≤ length output.old) × (length table.old ≡ length literals.now) }
    ensures value { result ≡ length (trimmed kinds.now literals.now) }
    ensures output_after { output.new ≡ trimmed kinds.now literals.now ++ drop result output.old }
{
    codes::encode_entries(literals, table);
    let mut index = [0u16; index::SIZE];
    with_index(kinds, table, &mut index);
    copy_left(literals, table, output)
}

// All rules, with an index that is made before the first change.
fn with_index(kinds: &[u8], table: &mut [u16], index: &mut [u16])
    requires { Laid table.old × (length kinds.now ≤ max_unknowns) × (length table.old ≤ max_entries) × (length index.old ≡ index_size) }
    ensures { Passed (λ cs. rounds (length table.old + 1) (prefix kinds.now) (untrue cs)) table.old table.new }
{
    index::fill(table, index);
    drop_true(table, index);
    let mut names = [0u16; Formula::ENTRIES];
    let mut firsts = [NONE; NAMES];
    settle(kinds, table, index, &mut names, &mut firsts);
}

// Drops a clause that is left, its end too.
fn drop_clause(table: &mut [u16], index: &mut [u16], start: usize)
    requires { Here table.old index.old start }
    ensures { (table.new ≡ marked_at 0 511 start table.old) × Indexed table.new index.new }
{
    let at = drop_entries(table, index, start, 2);
    table[at] = DROPPED;
    index::remove(index, 1, start);
}

// Drops the entries from `low` on of a clause that is left, and returns the place of its end.
fn drop_entries(table: &mut [u16], index: &mut [u16], start: usize, low: u16) -> usize
    requires { Here table.old index.old start × (2 ≤ low) }
    ensures table_after { (table.new ≡ marked_at low 511 start table.old) × Indexed table.new index.new }
    ensures result_value { result + 1 ≡ start + first_length (drop start table.new) }
{
    let mut counts = [0u16; CODES];
    count(table, start, &mut counts);
    drop_each(table, index, &mut counts, start, low)
}

// How often each code stands in the clause.
fn count(table: &[u16], start: usize, counts: &mut [u16; CODES])
    requires { (length table.now ≤ max_entries) × (counts.old ≡ replicate (last_code + 1) 0) }
    ensures { (length counts.new ≡ last_code + 1) × ((y : ℕ) → y < last_code + 1 → get_or counts.new y 0 ≡ times y
        (first_clause (drop start table.now))) }
{
    for i in start..table.len() {
        let x = table[i];
        if is_end(x) {
            return;
        }
        count_one(counts, x);
    }
}

fn drop_each(
    table: &mut [u16],
    index: &mut [u16],
    counts: &mut [u16; CODES],
    start: usize,
    low: u16,
) -> usize
    requires { Dropping low start table.old index.old counts.old start × (2 ≤ low) }
    ensures table_after { (table.new ≡ marked_at low 511 start table.old) × Indexed table.new index.new }
    ensures result_value { result + 1 ≡ start + first_length (drop start table.new) }
{
    for at in start..table.len() {
        if is_end(table[at]) {
            return at;
        }
        drop_entry(table, index, counts, start, at, low);
    }
    table.len() // never: the clause has its end
}

// Drops an entry, if it is from `low` on.
fn drop_entry(
    table: &mut [u16],
    index: &mut [u16],
    counts: &mut [u16; CODES],
    start: usize,
    at: usize,
    low: u16,
)
    requires { Dropping low start table.old index.old counts.old at × (ends (get_or table.old at 0) ≡ false) }
    ensures dropping { Dropping low start table.new index.new counts.new (at + 1) }
    ensures table_unchanged { marked_at low 511 start table.new ≡ marked_at low 511 start table.old }
{
    let x = table[at];
    if is_left_from(x, low) {
        table[at] = x + DROPPED;
        forget(index, counts, start, x);
    }
}

// A code stands once less in the clause: it is taken out of the code's list with the last.
fn forget(index: &mut [u16], counts: &mut [u16; CODES], start: usize, x: u16)
    requires { (x < last_code + 1) × (0 < get_or counts.old x 0) }
    ensures index_after { index.new ≡ cond (eqb (get_or counts.old x 0) 1) (removed index.old x start) index.old }
    ensures counts_after { counts.new ≡ set counts.old x (get_or counts.old x 0 - 1) }
{
    let left = counts[x as usize];
    counts[x as usize] = left - 1;
    if left == 1 {
        index::remove(index, x as usize, start);
    }
}

fn count_one(counts: &mut [u16; CODES], x: u16)
    requires { (length counts.old ≡ last_code + 1) × ((y : ℕ) → get_or counts.old y 0 < max_entries) }
    ensures { (length counts.new ≡ last_code + 1) × ((y : ℕ) → y < last_code + 1 → get_or counts.new y 0 ≡ get_or counts.old y
        0 + times y (x ∷ [])) }
{
    let code = x as usize;
    if code < CODES {
        counts[code] += 1;
    }
}

fn is_end(x: u16) -> bool
    ensures { result ≡ ends x }
{
    x % 512 == 0
}

// Rule 1. No change makes a clause always true, so once is enough.
fn drop_true(table: &mut [u16], index: &mut [u16])
    requires { Laid table.old × Indexed table.old index.old × (length table.old ≤ max_entries) }
    ensures { Passed untrue table.old table.new × Indexed table.new index.new }
{
    let mut start = 0;
    while start < table.len() {
        let next = trimming_marks::past(table, start);
        drop_if_true(table, index, start);
        start = next;
    }
}

fn drop_if_true(table: &mut [u16], index: &mut [u16], start: usize)
    requires { At table.old start × (start < length table.old) × Indexed table.old index.old × (length table.old ≤ max_entries) }
    ensures { (table.new ≡ marked_at (true_from (first_clause (drop start table.old))) 511 start table.old) × Indexed
        table.new index.new }
{
    if trimming_marks::is_always_true(table, start) {
        drop_clause(table, index, start);
    }
}

// Rules 2 to 4. Each change takes an entry away, so there are no more rounds than entries. Only clauses that are shortened can be reduced again,
// or come to have one entry; of each unknown the first clause is noted whose only entry it is.
fn settle(
    kinds: &[u8],
    table: &mut [u16],
    index: &mut [u16],
    names: &mut [u16],
    firsts: &mut [u16; NAMES],
)
    requires { Laid table.old × Indexed table.old index.old × (length kinds.now ≤ max_unknowns) × (length table.old ≤ max_entries) ×
        (length names.old ≡ max_entries) × (firsts.old ≡ replicate (max_unknowns + 1) 65535) }
    ensures { Passed (rounds (length table.old + 1) (prefix kinds.now)) table.old table.new × Indexed
        table.new index.new }
{
    let mut count = save(index, 1, names);
    for _round in 0..table.len() + 1 {
        reduce(kinds, table, index, &names[..count]);
        note_units(kinds, table, &names[..count], firsts);
        let code = next(kinds, table, index, firsts);
        if code == 0 {
            return;
        }
        count = set_true(table, index, code, names);
        forget_unit(firsts, code);
    }
}

// Rule 2 over the clauses that are named. A universal literal that is dropped follows nothing, so once is enough.
fn reduce(kinds: &[u8], table: &mut [u16], index: &mut [u16], names: &[u16])
    requires { Pending kinds.now names.now table.old index.old }
    ensures passed { Passed (reduced (prefix kinds.now)) table.old table.new × Indexed table.new index.new ×
        Except (Irreducible kinds.now) [] table.new }
    ensures by_index { ((firsts : List ℕ) → Units kinds.now firsts names.now names.now 0 table.old → Units kinds.now firsts names.now names.now 0
        table.new) ×
        (listed 1 table.new ≡ listed 1 table.old) }
{
    for start in names {
        reduce_clause(kinds, table, index, *start as usize);
    }
}

fn reduce_clause(kinds: &[u8], table: &mut [u16], index: &mut [u16], start: usize)
    requires { Here table.old index.old start }
    ensures { (table.new ≡ marked_at (reducible_from kinds.now 2 (first_clause (drop start table.old))) 511 start
        table.old) × Indexed table.new index.new }
{
    let low = trimming_marks::reducible(kinds, table, start);
    if has_from(table, start, low) {
        drop_entries(table, index, start, low);
    }
}

// Whether a clause has an entry from `low` on.
fn has_from(table: &[u16], start: usize, low: u16) -> bool
    ensures { result ≡ any (left_from low) (first_clause (drop start table.now)) }
{
    for i in start..table.len() {
        let x = table[i];
        if is_end(x) {
            return false;
        }
        if is_left_from(x, low) {
            return true;
        }
    }
    false
}

fn is_left_from(x: u16, low: u16) -> bool
    ensures { result ≡ left_from low x }
{
    low <= x && x < DROPPED
}

// The code whose literal rule 3 or rule 4 makes true, or 0. A universal unknown in one sign loses its literal: the opposite one is made true.
fn next(kinds: &[u8], table: &[u16], index: &[u16], firsts: &[u16; NAMES]) -> u16
    requires { Laid table.now × Indexed table.now index.now × (length table.now ≤ max_entries) × (length kinds.now ≤ max_unknowns) × Units
        kinds.now firsts.now [] [] 0 table.now }
    ensures { Next (prefix kinds.now) (clauses_left table.now) result }
{
    let unit = lowest_unit(kinds, table, firsts);
    if unit != 0 {
        return unit;
    }
    let pure = lowest_pure(kinds, index);
    if pure == 0 {
        return 0;
    }
    if trimming_marks::is_universal(kinds, pure) {
        return opposite(pure);
    }
    pure
}

fn lowest_unit(kinds: &[u8], table: &[u16], firsts: &[u16; NAMES]) -> u16
    requires { Units kinds.now firsts.now [] [] 0 table.now × (length table.now ≤ max_entries) }
    ensures { Picked (lowest_unit (prefix kinds.now) (clauses_left table.now)) result }
{
    for name in 1..NAMES {
        let first = firsts[name];
        if first != NONE {
            return trimming_marks::unit(kinds, table, first as usize);
        }
    }
    0
}

// Notes the clauses of one entry among those that are named.
fn note_units(kinds: &[u8], table: &[u16], names: &[u16], firsts: &mut [u16; NAMES])
    requires { Laid table.now × (length table.now ≤ max_entries) × Every (λ s. In s (listed 1 table.now)) names.now × Units kinds.now
        firsts.old names.now [] 0 table.now × (length firsts.old ≡ max_unknowns + 1) }
    ensures { Units kinds.now firsts.new [] [] 0 table.now × (length firsts.new ≡ max_unknowns + 1) }
{
    for name in names {
        let start = *name as usize;
        let code = trimming_marks::unit(kinds, table, start);
        note_unit(firsts, code, start);
    }
}

fn note_unit(firsts: &mut [u16; NAMES], code: u16, start: usize)
    requires { (code < last_code + 1) × (start < max_entries) × (length firsts.old ≡ max_unknowns + 1) }
    ensures { firsts.new ≡ noted_unit code start firsts.old }
{
    if code == 0 {
        return;
    }
    let name = (code / 2) as usize;
    firsts[name] = firsts[name].min(start as u16);
}

// The unknown of a code is in no clause any more.
fn forget_unit(firsts: &mut [u16; NAMES], code: u16)
    requires { code < last_code + 1 }
    ensures { firsts.new ≡ set firsts.old (code / 2) 65535 }
{
    firsts[(code / 2) as usize] = NONE;
}

// An unknown in one sign, by the begins and ends of two lists.
fn lowest_pure(kinds: &[u8], index: &[u16]) -> u16
    requires { length kinds.now ≤ max_unknowns }
    ensures { (cs : List Clause) → Found index.now cs → Picked (lowest_pure zero (prefix kinds.now) cs) result }
{
    for position in 0..kinds.len() {
        let code = pure_at(index, position);
        if code != 0 {
            return code;
        }
    }
    0
}

fn pure_at(index: &[u16], position: usize) -> u16
    requires { position < max_unknowns }
    ensures { result ≡ pure_code index.now position }
{
    let positive = has_names(index, 2 * position + 2);
    let negative = has_names(index, 2 * position + 3);
    match (positive, negative) {
        (true, false) => (2 * position + 2) as u16,
        (false, true) => (2 * position + 3) as u16,
        _ => 0,
    }
}

// Rules 3 and 4: clauses that have the literal are dropped, and its opposite elsewhere. The clauses that are shortened by that are named in the
// table of names, and their number is returned.
fn set_true(table: &mut [u16], index: &mut [u16], code: u16, names: &mut [u16]) -> usize
    requires { Laid table.old × Indexed table.old index.old × (length table.old ≤ max_entries) × (length names.old ≡ max_entries) × (2 ≤ code) ×
        (code < last_code + 1) }
    ensures { Dropped (set_true (literal_of code)) (code / 2) (take result names.new) table.old table.new index.new ×
        (result ≤ max_entries) × (listed code table.new ≡ []) × (listed (code_opposite code) table.new ≡ []) }
{
    drop_clauses(table, index, code);
    drop_literals(table, index, opposite(code), names)
}

// Drops the clauses that have a literal.
fn drop_clauses(table: &mut [u16], index: &mut [u16], code: u16)
    requires { Laid table.old × Indexed table.old index.old × (length table.old ≤ max_entries) × (2 ≤ code) × (code < last_code + 1) }
    ensures { Dropped (without_clauses (literal_of code)) (code / 2) [] table.old table.new index.new ×
        (listed code table.new ≡ []) }
{
    while has_names(index, code as usize) {
        let start = first_name(index, code as usize);
        drop_clause(table, index, start);
    }
}

fn has_names(index: &[u16], code: usize) -> bool
    ensures { result ≡ ltb (begin_of index.now code) (end_of index.now code) }
{
    index::begin(index, code) < index::end(index, code)
}

fn first_name(index: &[u16], code: usize) -> usize
    ensures { result ≡ get_or index.now (begin_of index.now code) 0 }
{
    index::name(index, index::begin(index, code))
}

// Drops a literal wherever it stands; its list, which is cleared, is saved.
fn drop_literals(table: &mut [u16], index: &mut [u16], code: u16, names: &mut [u16]) -> usize
    requires { Laid table.old × Indexed table.old index.old × (length table.old ≤ max_entries) × (length names.old ≡ max_entries) × (2 ≤ code) ×
        (code < last_code + 1) }
    ensures { Dropped (without_literal (literal_of code)) (code / 2) (take result names.new) table.old table.new
        index.new × (result ≤ max_entries) × (listed code table.new ≡ []) ×
        ((d : ℕ) → d < code_count → (d ≡ code → ⊥) → listed d table.new ≡ listed d table.old) }
{
    let count = save(index, code as usize, names);
    mark_each(table, &names[..count], code);
    index::clear(index, code as usize);
    count
}

// Copies the list of a code, and returns its length.
fn save(index: &[u16], code: usize, names: &mut [u16]) -> usize
    requires { (begin_of index.now code ≤ end_of index.now code) × (end_of index.now code ≤ length index.now) ×
        (end_of index.now code ≤ begin_of index.now code + length names.old) × (length index.now ≤ index_size) }
    ensures { (begin_of index.now code + result ≡ end_of index.now code) ×
        ((k : ℕ) → k < result → get_or names.new k 0 ≡ get_or index.now (begin_of index.now code + k) 0) }
{
    let from = index::begin(index, code);
    let count = index::end(index, code) - from;
    names[..count].copy_from_slice(&index[from..from + count]);
    count
}

fn mark_each(table: &mut [u16], names: &[u16], code: u16)
    requires { Laid table.old × (names.now ≡ listed code table.old) × (2 ≤ code) × (code < last_code + 1) }
    ensures { Cleared code table.old table.new [] }
{
    for name in names {
        trimming_marks::mark(table, *name as usize, code, code);
    }
}

fn opposite(code: u16) -> u16
    requires { (2 ≤ code) × (code < last_code + 1) }
    ensures { result ≡ code_opposite code }
{
    if code % 2 == 0 { code + 1 } else { code - 1 }
}

// The literals at the places that are left; no code is turned back into a literal.
fn copy_left(literals: &[i32], table: &[u16], output: &mut [i32]) -> usize
    requires { (codes_of table.now ≡ map code_of literals.now) × (length literals.now ≤ length output.old) }
    ensures value { result ≡ length (left table.now) }
    ensures output_after { output.new ≡ left table.now ++ drop result output.old }
{
    let mut to = 0;
    for (i, literal) in literals.iter().enumerate() {
        if table[i] < DROPPED {
            output[to] = *literal;
            to += 1;
        }
    }
    to // the entries used
}
