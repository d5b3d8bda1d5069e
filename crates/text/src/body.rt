// The lines after the p line.
ghost use Rattle.std.specs.Prelude.{◌≡◌, List, Bool, true, false, ◌&&◌, eqb, ℤ, ℕ, ◌+◌, ◌≤◌, length, take, drop};
ghost use Rattle.formula.specs.Formula.{max_unknowns, max_entries};
ghost use Rattle.lines.specs.Lines.{lines, words};
ghost use Rattle.lines.specs.Shapes.{is_prefix};
ghost use Rattle.text.specs.Reading.{max_variables, body as body_read, body_line as body_line_read, prefix_line as prefix_line_read, clause_line as clause_line_read, is_item as item_shape, kind_of_word};
ghost use Rattle.text.specs.Private.Steps.{Marked, placed_in, Sized, items_at, fresh, held, LineRead, AllRead};

use crate::opening::Opened;
use crate::{gate, names};
use formula::Formula;
use lines::{numbers, shapes};

// How far a text was taken: V, and C or G; the names bound and those bound nowhere, the entries used, the clause or gate lines, the clauses made of
// gates, a cause, 0 for none, and the line reached.
#[derive(Clone, Copy)]
pub(crate) struct Counts {
    pub(crate) variables: usize,
    pub(crate) clauses: usize,
    pub(crate) bound: usize,
    pub(crate) free: usize,
    pub(crate) entries: usize,
    pub(crate) clauses_read: usize,
    pub(crate) made: usize,
    pub(crate) cause: u32,
    pub(crate) line: usize,
}

// Reads the lines after the p line.
pub(crate) fn read_lines(
    text: &[u8],
    gates: bool,
    o: Opened,
    kinds: &mut [u8; Formula::UNKNOWNS],
    literals: &mut [i32; Formula::ENTRIES],
    names: &mut [u16; Formula::UNKNOWNS],
) -> Counts
    requires kinds_len { (length kinds.old ≡ max_unknowns) × (length names.old ≡ max_unknowns) × (length literals.old ≡ max_entries) }
    requires at_in_bounds { (o.at ≤ length text.now) × (o.line ≤ o.at) × (o.variables ≤ max_variables) × (gates ≡ true → o.output ≤ max_variables) }
    ensures { AllRead (body_read (items_at gates o.negative o.output o.line) (fresh o) (o.line + 1) (lines (drop o.at text.now))) result kinds.new names.new literals.new }
{
    let mut places = [0u8; named::PLACES];
    let mut s = Counts {
        variables: o.variables,
        clauses: o.clauses,
        bound: 0,
        free: 0,
        entries: 0,
        clauses_read: 0,
        made: 0,
        cause: 0,
        line: o.line + 1,
    };
    let mut at = o.at;
    while at < text.len() {
        let end = lines::find(text, at, b'\n');
        if end == text.len() {
            s.cause = 10;
            return s;
        }
        s = body_line(
            &text[at..end],
            gates,
            s,
            kinds,
            literals,
            names,
            &mut places,
        );
        if s.cause != 0 {
            return s;
        }
        at = end + 1;
        s.line += 1;
    }
    if s.clauses_read != s.clauses {
        s.cause = 14;
        return s;
    }
    if gates {
        return gate::add_output(s, o.negative, o.output, o.line, literals, &places);
    }
    s
}

// Reads one line.
fn body_line(
    line: &[u8],
    gates: bool,
    c: Counts,
    kinds: &mut [u8; Formula::UNKNOWNS],
    literals: &mut [i32; Formula::ENTRIES],
    names: &mut [u16; Formula::UNKNOWNS],
    places: &mut [u8; named::PLACES],
) -> Counts
    requires { Sized c kinds.old names.old literals.old × Marked (placed_in c.bound c.free names.old) places.old × (gates ≡ true → c.free ≡ 0) }
    ensures { LineRead gates (body_line_read gates (held c kinds.old names.old literals.old) line.now) c result kinds.new names.new places.new literals.new }
{
    if binds(line, c.clauses_read) {
        return prefix_line(line, c, kinds, names, places);
    }
    if is_item(line, gates) {} else {
        let mut s = c;
        s.cause = 10;
        return s;
    }
    if gates {
        return gate::gate_line(line, c, kinds, literals, names, places);
    }
    clause_line(line, c, literals, names, places)
}

// Whether a line has the shape of those behind the prefix.
fn is_item(line: &[u8], gates: bool) -> bool
    ensures { result ≡ item_shape gates line.now }
{
    if gates {
        shapes::is_gate(line)
    } else {
        shapes::is_clause(line)
    }
}

// Whether a line is a prefix line at its place: none stands behind a clause line.
fn binds(line: &[u8], done: usize) -> bool
    ensures { result ≡ (eqb done 0 && is_prefix line.now) }
{
    if done == 0 {
        shapes::is_prefix(line)
    } else {
        false
    }
}

// Reads a prefix line.
fn prefix_line(
    line: &[u8],
    c: Counts,
    kinds: &mut [u8; Formula::UNKNOWNS],
    names: &mut [u16; Formula::UNKNOWNS],
    places: &mut [u8; named::PLACES],
) -> Counts
    requires { (length kinds.old ≡ max_unknowns) × (length names.old ≡ max_unknowns) × (c.bound ≤ max_unknowns) × (c.free ≡ 0) × (c.variables ≤ max_variables) × Marked (take c.bound names.old) places.old }
    ensures { (gates : Bool) (L : List ℤ) → Sized c kinds.old names.old L → LineRead gates (prefix_line_read (held c kinds.old names.old L) (words line.now)) c result kinds.new names.new places.new L }
{
    let w = lines::next(line, 0);
    let start = w.start;
    let end = w.end;
    let kind = kind_of(&line[start..end]);
    let used = names::bind_all(line, end, kind, c.variables, c.bound, kinds, names, places);
    let mut s = c;
    s.bound = used.count;
    s.cause = used.cause;
    s
}

fn kind_of(word: &[u8]) -> u8
    ensures { result ≡ kind_of_word word.now }
{
    u8::from(numbers::same(word, b"a"))
}

// Reads a clause line.
fn clause_line(
    line: &[u8],
    c: Counts,
    literals: &mut [i32; Formula::ENTRIES],
    names: &mut [u16; Formula::UNKNOWNS],
    places: &mut [u8; named::PLACES],
) -> Counts
    requires { (length literals.old ≡ max_entries) × (length names.old ≡ max_unknowns) × (c.variables ≤ max_variables) × (c.bound + c.free ≤ max_unknowns) × (c.entries ≤ max_entries) × Marked (placed_in c.bound c.free names.old) places.old }
    ensures { (K : List ℕ) → Sized c K names.old literals.old → LineRead false (clause_line_read (held c K names.old literals.old) (words line.now)) c result K names.new places.new literals.new }
{
    let mut s = c;
    if c.clauses <= c.clauses_read {
        s.cause = 14;
        return s;
    }
    let added = names::add_entries(
        line,
        c.variables,
        c.bound,
        c.free,
        c.entries,
        names,
        places,
        literals,
    );
    s.free = added.free;
    s.entries = added.count;
    s.cause = added.cause;
    s.clauses_read += 1;
    s
}
