// Gate lines, and O behind the last of them.
ghost use Rattle.std.specs.Prelude.{◌≡◌, ◌≤◌, ◌<◌, true, length};
ghost use Rattle.formula.specs.Formula.{max_unknowns, max_clauses, max_entries};
ghost use Rattle.lines.specs.Lines.{words};
ghost use Rattle.lines.specs.Shapes.{is_gate};
ghost use Rattle.named.specs.Named.{signed as with_sign};
ghost use Rattle.text.specs.Reading.{max_variables, gate_line as gate_line_read};
ghost use Rattle.text.specs.Private.Steps.{Marked, placed_in, Sized, held, LineRead, GateNamed, NameBound, OutputAdded};

use crate::body::Counts;
use formula::Formula;
use lines::numbers;

// Reads a gate line.
pub(crate) fn gate_line(
    line: &[u8],
    c: Counts,
    kinds: &mut [u8; Formula::UNKNOWNS],
    literals: &mut [i32; Formula::ENTRIES],
    names: &mut [u16; Formula::UNKNOWNS],
    places: &mut [u8; named::PLACES],
) -> Counts
    requires { Sized c kinds.old names.old literals.old × Marked (placed_in c.bound c.free names.old) places.old × (c.free ≡ 0) × (is_gate line.now ≡ true) }
    ensures { LineRead true (gate_line_read (held c kinds.old names.old literals.old) (words line.now)) c result kinds.new names.new places.new literals.new }
{
    let mut s = c;
    if c.clauses <= c.clauses_read {
        s.cause = 14;
        return s;
    }
    let word = lines::next(line, 0);
    let name = lines::next(line, word.end);
    let start = name.start;
    let end = name.end;
    let v = numbers::number(&line[start..end], numbers::DIGITS);
    let cause = gate_cause(v, c.bound, places);
    if cause != 0 {
        s.cause = cause;
        return s;
    }
    let put = match text_gates::put_line(line, v as u16, c.made, c.entries, places, literals) {
        Ok(put) => put,
        Err(cause) => {
            s.cause = cause.number();
            return s;
        }
    };
    bind(v, c.bound, kinds, names, places);
    s.cause = 0;
    s.bound += 1;
    s.entries = put.entries;
    s.made = put.made;
    s.clauses_read += 1;
    s
}

// The cause of a gate's name, n names being placed.
fn gate_cause(v: usize, n: usize, places: &[u8; named::PLACES]) -> u32
    ensures { GateNamed v n places.now result }
{
    if named::LARGEST < v {
        return 11;
    }
    if places[v] != 0 {
        return 20;
    }
    if n < Formula::UNKNOWNS {
        return 0;
    }
    14
}

// Binds the gate v behind n names, as an existential unknown.
fn bind(
    v: usize,
    n: usize,
    kinds: &mut [u8; Formula::UNKNOWNS],
    names: &mut [u16; Formula::UNKNOWNS],
    places: &mut [u8; named::PLACES],
)
    requires { (v ≤ max_variables) × (n < max_unknowns) × (length kinds.old ≡ max_unknowns) × (length names.old ≡ max_unknowns) }
    ensures { NameBound 0 v n kinds.old names.old places.old kinds.new names.new places.new }
{
    kinds[n] = 0;
    names[n] = v as u16;
    places[v] = 1;
}

// Adds the clause of O, which names v, behind the gates' ones; a cause of it is the p line's.
pub(crate) fn add_output(
    c: Counts,
    negative: bool,
    v: usize,
    line: usize,
    literals: &mut [i32; Formula::ENTRIES],
    places: &[u8; named::PLACES],
) -> Counts
    requires { (length literals.old ≡ max_entries) × (c.entries ≤ max_entries) × (c.made ≤ max_clauses) × (v ≤ max_variables) }
    ensures { OutputAdded c (with_sign negative v) line places.now literals.old result literals.new }
{
    let mut s = c;
    s.line = line;
    match text_gates::put_output(negative, v as u16, c.made, c.entries, places, literals) {
        Ok(put) => {
            s.cause = 0;
            s.entries = put.entries;
            s.made = put.made;
            s.clauses = put.made;
        }
        Err(cause) => {
            s.cause = cause.number();
            s.clauses = c.made;
        }
    }
    s
}
