// The lengths of what is lent, and the lines up to the p line.
ghost use Rattle.std.specs.Prelude.{◌≡◌, ◌&&◌, leb, eqb};
ghost use Rattle.cause.specs.Cause.{unless_cause};
ghost use Rattle.formula.specs.Formula.{max_unknowns, max_entries};
ghost use Rattle.text.specs.Reading.{max_bytes, max_items};
ghost use Rattle.lines.specs.Lines.{words};
ghost use Rattle.text.specs.Form.{begins_gates as gates_begin, gates_told};
ghost use Rattle.text.specs.Private.Steps.{OpenedRead, CommentsRead, ProblemRead, range_cause as range};

use super::{BYTES, Refusal};
use cause::Cause;
use formula::Formula;
use lines::{numbers, shapes};

// A text up to its p line: that line's number; V, C or G, O; and where the next line starts.
#[derive(Clone, Copy)]
pub(crate) struct Opened {
    pub(crate) line: usize,
    pub(crate) variables: usize,
    pub(crate) clauses: usize,
    pub(crate) output: usize,
    pub(crate) negative: bool,
    pub(crate) at: usize,
}

// Reads the lines up to the p line, tables of these lengths being lent.
pub(crate) fn read_opening(
    text: &[u8],
    gates: bool,
    kinds: usize,
    literals: usize,
    names: usize,
) -> Result<Opened, Refusal>
    ensures { OpenedRead gates text.now kinds literals names result }
{
    if !lent_well(text.len(), kinds, literals, names) {
        return Err(Refusal {
            cause: Cause::TooLong,
            line: 0,
        });
    }
    let start = comments(text);
    let at = start.at;
    let line = start.line;
    let end = lines::find(text, at, b'\n');
    if end == text.len() {
        return Err(Refusal {
            cause: Cause::Shape,
            line,
        });
    }
    let p = match read_problem(&text[at..end], gates) {
        Ok(p) => p,
        Err(cause) => return Err(Refusal { cause, line }),
    };
    let next = end + 1;
    Ok(Opened {
        line,
        variables: p.variables,
        clauses: p.clauses,
        output: p.output,
        negative: p.negative,
        at: next,
    })
}

// Whether the text and the tables have the lengths that they may have.
fn lent_well(text: usize, kinds: usize, literals: usize, names: usize) -> bool
    ensures { result ≡ (leb text max_bytes && eqb kinds max_unknowns && eqb literals max_entries && eqb names max_unknowns) }
{
    if text > BYTES {
        return false;
    }
    if kinds != Formula::UNKNOWNS {
        return false;
    }
    if literals != Formula::ENTRIES {
        return false;
    }
    names == Formula::UNKNOWNS
}

// Whether the first line that is no comment begins `p gate`.
pub(crate) fn begins_gates(text: &[u8]) -> bool
    ensures { result ≡ gates_begin text.now }
{
    let start = comments(text);
    let at = start.at;
    let end = lines::find(text, at, b'\n');
    tells_gates(&text[at..end])
}

// Whether the first two words of a line are `p gate`.
fn tells_gates(line: &[u8]) -> bool
    ensures { result ≡ gates_told (words line.now) }
{
    let p = lines::next(line, 0);
    let form = lines::next(line, p.end);
    let p_start = p.start;
    let p_end = p.end;
    let form_start = form.start;
    let form_end = form.end;
    if numbers::same(&line[p_start..p_end], b"p") {} else {
        return false;
    }
    numbers::same(&line[form_start..form_end], b"gate")
}

#[derive(Clone, Copy)]
struct Place {
    at: usize,
    line: usize,
}

// Past the lines that begin with c: where the first other line starts, and its number.
fn comments(text: &[u8]) -> Place
    ensures { CommentsRead text.now result.at result.line }
{
    let mut at = 0;
    let mut line = 1;
    while at < text.len() {
        let end = lines::find(text, at, b'\n');
        if end == text.len() {
            return Place { at, line };
        }
        if text[at] != b'c' {
            return Place { at, line };
        }
        at = end + 1;
        line += 1;
    }
    Place { at, line }
}

// The p line's numbers, and its literal's name and sign.
#[derive(Clone, Copy)]
struct Problem {
    variables: usize,
    clauses: usize,
    output: usize,
    negative: bool,
}

// Reads the p line.
fn read_problem(line: &[u8], gates: bool) -> Result<Problem, Cause>
    ensures { ProblemRead gates line.now result }
{
    let p = shapes::p_line(line, gates);
    check_range(gates, p.good, p.variables, p.clauses, p.output)?;
    Ok(Problem {
        variables: p.variables,
        clauses: p.clauses,
        output: p.output,
        negative: p.negative,
    })
}

// Tests a p line whose shape is good or not.
fn check_range(
    gates: bool,
    good: bool,
    variables: usize,
    clauses: usize,
    output: usize,
) -> Result<(), Cause>
    ensures { result ≡ unless_cause (range gates good variables clauses output) tt }
{
    if !good {
        return Err(Cause::Shape);
    }
    if named::LARGEST < variables {
        return Err(Cause::Range);
    }
    if items(gates) < clauses {
        return Err(Cause::Range);
    }
    if gates && named::LARGEST < output {
        return Err(Cause::Range);
    }
    Ok(())
}

// The most lines behind the prefix.
fn items(gates: bool) -> usize
    ensures { result ≡ max_items gates }
{
    if gates {
        return Formula::UNKNOWNS;
    }
    Formula::CLAUSES
}
