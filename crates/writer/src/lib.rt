// Writes the text of a formula, in the format that `text` reads.
// `write` promises, for all that is lent, the bytes that the definition gives (specs/Output.antt, over that of `writing`), put at the start of the
// buffer if they fit; and that they are read as the formula (`writing`'s theorem).
#![tactic(auto)]

ghost use Rattle.std.specs.Prelude.{◌+◌, ◌≤◌, ◌≡◌, ◌++◌, length};
ghost use Rattle.formula.specs.Causes.{zeros};
ghost use Rattle.formula.specs.Private.Accepted.{Accepted as AcceptedFormula};
ghost use Rattle.named.specs.Named.{signed};
ghost use Rattle.report.specs.Report.{ascii, decimal, put, put_count};
ghost use Rattle.writing.specs.Writing.{p_line, letter, unknown, blocks, prefix_lines, clause_lines, written};
ghost use Rattle.writing.specs.WritingRight.{WritingRight};
ghost use Rattle.writer.specs.Output.{output};
ghost use Rattle.writer.specs.Private.Steps.{Put, entry, Known};

use formula::Formula;

// Room for every text: a p line of at most 23 bytes, 10 for an unknown and 4 besides, 7 for an entry.
pub const LONGEST: usize = 27 + 10 * Formula::UNKNOWNS + 7 * Formula::ENTRIES;

// Puts the text at the start of `out`, if it fits: how many bytes it is. A formula that is refused, or has not one name for each unknown, has none.
pub fn write(kinds: &[u8], literals: &[i32], names: &[u16], variables: u32, out: &mut [u8]) -> usize
    ensures counted { result ≡ put_count (output kinds.now literals.now names.now variables) out.old }
    ensures written { out.new ≡ put (output kinds.now literals.now names.now variables) out.old }
    ensures proved { WritingRight kinds.now literals.now names.now variables }
{
    if names.len() != kinds.len() {
        return 0;
    }
    match Formula::check(kinds, literals) {
        Err(_) => 0,
        Ok(sizes) => {
            let mut text = [0u8; LONGEST];
            let end = fill(kinds, literals, names, variables, sizes.clauses, &mut text);
            buffer::append(out, 0, &text[..end])
        }
    }
}

// The text of an accepted formula, at the start of `text`.
fn fill(
    kinds: &[u8],
    literals: &[i32],
    names: &[u16],
    variables: u32,
    clauses: usize,
    text: &mut [u8],
) -> usize
    requires { AcceptedFormula kinds.now literals.now × (length names.now ≡ length kinds.now) × (clauses ≡ zeros literals.now) ×
        (58651 ≤ length text.old) }
    ensures { Put (written kinds.now literals.now names.now variables) 0 text.old result text.new }
{
    let a = put_p_line(text, variables, clauses);
    let b = put_prefix(text, a, kinds, names);
    put_clauses(text, b, literals, names)
}

// The p line.
fn put_p_line(text: &mut [u8], variables: u32, clauses: usize) -> usize
    requires { length (p_line variables clauses) ≤ length text.old }
    ensures { Put (p_line variables clauses) 0 text.old result text.new }
{
    let a = append(text, 0, b"p cnf ");
    let b = put_number(text, a, variables as u64);
    let c = append(text, b, b" ");
    let d = put_number(text, c, clauses as u64);
    append(text, d, b"\n")
}

// The prefix lines.
fn put_prefix(text: &mut [u8], at: usize, kinds: &[u8], names: &[u16]) -> usize
    requires { (length names.now ≡ length kinds.now) × (at + length (prefix_lines kinds.now names.now) ≤ length text.old) }
    ensures { Put (prefix_lines kinds.now names.now) at text.old result text.new }
{
    if kinds.len() == 0 {
        return at;
    }
    let kind = kinds[0];
    let a = put_letter(text, at, kind);
    put_blocks(text, a, kind, kinds, names)
}

// The names of all unknowns, a block of the kind `first` being open.
fn put_blocks(text: &mut [u8], at: usize, first: u8, kinds: &[u8], names: &[u16]) -> usize
    requires { (length names.now ≡ length kinds.now) × (at + length (blocks first kinds.now names.now) ≤ length text.old) }
    ensures { Put (blocks first kinds.now names.now) at text.old result text.new }
{
    let mut end = at;
    let mut before = first;
    for (kind, name) in kinds.iter().zip(names) {
        end = put_unknown(text, end, before, *kind, *name);
        before = *kind;
    }
    append(text, end, b"0\n")
}

// A name, in front of it a block's end and another's beginning where the kind changes.
fn put_unknown(text: &mut [u8], at: usize, before: u8, kind: u8, name: u16) -> usize
    requires { at + length (unknown before kind name) ≤ length text.old }
    ensures { Put (unknown before kind name) at text.old result text.new }
{
    if kind == before {
        return put_name(text, at, name);
    }
    let a = append(text, at, b"0\n");
    let b = put_letter(text, a, kind);
    put_name(text, b, name)
}

// The letter of a block.
fn put_letter(text: &mut [u8], at: usize, kind: u8) -> usize
    requires { at + length (letter kind) ≤ length text.old }
    ensures { Put (letter kind) at text.old result text.new }
{
    if kind == 0 {
        return append(text, at, b"e ");
    }
    append(text, at, b"a ")
}

// The clause lines.
fn put_clauses(text: &mut [u8], at: usize, literals: &[i32], names: &[u16]) -> usize
    requires { Known (length names.now) literals.now × (at + length (clause_lines names.now literals.now) ≤ length text.old) }
    ensures { Put (clause_lines names.now literals.now) at text.old result text.new }
{
    let mut end = at;
    for literal in literals {
        end = put_entry(
            text,
            end,
            names,
            literal.unsigned_abs() as usize,
            *literal < 0,
        );
    }
    end
}

// A literal, by its magnitude and sign, and the space behind it; or a clause's end.
fn put_entry(text: &mut [u8], at: usize, names: &[u16], magnitude: usize, negative: bool) -> usize
    requires { (magnitude ≤ length names.now) × (at + length (entry names.now (signed negative magnitude)) ≤ length text.old) }
    ensures { Put (entry names.now (signed negative magnitude)) at text.old result text.new }
{
    if magnitude == 0 {
        return append(text, at, b"0\n");
    }
    let name = names[magnitude - 1];
    if negative {
        let a = append(text, at, b"-");
        return put_name(text, a, name);
    }
    put_name(text, at, name)
}

// A name and the space behind it.
fn put_name(text: &mut [u8], at: usize, name: u16) -> usize
    requires { at + length (decimal name ++ ascii " ") ≤ length text.old }
    ensures { Put (decimal name ++ ascii " ") at text.old result text.new }
{
    let a = put_number(text, at, name as u64);
    append(text, a, b" ")
}

// A number in decimal.
fn put_number(text: &mut [u8], at: usize, number: u64) -> usize
    requires { at + length (decimal number) ≤ length text.old }
    ensures { Put (decimal number) at text.old result text.new }
{
    let mut digits = [0u8; 20];
    let count = io::decimal(number, &mut digits);
    append(text, at, &digits[..count])
}

// All of `part`, which fits, into `text` from `at` on.
fn append(text: &mut [u8], at: usize, part: &[u8]) -> usize
    requires { at + length part.now ≤ length text.old }
    ensures { Put part.now at text.old result text.new }
{
    buffer::append(text, at, part)
}
