// The literals of a formula as 16-bit codes: 0 ends a clause, 2v stands for the literal v and 2v + 1 for -v. Each clause names a literal
// once, its largest code first; a clause with v and -v, which is always true, is left out. `encode` is total: its contract gives the
// number of entries used and every entry of the table, for whatever is lent. So is `encode_entries`, which leaves nothing out: each code
// stands at its literal's place. What a formula means is left to `formula`.
#![tactic(auto)]

ghost use Rattle.std.specs.Prelude.{◌≡◌, ◌+◌, ◌-◌, ◌≤◌, ◌<◌, false, ◌++◌, map, nat_abs, length, take, drop, replicate};
ghost use Rattle.formula.specs.Formula.{max_unknowns};
ghost use Rattle.formula.specs.Causes.{any, beyond};
ghost use Rattle.codes.specs.Codes.{last_code, code_of, opposite as code_opposite, encoding, used, filled, entry_by_entry};
ghost use Rattle.codes.specs.Private.Clauses.{Names, PastClause, Added, ClauseEncoded};

use formula::Formula;

// That of the last unknown's opposite literal.
pub const LAST_CODE: usize = 2 * Formula::UNKNOWNS + 1;

// The last unknown's literals.
const HIGHEST: i32 = Formula::UNKNOWNS as i32;

const LOWEST: i32 = -HIGHEST;

// The entries read and written, where a clause ends.
#[derive(Clone, Copy)]
struct Ends {
    read: usize,
    written: usize,
}

// Writes the codes and zeros behind them, and returns how many entries are used. With more literals than places, or a literal beyond the
// last unknown either way, nothing is changed.
pub fn encode(literals: &[i32], codes: &mut [u16]) -> usize
    ensures value { result ≡ used literals.now (length codes.old) }
    ensures codes_after { codes.new ≡ filled literals.now codes.old }
{
    if codes.len() < literals.len() {
        return 0;
    }
    if has_beyond(literals) {
        return 0;
    }
    let end = encode_clauses(literals, codes);
    clear_behind(codes, end);
    end
}

// Writes the code of each literal at its place. With more literals than places, or a literal beyond the last unknown either way, nothing is changed.
pub fn encode_entries(literals: &[i32], codes: &mut [u16])
    ensures { codes.new ≡ entry_by_entry literals.now codes.old }
{
    if codes.len() < literals.len() {
        return;
    }
    if has_beyond(literals) {
        return;
    }
    encode_each(literals, codes);
}

fn encode_each(literals: &[i32], codes: &mut [u16])
    requires { (length literals.now ≤ length codes.old) × Names max_unknowns literals.now }
    ensures { codes.new ≡ map code_of literals.now ++ drop (length literals.now) codes.old }
{
    for (i, literal) in literals.iter().enumerate() {
        codes[i] = code_of(*literal);
    }
}

// A loop with one way out, so that the compiler looks at several entries at once.
fn has_beyond(literals: &[i32]) -> bool
    ensures { result ≡ any (beyond max_unknowns) literals.now }
{
    let mut found = false;
    for literal in literals {
        if is_beyond(*literal) {
            found = true;
        }
    }
    found
}

// No number is negated here, since the lowest has no opposite.
fn is_beyond(literal: i32) -> bool
    ensures { result ≡ beyond max_unknowns literal }
{
    if literal < 0 {
        literal < LOWEST
    } else {
        literal > HIGHEST
    }
}

fn encode_clauses(literals: &[i32], codes: &mut [u16]) -> usize
    requires { (length literals.now ≤ length codes.old) × Names max_unknowns literals.now }
    ensures value { result ≡ length (encoding literals.now) }
    ensures codes_after { take result codes.new ≡ encoding literals.now }
{
    let mut from = 0;
    let mut to = 0;
    while from < literals.len() {
        let ends = encode_clause(literals, from, codes, to);
        from = ends.read;
        to = ends.written;
    }
    to
}

// Writes the clause that begins at `from`; nothing of it counts if it is always true.
fn encode_clause(literals: &[i32], from: usize, codes: &mut [u16], start: usize) -> Ends
    requires literals_in_bounds { (length literals.now ≤ length codes.old) × (start ≤ from) × (from < length literals.now) }
    requires names { Names max_unknowns literals.now }
    ensures { ClauseEncoded literals.now from result.read start result.written codes.old codes.new }
{
    let mut seen = [0u8; LAST_CODE + 1];
    let mut to = start;
    for i in from..literals.len() {
        let code = code_of(literals[i]);
        let c = usize::from(code);
        if c == 0 {
            codes[to] = 0;
            return Ends {
                read: i + 1,
                written: to + 1,
            };
        }
        if seen[opposite(c)] == 1 {
            return Ends {
                read: past_clause(literals, i),
                written: start,
            };
        }
        if seen[c] != 1 {
            seen[c] = 1;
            add(codes, start, to, code);
            to += 1;
        }
    }
    Ends {
        read: literals.len(),
        written: start, // no zero ends the clause
    }
}

// The entry behind the clause that is left from `from` on.
fn past_clause(literals: &[i32], from: usize) -> usize
    requires { from < length literals.now }
    ensures { PastClause literals.now from result }
{
    for i in from..literals.len() {
        if literals[i] == 0 {
            return i + 1;
        }
    }
    literals.len()
}

// Adds a code to the clause between `start` and `to`. The largest stands first.
fn add(codes: &mut [u16], start: usize, to: usize, code: u16)
    requires { (start ≤ to) × (to < length codes.old) }
    ensures { Added start to code codes.old codes.new }
{
    let first = codes[start];
    if start < to {
        if first < code {
            codes[to] = first;
            codes[start] = code;
            return;
        }
    }
    codes[to] = code;
}

fn code_of(literal: i32) -> u16
    requires { nat_abs literal ≤ max_unknowns }
    ensures { result ≡ code_of literal }
{
    if literal < 0 {
        let name = -literal;
        (2 * (name as u32) + 1) as u16
    } else {
        (2 * (literal as u32)) as u16
    }
}

fn opposite(c: usize) -> usize
    requires { (2 ≤ c) × (c < last_code + 1) }
    ensures { result ≡ code_opposite c }
{
    if c % 2 == 0 { c + 1 } else { c - 1 }
}

fn clear_behind(codes: &mut [u16], end: usize)
    requires { end ≤ length codes.old }
    ensures { codes.new ≡ take end codes.old ++ replicate (length codes.old - end) 0 }
{
    codes[end..].fill(0);
}
