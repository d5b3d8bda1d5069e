// The clauses of a gate line, and of a gate list's O, put into a table of entries by name. Every public function is total: its contract gives the
// cause, the counts and every lent entry for whatever is lent. Which line is read, where names are bound, and what a gate list means is left to
// `text` and `named`; the clauses of one gate are put by `gates`.
#![tactic(auto)]

ghost use Rattle.std.specs.Prelude.{◌≡◌, true, cond, [], ◌∷◌, ℕ, ◌+◌, ◌≤◌, ◌<◌, ltb, pos, nat_abs, length, get_or, set};
ghost use Rattle.cause.specs.Cause.{told};
ghost use Rattle.formula.specs.Formula.{max_clauses};
ghost use Rattle.lines.specs.Shapes.{is_gate};
ghost use Rattle.named.specs.Named.{max_variables, signed as with_sign};
ghost use Rattle.text_gates.specs.GateLine.{marked as has_mark, function_of as function_word, line_cause, line_entries, line_clauses, output_cause};
ghost use Rattle.text_gates.specs.GateLine.{PutSo, put_told, entries_after, made_after};
ghost use Rattle.text_gates.specs.Private.Steps.{literal_in, count_in, InputRead, InputsRead, clause_count as count_of, GatePut};

use cause::Cause;
use formula::Formula;
use gates::Function;
use lines::{numbers, shapes};
use named::Places;

// How far clauses were put: the entries used, and the clauses made in all.
#[derive(Clone, Copy, Debug, PartialEq, Eq)]
pub struct Put {
    pub entries: usize,
    pub made: usize,
}

// Puts the clauses of a gate line whose name is v behind m entries, `made` clauses being made. Its inputs are to have a mark in the table by name.
pub fn put_line(
    line: &[u8],
    v: u16,
    made: usize,
    m: usize,
    places: &Places,
    literals: &mut [i32],
) -> Result<Put, Cause>
    ensures returned { result ≡ put_told (line_cause (has_mark places.now) line.now v made m (length literals.old))
        (line_entries line.now v) (line_clauses line.now v) made m }
    ensures put { PutSo (line_cause (has_mark places.now) line.now v made m (length literals.old))
        (line_entries line.now v) (line_clauses line.now v) made m literals.old (told result) (entries_after m result) (made_after made result)
        literals.new }
{
    if !shapes::is_gate(line) {
        return Err(Cause::Shape);
    }
    put_clauses(line, v, made, m, places, literals)
}

// Puts the clause of O, which names v, behind m entries, `made` clauses being made.
pub fn put_output(
    negative: bool,
    v: u16,
    made: usize,
    m: usize,
    places: &Places,
    literals: &mut [i32],
) -> Result<Put, Cause>
    ensures returned { result ≡ put_told (output_cause (has_mark places.now) v made m (length literals.old)) (with_sign negative v ∷ pos 0 ∷ []) 1 made m }
    ensures put { PutSo (output_cause (has_mark places.now) v made m (length literals.old)) (with_sign negative v ∷ pos 0 ∷ []) 1 made
        m literals.old (told result) (entries_after m result) (made_after made result) literals.new }
{
    if !is_marked(places, usize::from(v)) {
        return Err(Cause::Input); // O is unknown
    }
    if Formula::CLAUSES <= made {
        return Err(Cause::Sizes);
    }
    if !has_two(literals.len(), m) {
        return Err(Cause::Sizes);
    }
    literals[m] = named::signed(negative, v);
    literals[m + 1] = 0;
    Ok(Put {
        entries: m + 2,
        made: made + 1,
    })
}

// Whether there is room for two entries behind m.
fn has_two(room: usize, m: usize) -> bool
    ensures { result ≡ ltb (m + 1) room }
{
    if room < 2 {
        return false;
    }
    m <= room - 2
}

// Whether a name has a mark in the table by name.
fn is_marked(places: &Places, v: usize) -> bool
    ensures { result ≡ has_mark places.now v }
{
    v < named::PLACES && places[v] != 0
}

// Puts the clauses of a line that has the shape. All its words are read before one is put.
fn put_clauses(
    line: &[u8],
    v: u16,
    made: usize,
    m: usize,
    places: &Places,
    literals: &mut [i32],
) -> Result<Put, Cause>
    requires { is_gate line.now ≡ true }
    ensures { PutSo (line_cause (has_mark places.now) line.now v made m (length literals.old))
        (line_entries line.now v) (line_clauses line.now v) made m literals.old (told result) (entries_after m result) (made_after made result)
        literals.new }
{
    let word = lines::next(line, 0);
    let name = lines::next(line, word.end);
    let start = word.start;
    let end = word.end;
    let mut inputs = [0i32; Formula::CLAUSES];
    let count = read_inputs(line, name.end, places, &mut inputs)?;
    put_gate(&line[start..end], v, &inputs, count, made, m, literals)
}

// Reads the inputs from i on, and keeps as many as a gate can have: how many there are.
fn read_inputs(
    line: &[u8],
    i: usize,
    places: &Places,
    inputs: &mut [i32; Formula::CLAUSES],
) -> Result<usize, Cause>
    requires { (i ≤ length line.now) × (length inputs.old ≡ max_clauses) × ((j : ℕ) → nat_abs (get_or inputs.old j (pos 0)) ≤ max_variables) }
    ensures { InputsRead line.now i places.now (told result) (count_in result) inputs.new }
{
    let mut count = 0;
    let mut at = i;
    while at < line.len() {
        let w = lines::next(line, at);
        let start = w.start;
        let end = w.end;
        if start == end {
            return Ok(count);
        }
        if numbers::is_zero(&line[start..end]) {
            return Ok(count);
        }
        let literal = read_input(&line[start..end], places)?;
        keep(inputs, count, literal);
        count += 1;
        at = end;
    }
    Ok(count)
}

// Reads an input: its literal by name.
fn read_input(word: &[u8], places: &Places) -> Result<i32, Cause>
    ensures { InputRead places.now word.now (told result) (literal_in result) }
{
    let v = numbers::magnitude(word);
    if named::LARGEST < v {
        return Err(Cause::Range);
    }
    if !is_marked(places, v) {
        return Err(Cause::Input);
    }
    Ok(named::signed(numbers::negative(word), v as u16))
}

// Keeps an input if there is room.
fn keep(inputs: &mut [i32; Formula::CLAUSES], count: usize, literal: i32)
    requires { length inputs.old ≡ max_clauses }
    ensures { inputs.new ≡ cond (ltb count max_clauses) (set inputs.old count literal) inputs.old }
{
    if count < Formula::CLAUSES {
        inputs[count] = literal;
    }
}

// Puts the clauses of a gate whose first `count` inputs are kept, if the limits allow it.
fn put_gate(
    word: &[u8],
    v: u16,
    inputs: &[i32],
    count: usize,
    made: usize,
    m: usize,
    literals: &mut [i32],
) -> Result<Put, Cause>
    requires { (length inputs.now ≡ max_clauses) × ((j : ℕ) → nat_abs (get_or inputs.now j (pos 0)) ≤ max_variables) }
    ensures { GatePut (function_word word.now) v inputs.now count made m literals.old (told result) (entries_after m result) (made_after made result)
        literals.new }
{
    if Formula::CLAUSES < made {
        return Err(Cause::Sizes);
    }
    if Formula::CLAUSES <= count {
        return Err(Cause::Sizes);
    }
    let all = made + clause_count(function_of(word), count);
    if Formula::CLAUSES < all {
        return Err(Cause::Sizes);
    }
    let end = gates::put(
        function_of(word),
        i32::from(v),
        &inputs[..count],
        literals,
        m,
    );
    if end == m {
        return Err(Cause::Sizes);
    }
    Ok(Put {
        entries: end,
        made: all,
    })
}

fn function_of(word: &[u8]) -> Function
    ensures { result ≡ function_word word.now }
{
    if numbers::same(word, b"&") {
        return Function::And;
    }
    if numbers::same(word, b"|") {
        return Function::Or;
    }
    Function::Xor
}

// The clauses of a gate with so many inputs.
fn clause_count(function: Function, inputs: usize) -> usize
    requires { inputs < max_clauses }
    ensures { result ≡ count_of function inputs }
{
    match function {
        Function::And => inputs + 1,
        Function::Or => inputs + 1,
        Function::Xor => 4,
    }
}
