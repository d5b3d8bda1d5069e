// The shapes of lines.
ghost use Rattle.std.specs.Prelude.{◌≡◌, ◌&&◌, ◌||◌, ◌≤◌, ltb, length, drop};
ghost use Rattle.lines.specs.Lines.{words, same};
ghost use Rattle.lines.specs.Numbers.{no_number};
ghost use Rattle.lines.specs.Shapes.{a_word, e_word, and_word, or_word, xor_word, form_word, ends_problem, ProblemWords, is_trimmed as trimmed_shape};
ghost use Rattle.lines.specs.Shapes.{leads, is_led as led_shape, is_prefix as prefix_shape, is_gate as gate_shape, is_clause as clause_shape};
ghost use Rattle.lines.specs.Shapes.{has_three as three, closed_by_zero, good_word};
ghost use Rattle.lines.specs.Private.Steps.{OpeningRead};

use crate::{next, numbers};

// Whether a line has the p line's shape, V, and C or G; then O, with its sign, of a gate list.
#[derive(Clone, Copy)]
pub struct Problem {
    pub good: bool,
    pub variables: usize,
    pub clauses: usize,
    pub output: usize,
    pub negative: bool,
}

// The p line, `p cnf V C` or, of a gate list, `p gate V G O`.
pub fn p_line(line: &[u8], gates: bool) -> Problem
    ensures { ProblemWords gates line.now result.good result.variables result.clauses result.output result.negative }
{
    let opening = opens(line, gates);
    let v = next(line, opening.end);
    let c = next(line, v.end);
    let o = next(line, c.end);
    let v_start = v.start;
    let v_end = v.end;
    let c_start = c.start;
    let c_end = c.end;
    let o_start = o.start;
    let o_end = o.end;
    let variables = numbers::number(&line[v_start..v_end], numbers::DIGITS);
    let clauses = numbers::number(&line[c_start..c_end], numbers::DIGITS);
    let output = numbers::magnitude(&line[o_start..o_end]);
    let negative = numbers::negative(&line[o_start..o_end]);
    Problem {
        good: is_whole(opening.good, ends(line, c_end, gates), variables, clauses),
        variables,
        clauses,
        output,
        negative,
    }
}

// Whether a line opens as the p line does, and where its second word ends.
#[derive(Clone, Copy)]
struct Opening {
    good: bool,
    end: usize,
}

fn opens(line: &[u8], gates: bool) -> Opening
    ensures { OpeningRead gates line.now result.good result.end }
{
    let p = next(line, 0);
    let form = next(line, p.end);
    let p_start = p.start;
    let p_end = p.end;
    let form_start = form.start;
    let form_end = form.end;
    if is_trimmed(line) {} else {
        return Opening {
            good: false,
            end: form_end,
        };
    }
    if numbers::same(&line[p_start..p_end], b"p") {} else {
        return Opening {
            good: false,
            end: form_end,
        };
    }
    Opening {
        good: is_form(&line[form_start..form_end], gates),
        end: form_end,
    }
}

fn is_form(word: &[u8], gates: bool) -> bool
    ensures { result ≡ same word.now (form_word gates) }
{
    if gates {
        numbers::same(word, b"gate")
    } else {
        numbers::same(word, b"cnf")
    }
}

// Whether the words from i on are those behind both numbers.
fn ends(line: &[u8], i: usize, gates: bool) -> bool
    ensures { result ≡ ends_problem gates (words (drop i line.now)) }
{
    let o = next(line, i);
    let start = o.start;
    let end = o.end;
    if gates {} else {
        return start == end;
    }
    if numbers::is_literal(&line[start..end]) {} else {
        return false;
    }
    let more = next(line, end);
    more.start == more.end
}

// Whether all of a p line is good, its numbers too.
fn is_whole(opens: bool, ends: bool, v: usize, c: usize) -> bool
    ensures { result ≡ (opens && ends && ltb v no_number && ltb c no_number) }
{
    if opens {} else {
        return false;
    }
    if ends {} else {
        return false;
    }
    are_numbers(v, c)
}

fn are_numbers(v: usize, c: usize) -> bool
    ensures { result ≡ (ltb v no_number && ltb c no_number) }
{
    if numbers::NO_NUMBER <= v {
        return false;
    }
    c < numbers::NO_NUMBER
}

pub fn is_prefix(line: &[u8]) -> bool
    ensures { result ≡ prefix_shape line.now }
{
    is_led(line, false)
}

pub fn is_gate(line: &[u8]) -> bool
    ensures { result ≡ gate_shape line.now }
{
    if is_led(line, true) {} else {
        return false;
    }
    let function = next(line, 0);
    let name = next(line, function.end);
    let start = function.start;
    let end = function.end;
    if numbers::same(&line[start..end], b"^") {
        has_three(line, name.end)
    } else {
        true
    }
}

// Whether a line has the word of a prefix line or of a gate line, a name, and more words, the last of them 0.
fn is_led(line: &[u8], gates: bool) -> bool
    ensures { result ≡ led_shape gates line.now }
{
    let word = next(line, 0);
    let name = next(line, word.end);
    let word_start = word.start;
    let word_end = word.end;
    let name_start = name.start;
    let name_end = name.end;
    if is_trimmed(line) {} else {
        return false;
    }
    if is_lead(&line[word_start..word_end], gates) {} else {
        return false;
    }
    if numbers::is_name(&line[name_start..name_end]) {} else {
        return false;
    }
    closed(line, name_end, gates)
}

fn is_lead(word: &[u8], gates: bool) -> bool
    ensures { result ≡ leads gates word.now }
{
    if gates {
        is_function(word)
    } else {
        is_kind(word)
    }
}

fn is_kind(word: &[u8]) -> bool
    ensures { result ≡ (same word.now a_word || same word.now e_word) }
{
    if numbers::same(word, b"a") {
        return true;
    }
    numbers::same(word, b"e")
}

fn is_function(word: &[u8]) -> bool
    ensures { result ≡ (same word.now and_word || (same word.now or_word || same word.now xor_word)) }
{
    if numbers::same(word, b"&") {
        return true;
    }
    if numbers::same(word, b"|") {
        return true;
    }
    numbers::same(word, b"^")
}

// Whether three words stand from i on.
fn has_three(line: &[u8], i: usize) -> bool
    ensures { result ≡ three (words (drop i line.now)) }
{
    let first = next(line, i);
    let second = next(line, first.end);
    let third = next(line, second.end);
    let more = next(line, third.end);
    if third.start == third.end {
        return false;
    }
    more.start == more.end // the third word is the last
}

pub fn is_clause(line: &[u8]) -> bool
    ensures { result ≡ clause_shape line.now }
{
    if is_trimmed(line) {
        closed(line, 0, true)
    } else {
        false
    }
}

// Whether the words from i on are names, or literals if `signed`, and then 0 as the last.
fn closed(line: &[u8], i: usize, signed: bool) -> bool
    requires { i ≤ length line.now }
    ensures { result ≡ closed_by_zero (good_word signed) (words (drop i line.now)) }
{
    let mut at = i;
    while at < line.len() {
        let w = next(line, at);
        let start = w.start;
        let end = w.end;
        if start == end {
            return false;
        }
        let word = &line[start..end];
        if numbers::is_zero(word) {
            let after = next(line, end);
            return after.start == after.end;
        }
        if fits(word, signed) {} else {
            return false;
        }
        at = end;
    }
    false
}

fn fits(word: &[u8], signed: bool) -> bool
    ensures { result ≡ good_word signed word.now }
{
    if signed {
        numbers::is_literal(word)
    } else {
        numbers::is_name(word)
    }
}

// Whether a line neither begins nor ends with a space.
fn is_trimmed(line: &[u8]) -> bool
    ensures { result ≡ trimmed_shape line.now }
{
    let n = line.len();
    if n == 0 {
        return true;
    }
    if line[0] == b' ' {
        return false;
    }
    line[n - 1] != b' '
}
