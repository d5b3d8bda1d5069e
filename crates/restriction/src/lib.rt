// Setting unknowns: a formula with its first unknowns set to values, written as a formula again (its restriction by them).
// `set_first` promises, for all that is lent, the answer and every entry of the output table that the definition gives; the theorems on such formulas
// (`case_rules`) hold of what is written, so its verdict is what the lent formula means with these values. Its kinds are those behind the first
// ones, a part of the lent table, so no kinds are written.
#![tactic(auto)]

ghost use Rattle.std.specs.Prelude.{◌≡◌, Bool, ◌++◌, ℕ, ◌+◌, ◌-◌, ◌≤◌, ◌<◌, pos, nat_abs, length, get_or, drop};
ghost use Rattle.formula.specs.Formula.{max_unknowns};
ghost use Rattle.formula.specs.Causes.{any, other_kind};
ghost use Rattle.case_rules.specs.Restricted.{standing};
ghost use Rattle.case_rules.specs.RestrictedRight.{RestrictedRight};
ghost use Rattle.restriction.specs.Outcome.{values_of, wrong_values, cause as cause_of, outcome, output_after, number};
ghost use Rattle.restriction.specs.Private.Walk.{Names, meets, stands as stands_so, is_set as set_name, left_at, kept_after, put, walked};

use cause::Cause;
use formula::Formula;

// Sets the first unknowns to the values, one byte each in prefix order, 0 false and 1 true, and writes what is left of the literals into the output
// table: the entries used, zeros included.
pub fn set_first(
    kinds: &[u8],
    literals: &[i32],
    values: &[u8],
    output: &mut [i32],
) -> Result<usize, Cause>
    ensures value { result ≡ outcome kinds.now literals.now values.now output.old }
    ensures output_after { output.new ≡ output_after kinds.now literals.now values.now output.old }
    ensures result_value { number result ≡ cause_of kinds.now literals.now values.now output.old }
    ensures restricted_right { RestrictedRight (values_of values.now) kinds.now literals.now }
{
    Formula::check(kinds, literals)?;
    if output.len() < literals.len() {
        return Err(Cause::Output);
    }
    if are_wrong(kinds.len(), values) {
        return Err(Cause::Values);
    }
    Ok(write_left(literals, values, output))
}

// Whether there are more values than unknowns, or a value other than 0 and 1.
pub fn are_wrong(unknowns: usize, values: &[u8]) -> bool
    ensures { result ≡ wrong_values unknowns values.now }
{
    values.len() > unknowns || has_other(values)
}

fn has_other(values: &[u8]) -> bool
    ensures { result ≡ any other_kind values.now }
{
    values.iter().any(|value| *value > 1)
}

// Whether a clause is kept is known before its first literal is written, since nothing past the entries used may be changed.
fn write_left(literals: &[i32], values: &[u8], output: &mut [i32]) -> usize
    requires { Names literals.now × (length literals.now ≤ length output.old) × (length values.now ≤ max_unknowns) }
    ensures value { result ≡ length (walked (values_of values.now) literals.now) }
    ensures output_after { output.new ≡ walked (values_of values.now) literals.now ++ drop result output.old }
{
    let mut kept = stands(literals, 0, values);
    let mut to = 0;
    for i in 0..literals.len() {
        to = write_entry(literals, i, kept, values, output, to);
        kept = is_kept_behind(literals, i, kept, values);
    }
    to // the entries used
}

// Whether no literal of the clause that begins at `start` is true.
fn stands(literals: &[i32], start: usize, values: &[u8]) -> bool
    ensures { result ≡ stands_so (values_of values.now) (drop start literals.now) }
{
    for i in start..literals.len() {
        let name = formula::magnitude_at(literals, i) as usize;
        if name == 0 {
            return true;
        }
        if is_true(name, formula::negative_at(literals, i), values) {
            return false; // a true literal
        }
    }
    true
}

// Whether a literal is true by the values alone.
fn is_true(name: usize, negative: bool, values: &[u8]) -> bool
    requires { 0 < name }
    ensures { result ≡ meets negative (standing (values_of values.now) (name - 1)) }
{
    let v = name - 1;
    if v < values.len() {
        if negative {
            values[v] == 0
        } else {
            values[v] != 0
        }
    } else {
        false
    }
}

// Writes what is left of the entry at `i`, which may be nothing, and returns the place behind it.
fn write_entry(
    literals: &[i32],
    i: usize,
    kept: bool,
    values: &[u8],
    output: &mut [i32],
    to: usize,
) -> usize
    requires { Names literals.now × (to < length output.old) × (length values.now ≤ max_unknowns) }
    ensures value { result ≡ to + length (left_at (values_of values.now) kept literals.now i) }
    ensures output_after { output.new ≡ put (left_at (values_of values.now) kept literals.now i) to output.old }
{
    if !kept {
        return to;
    }
    let depth = values.len();
    let name = formula::magnitude_at(literals, i) as usize;
    if is_set(name, depth) {
        return to;
    }
    output[to] = named::signed(formula::negative_at(literals, i), moved(name, depth));
    to + 1
}

// Whether it is the name of one of the first unknowns; 0 is not.
fn is_set(name: usize, depth: usize) -> bool
    ensures { result ≡ set_name name depth }
{
    name > 0 && name <= depth
}

// A name behind the first unknowns, counted from them; 0 stays 0.
fn moved(name: usize, depth: usize) -> u16
    requires { name ≤ max_unknowns }
    ensures { result ≡ name - depth }
{
    name.saturating_sub(depth) as u16
}

// Whether what follows the entry at `i` is kept: behind a clause's end that is for the next clause to say.
fn is_kept_behind(literals: &[i32], i: usize, kept: bool, values: &[u8]) -> bool
    requires { i < length literals.now }
    ensures { result ≡ kept_after (values_of values.now) kept (get_or literals.now i (pos 0)) (drop (i + 1) literals.now) }
{
    if formula::magnitude_at(literals, i) == 0 {
        return stands(literals, i + 1, values);
    }
    kept
}
