// The search: positions in prefix order, with the group of rows whose other values agree before the position. Rows are split where their
// values differ, an own position gets the wanted value first, and a conflict goes back to the last decision that it was reached by.
ghost use Rattle.std.specs.Prelude.{◌≡◌, ◌+◌, ◌≤◌, ◌<◌, cond, length};
ghost use Rattle.formula.specs.Formula.{max_unknowns, max_rows, max_entries, work_size};
ghost use Rattle.codes.specs.Private.Clauses.{Coded};
ghost use Rattle.index.specs.Index.{index_size};
ghost use Rattle.search_sets.specs.Sets.{sets_size};
ghost use Rattle.engine.specs.Private.Terms.{OpenedIn};
ghost use Rattle.engine.specs.Private.Steps.{Lent, Indexed, Tabled, PropagatesFor, Searches, Tries, Decides, Flips, Steps, Reached, FromStart};

use super::sets_table::{CONFLICT, HIGH, LOW};
use super::{cell, first_block, propagation, satisfied_rows, sets_table, term_table};

// The search over a filled table of at least one row. False: there is no model.
pub(crate) fn from_start(
    kinds: &[u8],
    differences: &[u8],
    codes: &[u16],
    index: &[u16],
    terms: &[u16],
    block: &[u8],
    side: u8,
    work: &mut [u8],
) -> bool
    requires { (length kinds.now ≤ max_unknowns) × (0 < length differences.now) × (length differences.now ≤ max_rows) × (length codes.now ≤ max_entries) × Coded max_unknowns codes.now × (length index.now ≡ index_size) × (side ≤ 1) × (length work.old ≡ work_size) }
    ensures { Tabled side kinds.now codes.now index.now terms.now → FromStart kinds.now differences.now codes.now block.now side work.old work.new result }
{
    let mut sets = [0u64; search_sets::WORDS];
    let mut opened = [0u64; term_table::WORDS];
    let hi = differences.len();
    open_terms(kinds, codes, terms, side, work, hi, &mut opened, &mut sets);
    if consequences_at_start(
        kinds,
        differences,
        codes,
        work,
        &mut sets,
        index,
        &opened,
        side,
    ) {
        solve(
            kinds,
            differences,
            codes,
            work,
            &mut sets,
            index,
            &opened,
            block,
            side,
            0,
            0,
            hi,
        )
    } else {
        false
    }
}

// Finds the terms that are open in each row, and notes them.
fn open_terms(
    kinds: &[u8],
    codes: &[u16],
    terms: &[u16],
    side: u8,
    work: &[u8],
    count: usize,
    opened: &mut [u64],
    sets: &mut [u64],
)
    ensures { side ≡ 1 → OpenedIn kinds.now codes.now terms.now work.now count opened.new }
{
    if side == 1 {
        term_table::open(kinds, codes, terms, work, count, opened);
        satisfied_rows::begin(kinds, codes, terms, opened, count, sets);
    }
}

// The consequences of the rows' values alone.
fn consequences_at_start(
    kinds: &[u8],
    differences: &[u8],
    codes: &[u16],
    work: &mut [u8],
    sets: &mut [u64],
    index: &[u16],
    opened: &[u64],
    side: u8,
) -> bool
    requires lent { Lent side differences.now codes.now work.old sets.old index.now }
    requires kinds_len_bound { (length kinds.now ≤ max_unknowns) × (side ≤ 1) }
    ensures { Indexed side codes.now index.now → PropagatesFor kinds.now side differences.now codes.now opened.now 0 (length differences.now) 1 work.old work.new sets.old sets.new result }
{
    if side == 1 {
        satisfied_rows::check_given(kinds, codes, work, sets, opened, differences.len())
    } else {
        propagation::propagate_all(kinds, differences, codes, work, sets, index)
    }
}

// Finds the values at the positions from k on in the rows from lo to hi. False: there are none, and the set at CONFLICT says by which decisions.
#[cycle(assume_decide_flip_solve_step)]
fn solve(
    kinds: &[u8],
    differences: &[u8],
    codes: &[u16],
    work: &mut [u8],
    sets: &mut [u64],
    index: &[u16],
    opened: &[u64],
    block: &[u8],
    side: u8,
    k: usize,
    lo: usize,
    hi: usize,
) -> bool
    requires lent { Lent side differences.now codes.now work.old sets.old index.now }
    requires kinds_len_bound { (length kinds.now ≤ max_unknowns) × (side ≤ 1) × (k ≤ length kinds.now) × (lo < hi) × (hi ≤ length differences.now) }
    ensures { Indexed side codes.now index.now → Searches kinds.now differences.now codes.now opened.now block.now side k lo hi work.old work.new sets.old sets.new result }
{
    let mid = search_groups::split_row(differences, lo, hi);
    let until = search_groups::split_position(differences, lo, mid, kinds.len());
    let at = search_groups::first_open(kinds, work, side, k, lo, until);
    if step(
        kinds,
        differences,
        codes,
        work,
        sets,
        index,
        opened,
        block,
        side,
        at,
        until,
        lo,
        mid,
        hi,
    ) {
        return true;
    }
    search_sets::resolve(sets, CONFLICT, k, at); // what stands was reached by what its own sets say
    false
}

// The search at the position `at` behind those that stand: past the last one, at a decision, or at a split, where the rows from mid on and
// those before have different values. Of the two parts the one with the row of the last conflict comes first, or else the rows from mid on.
#[cycle(assume_decide_flip_solve_step)]
fn step(
    kinds: &[u8],
    differences: &[u8],
    codes: &[u16],
    work: &mut [u8],
    sets: &mut [u64],
    index: &[u16],
    opened: &[u64],
    block: &[u8],
    side: u8,
    at: usize,
    until: usize,
    lo: usize,
    mid: usize,
    hi: usize,
) -> bool
    requires lent { Lent side differences.now codes.now work.old sets.old index.now }
    requires kinds_len_bound { (length kinds.now ≤ max_unknowns) × (side ≤ 1) × (at ≤ length kinds.now) × (until ≤ length kinds.now) × (lo < hi) × (hi ≤ length differences.now) }
    requires lo_le_mid { (lo ≤ mid) × (mid < hi) × (until < length kinds.now → lo < mid) }
    ensures { Indexed side codes.now index.now → Steps kinds.now differences.now codes.now opened.now block.now side at until lo mid hi work.old work.new sets.old sets.new result }
{
    if at == kinds.len() {
        return reached(codes, work, sets, kinds, index, opened, side, lo);
    }
    if at < until {
        return decide(
            kinds,
            differences,
            codes,
            work,
            sets,
            index,
            opened,
            block,
            side,
            at,
            lo,
            hi,
        );
    }
    let low = sets_table::conflict_between(sets, lo, mid);
    let from = either(low, lo, mid);
    let to = either(low, mid, hi);
    let other_from = either(low, mid, lo);
    let other_to = either(low, hi, mid);
    if solve(
        kinds,
        differences,
        codes,
        work,
        sets,
        index,
        opened,
        block,
        side,
        at + 1,
        from,
        to,
    ) {} else {
        return false;
    }
    search_sets::trim(sets, at, kinds.len()); // no decision of one part stands in the other
    solve(
        kinds,
        differences,
        codes,
        work,
        sets,
        index,
        opened,
        block,
        side,
        at + 1,
        other_from,
        other_to,
    )
}

fn either(first: bool, a: usize, b: usize) -> usize
    ensures { result ≡ cond first a b }
{
    if first { a } else { b }
}

// Tries the wanted value at the open own position k, and the other one if a conflict was reached by that.
#[cycle(assume_decide_flip_solve_step)]
fn decide(
    kinds: &[u8],
    differences: &[u8],
    codes: &[u16],
    work: &mut [u8],
    sets: &mut [u64],
    index: &[u16],
    opened: &[u64],
    block: &[u8],
    side: u8,
    k: usize,
    lo: usize,
    hi: usize,
) -> bool
    requires lent { Lent side differences.now codes.now work.old sets.old index.now }
    requires kinds_len_bound { (length kinds.now ≤ max_unknowns) × (side ≤ 1) × (k < length kinds.now) × (lo < hi) × (hi ≤ length differences.now) }
    ensures { Indexed side codes.now index.now → Decides kinds.now differences.now codes.now opened.now block.now side k lo hi work.old work.new sets.old sets.new result }
{
    let wanted = cell::wanted(work, lo, k);
    if assume(
        kinds,
        differences,
        codes,
        work,
        sets,
        index,
        opened,
        block,
        side,
        k,
        lo,
        hi,
        wanted,
    ) {
        return true;
    }
    if search_sets::has(sets, CONFLICT, k) {} else {
        return false;
    }
    flip(
        kinds,
        differences,
        codes,
        work,
        sets,
        index,
        opened,
        block,
        side,
        k,
        lo,
        hi,
        wanted,
    )
}

// After a conflict of the value `tried` at the own position k, which names k: tries the other one.
#[cycle(assume_decide_flip_solve_step)]
fn flip(
    kinds: &[u8],
    differences: &[u8],
    codes: &[u16],
    work: &mut [u8],
    sets: &mut [u64],
    index: &[u16],
    opened: &[u64],
    block: &[u8],
    side: u8,
    k: usize,
    lo: usize,
    hi: usize,
    tried: bool,
) -> bool
    requires lent { Lent side differences.now codes.now work.old sets.old index.now }
    requires kinds_len_bound { (length kinds.now ≤ max_unknowns) × (side ≤ 1) × (k < length kinds.now) × (lo < hi) × (hi ≤ length differences.now) }
    ensures { Indexed side codes.now index.now → Flips kinds.now differences.now codes.now opened.now block.now side k lo hi tried work.old work.new sets.old sets.new result }
{
    search_cells::undo(work, lo, hi, k as u8 + 1);
    search_sets::trim(sets, k, kinds.len());
    let low = sets[LOW];
    let high = sets[HIGH];
    if assume(
        kinds,
        differences,
        codes,
        work,
        sets,
        index,
        opened,
        block,
        side,
        k,
        lo,
        hi,
        !tried,
    ) {
        return true;
    }
    if search_sets::has(sets, CONFLICT, k) {
        search_sets::unite_words(sets, CONFLICT, low, high);
    }
    false
}

// Tries one value at the own position k of the rows from lo to hi. Where its consequences do not refute it, an earlier search may rule it out.
#[cycle(assume_decide_flip_solve_step)]
fn assume(
    kinds: &[u8],
    differences: &[u8],
    codes: &[u16],
    work: &mut [u8],
    sets: &mut [u64],
    index: &[u16],
    opened: &[u64],
    block: &[u8],
    side: u8,
    k: usize,
    lo: usize,
    hi: usize,
    value: bool,
) -> bool
    requires lent { Lent side differences.now codes.now work.old sets.old index.now }
    requires kinds_len_bound { (length kinds.now ≤ max_unknowns) × (side ≤ 1) × (k < length kinds.now) × (lo < hi) × (hi ≤ length differences.now) }
    ensures { Indexed side codes.now index.now → Tries kinds.now differences.now codes.now opened.now block.now side k lo hi value work.old work.new sets.old sets.new result }
{
    search_sets::add(sets, k, k);
    search_cells::set_rows(work, k, lo, hi, k as u8 + 2, value);
    if consequences(
        kinds,
        differences,
        codes,
        work,
        sets,
        index,
        opened,
        side,
        k,
        lo,
        hi,
    ) {
        if first_block::rules_out(block, work, lo, k, value) {
            search_sets::fill(sets, CONFLICT); // by all that stands before
            return false;
        }
        solve(
            kinds,
            differences,
            codes,
            work,
            sets,
            index,
            opened,
            block,
            side,
            k + 1,
            lo,
            hi,
        )
    } else {
        false
    }
}

// The consequences of the value just set at position k.
fn consequences(
    kinds: &[u8],
    differences: &[u8],
    codes: &[u16],
    work: &mut [u8],
    sets: &mut [u64],
    index: &[u16],
    opened: &[u64],
    side: u8,
    k: usize,
    lo: usize,
    hi: usize,
) -> bool
    requires lent { Lent side differences.now codes.now work.old sets.old index.now }
    requires kinds_len_bound { (length kinds.now ≤ max_unknowns) × (side ≤ 1) × (k < max_unknowns) × (lo < hi) × (hi ≤ length differences.now) }
    ensures { Indexed side codes.now index.now → PropagatesFor kinds.now side differences.now codes.now opened.now lo hi (k + 2) work.old work.new sets.old sets.new result }
{
    if side == 1 {
        satisfied_rows::check(kinds, codes, work, sets, opened, k, lo, hi)
    } else {
        propagation::propagate_from(differences, codes, work, sets, index, k, lo, hi)
    }
}

// Whether the values of row i reach the side's goal. Where they do not, every position is a reason. The universal side's goal is a false
// clause, which may be known.
fn reached(
    codes: &[u16],
    work: &[u8],
    sets: &mut [u64],
    kinds: &[u8],
    index: &[u16],
    opened: &[u64],
    side: u8,
    i: usize,
) -> bool
    requires { (length work.now ≡ work_size) × (length sets.old ≡ sets_size) × (i < max_rows) × (side ≤ 1) × Coded max_unknowns codes.now }
    ensures { Reached codes.now side work.now i sets.old sets.new result }
{
    if side == 0 {
        return values_reach(codes, work, sets, side, i);
    }
    if satisfied_rows::finds_false(codes, work, sets, kinds, index, opened, i) {
        return true;
    }
    values_reach(codes, work, sets, side, i)
}

// The same by reading all clauses.
fn values_reach(codes: &[u16], work: &[u8], sets: &mut [u64], side: u8, i: usize) -> bool
    requires { (length work.now ≡ work_size) × (length sets.old ≡ sets_size) × (i < max_rows) × (side ≤ 1) × Coded max_unknowns codes.now }
    ensures { Reached codes.now side work.now i sets.old sets.new result }
{
    let all = search_evaluation::matrix(codes, work, i);
    if side == 0 {
        if all {
            return true;
        }
    } else {
        if all {} else {
            return true;
        }
    }
    search_sets::fill(sets, CONFLICT);
    false
}
