// The reply: for a formula, a claim with the rows that bear it out, and moves (values of a start of the prefix), the value that the claim's side gives to
// the next unknown, so that the claim stays borne out. `next_move` promises, for all that is lent, what the definition gives (specs/Next.antt); that a game
// in which its values are followed ends with the claim, whatever the other side chooses, is stated in specs/NextRight.antt.
// The judge is asked over the rows that still fit, on the formula with the moves set; no new run is made, and the rows never grow.
#![tactic(auto)]

ghost use Rattle.std.specs.Prelude.{◌≡◌, false, cond, [], ◌∷◌, ◌++◌, ◌+◌, ◌≤◌, ◌<◌, length, take, replicate};
ghost use Rattle.cause.specs.Cause.{told, unless_cause};
ghost use Rattle.formula.specs.Formula.{kind_of, prefix, max_unknowns, work_size};
ghost use Rattle.rows.specs.Table.{row_at, room};
ghost use Rattle.rows.specs.Row.{bit_of};
ghost use Rattle.rows.specs.Access.{bit_set};
ghost use Rattle.judge.specs.Judge.{claims_true, lent_rows, outcome as judged};
ghost use Rattle.restriction.specs.Outcome.{value_of, values_of, wrong_values};
ghost use Rattle.case_rules.specs.Restricted.{IsAccepted, restricted};
ghost use Rattle.case_rules.specs.Casebook.{offered};
ghost use Rattle.reply_rules.specs.Position.{borne_out};
ghost use Rattle.reply.specs.Next.{rows_cause, cause as cause_of, next as next_of};
ghost use Rattle.reply.specs.NextRight.{NextRight};
ghost use Rattle.reply.specs.Private.Fitting.{agrees as agreeing, one_if as one_or_none, fits as fits_so, owned as owned_of};
ghost use Rattle.reply.specs.Private.Fitting.{Lent, Blank, Copied, Kept, Fitted, says_accepted};

use cause::Cause;
use formula::Formula;
use judge::Judgement;

// The value of the next unknown, if it is the claim's side that sets it. There is none where neither value is borne out, which in a game played by these
// replies from the start never happens.
#[derive(Clone, Copy)]
pub enum Next {
    Value(bool),
    OthersTurn,
    Done,
    NotBorneOut,
}

const TABLE: usize = 16 * Formula::ROWS;

// The moves are one byte each in prefix order, 0 false and 1 true.
pub fn next_move(
    kinds: &[u8],
    literals: &[i32],
    claim: u8,
    rows: &[u8],
    count: usize,
    moves: &[u8],
) -> Result<Next, Cause>
    ensures value { result ≡ next_of kinds.now literals.now claim rows.now count moves.now }
    ensures cause_told { told result ≡ cause_of kinds.now literals.now claim rows.now count moves.now }
    ensures proved { NextRight kinds.now literals.now claim rows.now count }
{
    check(kinds, literals, claim, rows, count, moves)?;
    let depth = moves.len();
    if depth == kinds.len() {
        return Ok(Next::Done);
    }
    if !is_winners(kinds[depth], claim) {
        return Ok(Next::OthersTurn);
    }
    if is_borne_out_with(kinds, literals, claim, rows, count, moves, 1) {
        return Ok(Next::Value(true));
    }
    if is_borne_out_with(kinds, literals, claim, rows, count, moves, 0) {
        return Ok(Next::Value(false));
    }
    Ok(Next::NotBorneOut)
}

// The first cause that applies.
fn check(
    kinds: &[u8],
    literals: &[i32],
    claim: u8,
    rows: &[u8],
    count: usize,
    moves: &[u8],
) -> Result<(), Cause>
    ensures { result ≡ unless_cause (cause_of kinds.now literals.now claim rows.now count moves.now) tt }
{
    Formula::check(kinds, literals)?;
    check_rows(kinds, claim, rows, count)?;
    if restriction::are_wrong(kinds.len(), moves) {
        return Err(Cause::Values);
    }
    Ok(())
}

// The judge's causes of the rows.
fn check_rows(kinds: &[u8], claim: u8, rows: &[u8], count: usize) -> Result<(), Cause>
    ensures { result ≡ unless_cause (rows_cause kinds.now claim rows.now count) tt }
{
    if !rows::table_fits(rows) {
        return Err(Cause::Rows);
    }
    if claim > 1 {
        return Err(Cause::Count);
    }
    if rows.len() / 16 < count {
        return Err(Cause::Count);
    }
    if rows::stray_bit(rows, count, owned(kinds, claim)) {
        return Err(Cause::StrayBit);
    }
    Ok(())
}

// Whether an unknown of this kind belongs to the claim's side.
fn is_winners(kind: u8, claim: u8) -> bool
    ensures { result ≡ offered (claims_true claim) (kind_of kind) }
{
    if claim == 0 {
        if kind == 0 {
            return false;
        }
        return true;
    }
    if kind == 0 {
        return true;
    }
    false
}

// How many of these unknowns do.
fn owned(kinds: &[u8], claim: u8) -> usize
    ensures value { result ≡ owned_of (claims_true claim) (prefix kinds.now) }
    ensures few { result ≤ length kinds.now }
{
    kinds
        .iter()
        .filter(|kind| is_winners(**kind, claim))
        .count()
}

// Whether the position behind one move more is borne out.
fn is_borne_out_with(
    kinds: &[u8],
    literals: &[i32],
    claim: u8,
    rows: &[u8],
    count: usize,
    moves: &[u8],
    value: u8,
) -> bool
    requires { Lent kinds.now literals.now claim rows.now count × (wrong_values (length kinds.now) moves.now ≡ false)
        × (length moves.now < length kinds.now) × (value ≤ 1) }
    ensures { result ≡ borne_out (claims_true claim) kinds.now literals.now (lent_rows kinds.now claim rows.now count)
        (values_of moves.now ++ (value_of value ∷ [])) }
{
    let mut longer = [0u8; Formula::UNKNOWNS];
    let size = append(moves, value, &mut longer);
    is_borne_out(kinds, literals, claim, rows, count, &longer[..size])
}

// Writes the moves and one more: how many these are.
fn append(moves: &[u8], value: u8, longer: &mut [u8]) -> usize
    requires { length moves.now < length longer.old }
    ensures value { result ≡ length moves.now + 1 }
    ensures longer_after { take result longer.new ≡ moves.now ++ (value ∷ []) }
{
    let end = moves.len();
    longer[..end].copy_from_slice(moves);
    longer[end] = value;
    end + 1
}

// Whether the judge accepts the rows that still fit for the formula with the moves set.
fn is_borne_out(
    kinds: &[u8],
    literals: &[i32],
    claim: u8,
    rows: &[u8],
    count: usize,
    moves: &[u8],
) -> bool
    requires { Lent kinds.now literals.now claim rows.now count × (wrong_values (length kinds.now) moves.now ≡ false) }
    ensures { result ≡ borne_out (claims_true claim) kinds.now literals.now (lent_rows kinds.now claim rows.now count) (values_of moves.now) }
{
    let mut left = [0i32; Formula::ENTRIES];
    let mut kept = [0u8; TABLE];
    let used = set(kinds, literals, moves, &mut left);
    let fit = keep_fitting(kinds, claim, rows, count, moves, &mut kept);
    is_accepted(&kinds[moves.len()..], &left[..used], claim, &kept, fit)
}

// Writes the literals of the formula with the moves set: how many entries these are.
fn set(kinds: &[u8], literals: &[i32], moves: &[u8], left: &mut [i32]) -> usize
    requires { IsAccepted kinds.now literals.now × (length literals.now ≤ length left.old) × (wrong_values (length kinds.now) moves.now ≡ false) }
    ensures upper_bound { result ≤ length left.new }
    ensures left_after { take result left.new ≡ restricted (values_of moves.now) literals.now }
{
    restriction::set_first(kinds, literals, moves, left).unwrap_or(0)
}

// Whether the judge accepts the rows.
fn is_accepted(kinds: &[u8], literals: &[i32], claim: u8, rows: &[u8], count: usize) -> bool
    ensures { result ≡ says_accepted (judged kinds.now literals.now claim rows.now count (replicate work_size 0)) }
{
    let mut work = [0u8; Formula::WORK];
    matches!(
        judge::judge(kinds, literals, claim, rows, count, &mut work),
        Ok(Judgement::Accepted)
    )
}

// Copies the rows that fit the moves, what they say of the unknowns behind these, into an empty table: how many there are.
fn keep_fitting(
    kinds: &[u8],
    claim: u8,
    rows: &[u8],
    count: usize,
    moves: &[u8],
    table: &mut [u8],
) -> usize
    requires { (length kinds.now ≤ max_unknowns) × (length moves.now ≤ length kinds.now) × (count ≤ room rows.now) × (count ≤ room table.old)
        × Blank 0 table.old }
    ensures fitted { Fitted (claims_true claim) kinds.now (values_of moves.now) rows.now count table.new result }
    ensures table_len_unchanged { length table.new ≡ length table.old }
{
    let depth = moves.len();
    let from = owned(&kinds[..depth], claim);
    let width = owned(&kinds[depth..], claim);
    let mut to = 0;
    for i in 0..count {
        let fit = row_fits(kinds, claim, rows, i, moves);
        to = keep(fit, rows, i, from, width, table, to);
    }
    to
}

// Whether row i has the values of the claim's side among the moves.
fn row_fits(kinds: &[u8], claim: u8, rows: &[u8], i: usize, moves: &[u8]) -> bool
    requires { (length kinds.now ≤ max_unknowns) × (length moves.now ≤ length kinds.now) }
    ensures { result ≡ fits_so (claims_true claim) (prefix kinds.now) (values_of moves.now) (bit_of (row_at rows.now i)) }
{
    let mut bit = 0;
    for (kind, value) in kinds.iter().zip(moves) {
        let own = is_winners(*kind, claim);
        if !agrees(own, *value, rows::bit(rows, i, bit)) {
            return false;
        }
        bit += usize::from(own);
    }
    true
}

// Whether a row's next bit is the move's value, if the unknown is the row's.
fn agrees(own: bool, value: u8, bit: bool) -> bool
    ensures { result ≡ agreeing own (value_of value) bit }
{
    if !own {
        return true;
    }
    if value == 0 {
        return !bit;
    }
    bit
}

// Copies what row i says of the unknowns behind the moves to the next place, if it fits: how many are kept then.
fn keep(
    fit: bool,
    rows: &[u8],
    i: usize,
    from: usize,
    width: usize,
    table: &mut [u8],
    to: usize,
) -> usize
    requires { (from + width ≤ max_unknowns) × (to < room table.old) × Blank to table.old }
    ensures value { result ≡ to + one_or_none fit }
    ensures kept { Kept fit (bit_of (row_at rows.now i)) from width table.old to table.new }
{
    if !fit {
        return to;
    }
    copy_behind(rows, i, from, width, table, to);
    to + 1
}

// Copies the bits of row i from `from` on, as many as the width says, to an empty row.
fn copy_behind(rows: &[u8], i: usize, from: usize, width: usize, table: &mut [u8], to: usize)
    requires { (from + width ≤ max_unknowns) × (to < room table.old) × Blank to table.old }
    ensures { Copied (bit_of (row_at rows.now i)) from width table.old to table.new }
{
    for k in 0..width {
        set_if(table, to, k, rows::bit(rows, i, from + k));
    }
}

// Sets bit k of the row if the value is true.
fn set_if(table: &mut [u8], row: usize, k: usize, value: bool)
    ensures { table.new ≡ cond value (bit_set table.old row k) table.old }
{
    if value {
        rows::set_bit(table, row, k);
    }
}
