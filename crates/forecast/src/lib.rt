// What the coming round will need (02, C-17): the copies over both row tables, and whether the free existential rows are sure to do.
// `forecast` promises, for all that is lent, the numbers of the definition (specs/Outcome.antt) or the first cause that applies; and of every
// accepted input that step 2 of a round from these tables can't end in no room where it says that they fit (specs/Forecast.antt).
// It writes nothing and searches nothing: rounds belong to `run`.
#![tactic(auto)]

ghost use Rattle.std.specs.Prelude.{◌≡◌, ◌≤◌, ◌<◌, max, length};
ghost use Rattle.cause.specs.Cause.{unless_cause};
ghost use Rattle.formula.specs.Formula.{prefix, max_unknowns, max_rows};
ghost use Rattle.rows.specs.Table.{row_at, room};
ghost use Rattle.expansion.specs.Side.{flags};
ghost use Rattle.expansion.specs.OtherSide.{side_of, other};
ghost use Rattle.forecast.specs.Outcome.{given, table_cause, copies_over};
ghost use Rattle.forecast.specs.Forecast.{Foretold};
ghost use Rattle.forecast.specs.Private.Starts.{AlikeBits, Shared, Tells, Told, within, summed};

use cause::Cause;
use formula::Formula;

// The copies over A and over S as they stand, and whether the free existential rows number at least the count of A.
#[derive(Clone, Copy, Debug, PartialEq, Eq)]
pub struct Outlook {
    pub over_universal: usize,
    pub over_existential: usize,
    pub fits: bool,
}

// A row's bytes.
const BYTES: usize = rows::BITS / 8;

pub fn forecast(
    kinds: &[u8],
    literals: &[i32],
    universal_rows: &[u8],
    universal: usize,
    existential_rows: &[u8],
    existential: usize,
) -> Result<Outlook, Cause>
    ensures proved { Foretold (given kinds.now literals.now universal_rows.now universal
        existential_rows.now existential) result }
{
    let universals = Formula::check(kinds, literals)?.universals;
    let existentials = kinds.len() - universals;
    check_tables(
        universal_rows,
        universal,
        universals,
        existential_rows,
        existential,
        existentials,
    )?;
    Ok(Outlook {
        over_universal: copies(kinds, false, universal_rows, universal),
        over_existential: copies(kinds, true, existential_rows, existential),
        fits: universal <= existential_rows.len() / BYTES - existential,
    })
}

// The first of the row tables' causes that applies.
fn check_tables(
    universal_rows: &[u8],
    universal: usize,
    universals: usize,
    existential_rows: &[u8],
    existential: usize,
    existentials: usize,
) -> Result<(), Cause>
    ensures { result ≡ unless_cause (table_cause universal_rows.now universal universals existential_rows.now existential existentials) tt }
{
    if !rows::table_fits(universal_rows) {
        return Err(Cause::Rows);
    }
    if !rows::table_fits(existential_rows) {
        return Err(Cause::Rows);
    }
    if universal_rows.len() / BYTES < universal {
        return Err(Cause::Count);
    }
    if existential_rows.len() / BYTES < existential {
        return Err(Cause::Count);
    }
    if rows::stray_bit(universal_rows, universal, universals) {
        return Err(Cause::StrayBit);
    }
    if rows::stray_bit(existential_rows, existential, existentials) {
        return Err(Cause::StrayBit);
    }
    Ok(())
}

// The copies of a side's unknowns over the first rows of the other side's table. At an own unknown with b of the others' before it they are as many
// as rows that no earlier row shares b bits with: one pass over the rows finds for each how many bits tell it from those before.
fn copies(kinds: &[u8], universal: bool, rows: &[u8], count: usize) -> usize
    requires { (length kinds.now ≤ max_unknowns) × (count ≤ max_rows) × (count ≤ room rows.now) }
    ensures { result ≡ copies_over (other (side_of universal)) kinds.now rows.now count }
{
    let mut numbers = [0u8; Formula::ROWS];
    tell(rows, count, &mut numbers);
    sum(kinds, universal, &numbers, count)
}

// Writes for each row below the count how many bits tell it from the rows before it.
fn tell(rows: &[u8], count: usize, numbers: &mut [u8])
    requires { (count ≤ room rows.now) × (count ≤ length numbers.old) }
    ensures { Told rows.now numbers.new count }
{
    for i in 0..count {
        numbers[i] = telling(rows, i) as u8;
    }
}

fn telling(rows: &[u8], i: usize) -> usize
    requires { i < room rows.now }
    ensures { Tells rows.now i i result }
{
    let mut bits: usize = 0;
    for j in 0..i {
        bits = bits.max(shared(rows, i, j) + 1);
    }
    bits
}

// The longest start that rows i and j share, in bits: the first byte that differs ends the walk.
fn shared(rows: &[u8], i: usize, j: usize) -> usize
    requires { (i < room rows.now) × (j < room rows.now) }
    ensures { Shared (row_at rows.now i) (row_at rows.now j) result }
{
    let x = BYTES * i;
    let y = BYTES * j;
    for p in 0..BYTES {
        if rows[x + p] != rows[y + p] {
            return 8 * p + alike_bits(rows[x + p], rows[y + p]);
        }
    }
    rows::BITS
}

// The lowest bits in which two bytes agree.
fn alike_bits(a: u8, b: u8) -> usize
    ensures { AlikeBits a b result }
{
    for t in 0..8u8 {
        if (a >> t) % 2 != (b >> t) % 2 {
            return t as usize;
        }
    }
    8
}

// At each own unknown the rows that are told apart by the others' unknowns before it, added up.
fn sum(kinds: &[u8], universal: bool, numbers: &[u8], count: usize) -> usize
    requires { (length kinds.now ≤ max_unknowns) × (count ≤ max_rows) × (count ≤ length numbers.now) }
    ensures { result ≡ summed (λ b. within numbers.now b count) 0 (flags (side_of universal) (prefix kinds.now)) }
{
    let mut total: usize = 0;
    let mut before: usize = 0;
    for kind in kinds {
        let own = (*kind != 0) == universal;
        if own {
            total += told_by(numbers, count, before);
        } else {
            before += 1;
        }
    }
    total
}

// How many of the first numbers are at most so many bits.
fn told_by(numbers: &[u8], count: usize, bits: usize) -> usize
    requires { count ≤ length numbers.now }
    ensures { (result ≡ within numbers.now bits count) × (result ≤ count) }
{
    let mut told: usize = 0;
    for i in 0..count {
        if numbers[i] as usize <= bits {
            told += 1;
        }
    }
    told
}
