// What a venue pays for a study (02, C-21 to C-23): a price for each round, a rise for each change of kind in the prefix, rounded to a cent.
// `fee`, by the built-in bands, and `fee_with`, by bands that are lent, promise for every input the cents that the definitions (specs/Fee.antt,
// specs/Bands.antt) give, or the refusal; and of every fee, who pays it, what bands a table comes to and how it is rounded
// (specs/FeesRight.antt). They cost as many steps as there are kinds and bands, however many the rounds are.
#![tactic(auto)]

ghost use Rattle.std.specs.Prelude.{◌≡◌, ◌≤◌, ◌<◌, ◌-◌, ◌^◌, ltb, drop};
ghost use Rattle.formula.specs.Formula.{max_unknowns};
ghost use Rattle.formula.specs.Causes.{any, cause_1};
ghost use Rattle.fee.specs.Rounding.{nearest_even};
ghost use Rattle.fee.specs.Fee.{changes as changes_of, risen as risen_of, fee_on, cause, answer, Charged};
ghost use Rattle.fee.specs.Bands.{max_price, cause_21, rises as rises_of, ChargedWith};
ghost use Rattle.fee.specs.FeesRight.{FeesRight};
ghost use Rattle.fee.specs.ByBands.{next_on, by_bands, Summable};

use cause::Cause;
use formula::Formula;

// The built-in bands: the first round of each, and the price of its rounds.
const FIRSTS: [u32; 3] = [1, 9, 65];

const PRICES: [u32; 3] = [400, 250, 120];

// The limits of bands that are lent.
const BANDS: usize = 16;

const DEAREST: u32 = 100_000;

// The fee in cents for so many rounds of a study with these kinds.
pub fn fee(rounds: u32, kinds: &[u8]) -> Result<u64, Cause>
    ensures charged { Charged kinds.now rounds result }
    ensures proved { FeesRight }
{
    fee_on(sum(&FIRSTS, &PRICES, rounds), kinds)
}

// The same by the bands of two columns, the first round of each and the price of its rounds.
pub fn fee_with(firsts: &[u32], prices: &[u32], rounds: u32, kinds: &[u8]) -> Result<u64, Cause>
    ensures charged_with { ChargedWith firsts.now prices.now kinds.now rounds result }
    ensures proved { FeesRight }
{
    if is_no_table(firsts, prices) {
        return Err(Cause::Bands);
    }
    if !rises(firsts) {
        return Err(Cause::Prices);
    }
    if has_dearer(prices) {
        return Err(Cause::Prices);
    }
    fee_on(sum(firsts, prices, rounds), kinds)
}

// Whether cause 21 applies. The first entry is read only where there is one.
fn is_no_table(firsts: &[u32], prices: &[u32]) -> bool
    ensures { result ≡ cause_21 firsts.now prices.now }
{
    if firsts.len() != prices.len() {
        return true;
    }
    if firsts.len() == 0 {
        return true;
    }
    if firsts.len() > BANDS {
        return true;
    }
    if firsts[0] != 1 {
        return true;
    }
    false
}

// Whether each first round is above the one before it.
fn rises(firsts: &[u32]) -> bool
    ensures { result ≡ rises_of firsts.now }
{
    let mut rising = true;
    for i in 1..firsts.len() {
        if firsts[i] <= firsts[i - 1] {
            rising = false;
        }
    }
    rising
}

// Whether a price is over the highest that may be.
fn has_dearer(prices: &[u32]) -> bool
    ensures { result ≡ any (ltb max_price) prices.now }
{
    let mut found = false;
    for price in prices {
        if *price > DEAREST {
            found = true;
        }
    }
    found
}

// The fee on what the rounds cost together. Below 2^50 cents, the risen sum fits 64 bits.
fn fee_on(sum: u64, kinds: &[u8]) -> Result<u64, Cause>
    requires { sum < 2 ^ 50 }
    ensures { result ≡ answer (cause kinds.now) (fee_on sum kinds.now) }
{
    if is_refused(kinds) {
        return Err(Cause::Kinds);
    }
    Ok(rounded(risen(sum, changes(kinds))))
}

// Whether cause 1 applies, the only one that can without literals.
fn is_refused(kinds: &[u8]) -> bool
    ensures { result ≡ cause_1 kinds.now }
{
    Formula::check(kinds, &[]).is_err()
}

fn changes(kinds: &[u8]) -> u64
    ensures { result ≡ changes_of kinds.now }
{
    let mut count: u64 = 0;
    for i in 1..kinds.len() {
        if kinds[i - 1] != kinds[i] {
            count += 1;
        }
    }
    count
}

// In thousandths of a cent.
fn risen(sum: u64, changes: u64) -> u64
    requires { (sum < 2 ^ 50) × (changes < max_unknowns) }
    ensures { result ≡ risen_of sum changes }
{
    sum * (1_000 + 15 * changes)
}

// Thousandths as cents: the nearest, on an exact half the even one.
fn rounded(thousandths: u64) -> u64
    ensures { result ≡ nearest_even thousandths }
{
    let cents = thousandths / 1_000;
    let rest = thousandths % 1_000;
    if rest < 500 {
        return cents;
    }
    if rest > 500 {
        return cents + 1;
    }
    cents + cents % 2
}

// What the rounds cost together, band by band.
fn sum(firsts: &[u32], prices: &[u32], rounds: u32) -> u64
    requires { Summable firsts.now prices.now }
    ensures { result ≡ by_bands rounds firsts.now prices.now }
{
    let mut total: u64 = 0;
    for i in 0..firsts.len() {
        let here = rounds_from(firsts, i, rounds);
        let next = rounds_from(firsts, i + 1, rounds);
        total += here.saturating_sub(next) * prices[i] as u64;
    }
    total
}

// The rounds from the first one of band i on, none past the last band.
fn rounds_from(firsts: &[u32], i: usize, rounds: u32) -> u64
    ensures { (result ≡ next_on rounds (drop i firsts.now)) × (result ≤ 4294967296) }
{
    if i < firsts.len() {
        (rounds as u64 + 1).saturating_sub(firsts[i] as u64)
    } else {
        0
    }
}
