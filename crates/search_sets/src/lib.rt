// Sets of positions, two 64-bit words each, in a lent table of words: what they take in, lose and have.
// Every public function is total: its contract gives the table at exit, or the answer, for whatever is lent. A table has `WORDS` words, and
// sets at the places below `PLACES`; elsewhere nothing is changed and nothing is had. What the sets stand for is left to others, and so are
// the words behind them.
#![tactic(auto)]

ghost use Rattle.std.specs.Prelude.{◌≡◌, ◌-◌, ◌<◌, length};
ghost use Rattle.formula.specs.Formula.{max_unknowns};
ghost use Rattle.search_sets.specs.Sets.{set_places, sets_size, has_place, numbers_fit, words_put, words_joined, words_met, set_joined, bit_added, bit_at};
ghost use Rattle.search_sets.specs.Sets.{ones, united, united_words, added, has, emptied, filled, trimmed, resolved, reasons_added};

use formula::Formula;

// A set for each position, and two behind them.
pub const PLACES: usize = Formula::UNKNOWNS + 2;

// Behind the sets there is room for hints: two words for each row, three for each end of a range of positions, and eight more.
pub const WORDS: usize = 2 * PLACES + 2 * Formula::ROWS + 3 * ENDS + 8;

// The last position.
const LAST: usize = Formula::UNKNOWNS - 1;

// The ends of ranges of positions are below this.
const ENDS: usize = Formula::UNKNOWNS + 1;

// A word of ones.
const ALL: u64 = 18_446_744_073_709_551_615;

// The set at `to` takes in the set at `from`.
pub fn unite(sets: &mut [u64], to: usize, from: usize)
    ensures { sets.new ≡ united sets.old to from }
{
    if numbers_fit(sets.len(), to, from, PLACES) {} else {
        return;
    }
    unite_at(sets, to, from);
}

// The set at `to` takes in the set of two words.
pub fn unite_words(sets: &mut [u64], to: usize, low: u64, high: u64)
    ensures { sets.new ≡ united_words sets.old to low high }
{
    if has_place(sets.len(), to) {} else {
        return;
    }
    join(sets, to, low, high);
}

// The set at `to` takes in the position p.
pub fn add(sets: &mut [u64], to: usize, p: usize)
    ensures { sets.new ≡ added sets.old to p }
{
    if numbers_fit(sets.len(), to, p, Formula::UNKNOWNS) {} else {
        return;
    }
    add_at(sets, to, p);
}

// Whether the set at `of` has the position p.
pub fn has(sets: &[u64], of: usize, p: usize) -> bool
    ensures { result ≡ has sets.now of p }
{
    if numbers_fit(sets.len(), of, p, Formula::UNKNOWNS) {
        has_at(sets, of, p)
    } else {
        false
    }
}

// The set at `to` becomes empty.
pub fn empty(sets: &mut [u64], to: usize)
    ensures { sets.new ≡ emptied sets.old to }
{
    if has_place(sets.len(), to) {} else {
        return;
    }
    put(sets, to, 0, 0);
}

// The set at `to` becomes that of all positions.
pub fn fill(sets: &mut [u64], to: usize)
    ensures { sets.new ≡ filled sets.old to }
{
    if has_place(sets.len(), to) {} else {
        return;
    }
    put(sets, to, ALL, ALL);
}

// Takes the positions from k on out of the sets at the places from k to n.
pub fn trim(sets: &mut [u64], k: usize, n: usize)
    ensures { sets.new ≡ trimmed sets.old k n }
{
    if numbers_fit(sets.len(), k, n, ENDS) {} else {
        return;
    }
    let low = ones(k);
    let high = ones_above(k);
    for p in k..n {
        meet(sets, p, low, high);
    }
}

// For each position from k to `at`, in order, that the set at `of` has by then, it takes in the set at that place.
pub fn resolve(sets: &mut [u64], of: usize, k: usize, at: usize)
    ensures { sets.new ≡ resolved sets.old of k at }
{
    if numbers_fit(sets.len(), of, at, ENDS) {} else {
        return;
    }
    for p in k..at {
        if has_at(sets, of, p) {
            unite_at(sets, of, p);
        }
    }
}

// The set at `to` takes in the sets of the positions, other than `to`, of the codes from `start` up to the first 0.
pub fn add_reasons(codes: &[u16], sets: &mut [u64], start: usize, to: usize)
    ensures { sets.new ≡ reasons_added codes.now sets.old start to }
{
    if has_place(sets.len(), to) {} else {
        return;
    }
    for e in start..codes.len() {
        let c = usize::from(codes[e]);
        if c == 0 {
            return;
        }
        let k = (c / 2 + LAST) % Formula::UNKNOWNS;
        if k != to {
            unite_at(sets, to, k);
        }
    }
}

// Whether a table of that size has a set at `to`, and another number is below its bound.
fn numbers_fit(size: usize, to: usize, number: usize, bound: usize) -> bool
    ensures { result ≡ numbers_fit size to number bound }
{
    if has_place(size, to) {
        number < bound
    } else {
        false
    }
}

fn has_place(size: usize, to: usize) -> bool
    ensures { result ≡ has_place size to }
{
    if size == WORDS { to < PLACES } else { false }
}

fn unite_at(sets: &mut [u64], to: usize, from: usize)
    requires { (length sets.old ≡ sets_size) × (to < set_places) × (from < set_places) }
    ensures { sets.new ≡ set_joined sets.old to from }
{
    let low = sets[2 * from];
    let high = sets[2 * from + 1];
    join(sets, to, low, high);
}

// The set at `to` has what it or the set of two words has.
fn join(sets: &mut [u64], to: usize, low: u64, high: u64)
    requires { (length sets.old ≡ sets_size) × (to < set_places) }
    ensures { sets.new ≡ words_joined sets.old to low high }
{
    let new_low = sets[2 * to] | low;
    let new_high = sets[2 * to + 1] | high;
    put(sets, to, new_low, new_high);
}

// The set at `to` keeps what the set of two words has.
fn meet(sets: &mut [u64], to: usize, low: u64, high: u64)
    requires { (length sets.old ≡ sets_size) × (to < set_places) }
    ensures { sets.new ≡ words_met sets.old to low high }
{
    let kept_low = sets[2 * to] & low;
    let kept_high = sets[2 * to + 1] & high;
    put(sets, to, kept_low, kept_high);
}

// The set at `to` becomes that of two words.
fn put(sets: &mut [u64], to: usize, low: u64, high: u64)
    requires { (length sets.old ≡ sets_size) × (to < set_places) }
    ensures { sets.new ≡ words_put sets.old to low high }
{
    sets[2 * to] = low;
    sets[2 * to + 1] = high;
}

fn add_at(sets: &mut [u64], to: usize, p: usize)
    requires { (length sets.old ≡ sets_size) × (to < set_places) × (p < max_unknowns) }
    ensures { sets.new ≡ bit_added sets.old to p }
{
    let at = 2 * to + p / 64;
    sets[at] = sets[at] | (1u64 << (p % 64));
}

fn has_at(sets: &[u64], of: usize, p: usize) -> bool
    requires { (length sets.now ≡ sets_size) × (of < set_places) × (p < max_unknowns) }
    ensures { result ≡ bit_at sets.now of p }
{
    (sets[2 * of + p / 64] >> (p % 64)) % 2 == 1
}

// A word whose lowest k bits are ones.
fn ones(k: usize) -> u64
    ensures { result ≡ ones k }
{
    if k < 64 { (1u64 << k) - 1 } else { ALL }
}

// The same for the upper word of a set: the ones from position 64 on.
fn ones_above(k: usize) -> u64
    ensures { result ≡ ones (k - 64) }
{
    if k < 64 {
        return 0;
    }
    ones(k - 64)
}
