// Groups of neighbouring sorted rows, told by the table `differences`: entry i is the first position at which the rows i - 1 and i have different
// values, at least the number of unknowns if there is none. Nothing is written.
// Every public function is total: asked about what is not in its tables, it answers what the definition says. Who sorts the rows and what
// their values are is left to others.
#![tactic(auto)]

ghost use Rattle.std.specs.Prelude.{◌≡◌, ◌<◌, length};
ghost use Rattle.formula.specs.Formula.{max_unknowns, max_rows, work_size};
ghost use Rattle.search_groups.specs.Groups.{copy_start, copy_end, agreement_of, is_repeated, split_row, split_position, is_open, open_position};

use formula::Formula;

// The first row from lo on, up to i, that has row i's copy at position k; i if these are not rows of the table.
pub fn copy_start(differences: &[u8], k: usize, lo: usize, i: usize) -> usize
    ensures { result ≡ copy_start differences.now k lo i }
{
    if i < lo {
        return i;
    }
    if differences.len() <= i {
        return i;
    }
    for from in (lo + 1..i + 1).rev() {
        if usize::from(differences[from]) < k {
            return from;
        }
    }
    lo
}

// The row behind the last one before hi that has row i's copy at position k; i if these are not rows of the table.
pub fn copy_end(differences: &[u8], k: usize, i: usize, hi: usize) -> usize
    ensures { result ≡ copy_end differences.now k i hi }
{
    if hi <= i {
        return i;
    }
    if differences.len() < hi {
        return i;
    }
    for to in i + 1..hi {
        if usize::from(differences[to]) < k {
            return to;
        }
    }
    hi
}

// How many positions row i surely shares with the row before it, plus 1: 0 for `from`, the first row looked at, and for what is no row.
pub fn agreement(differences: &[u8], from: usize, i: usize) -> usize
    ensures { result ≡ agreement_of differences.now from i }
{
    if differences.len() <= i {
        return 0;
    }
    if i == from {
        return 0;
    }
    usize::from(differences[i]) + 1
}

// Whether a row with that agreement has the same values and copies of the unknowns of the clause at `start` as the row before it. The clause's
// largest code stands first.
pub fn repeats(codes: &[u16], start: usize, agreement: usize) -> bool
    ensures { result ≡ is_repeated codes.now start agreement }
{
    if codes.len() <= start {
        return true;
    }
    usize::from(codes[start]) / 2 < agreement
}

// The row behind lo at which the rows from lo to hi are split first; lo if none parts from the one before it, or if these are not rows of the
// table.
pub fn split_row(differences: &[u8], lo: usize, hi: usize) -> usize
    ensures { result ≡ split_row differences.now lo hi }
{
    if hi <= lo {
        return lo;
    }
    if differences.len() < hi {
        return lo;
    }
    let mut mid = lo;
    let mut least = 255;
    for i in lo + 1..hi {
        let at = differences[i];
        if at < least {
            least = at;
            mid = i;
        }
    }
    mid
}

// The position at which they part there; n if they do not part before that, or if mid is not in the table.
pub fn split_position(differences: &[u8], lo: usize, mid: usize, n: usize) -> usize
    ensures { result ≡ split_position differences.now lo mid n }
{
    if differences.len() <= mid {
        return n;
    }
    if mid <= lo {
        return n;
    }
    usize::from(differences[mid]).min(n)
}

// The first position from k on, up to `until`, that is an own one and open in row lo; `until` if there is none, and k if there are no such
// cells.
pub fn first_open(kinds: &[u8], work: &[u8], side: u8, k: usize, lo: usize, until: usize) -> usize
    ensures { result ≡ open_position kinds.now work.now side k lo until }
{
    if work.len() != Formula::WORK {
        return k;
    }
    if kinds.len() > Formula::UNKNOWNS {
        return k;
    }
    if until > kinds.len() {
        return k;
    }
    if lo >= Formula::ROWS {
        return k;
    }
    for at in k..until {
        if is_open(kinds, work, side, lo, at) {
            return at;
        }
    }
    k.max(until)
}

// Position j is an own one, and open in row i.
fn is_open(kinds: &[u8], work: &[u8], side: u8, i: usize, j: usize) -> bool
    requires { (length work.now ≡ work_size) × (i < max_rows) × (j < max_unknowns) × (j < length kinds.now) }
    ensures { result ≡ is_open kinds.now work.now side i j }
{
    if kinds[j] == side {
        work[Formula::UNKNOWNS * i + j] == 0
    } else {
        false
    }
}
