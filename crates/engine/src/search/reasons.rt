// Now and then a shorter reason is looked for after a conflict, which leads further back. When, and for how long, is a hint: an account of the
// conflicts and of the steps spent stands behind the sets: CONFLICTS there were so many, QUIET is the one up to which none is looked for, but for the fewest,
// WAIT how many more than the fewest lay before the last look, SPENT how many steps were spent.
ghost use Rattle.std.specs.Prelude.{◌≡◌, ◌-◌, length};
ghost use Rattle.search_sets.specs.Sets.{sets_size};
ghost use Rattle.engine.specs.Private.Held.{Same};
ghost use Rattle.engine.specs.Private.Steps.{Shortened};

use super::sets_table::{CONFLICT, CONFLICTS, QUIET, SPENT, WAIT};
use super::shortening;

// Between two looks lie at least so many conflicts.
const FEWEST: u64 = 64;

// Steps that may be spent at first, and for each conflict.
const FIRST: u64 = 2_048;

const EACH: u64 = 4;

// Steps that one look may spend: where none finds anything, there are few looks, and they cost little.
const LOOK: u64 = 8_192;

// No number of the account is larger.
const FAR: u64 = 4_294_967_296;

// After a conflict in row i by the decisions below the level, whose set stands at CONFLICT: that of a shorter reason may take its place.
pub(crate) fn shorten(
    codes: &[u16],
    work: &[u8],
    sets: &mut [u64],
    index: &[u16],
    i: usize,
    level: u8,
)
    requires { length sets.old ≡ sets_size }
    ensures { Shortened codes.now work.now i level sets.old sets.new }
{
    if is_due(sets) {} else {
        return;
    }
    let steps = allowed(sets[CONFLICTS], sets[SPENT]);
    let reason = shortening::shorter(codes, index, work, sets, i, depth(level), steps as usize);
    note(sets, reason.found, steps, reason.left as u64);
    if reason.found {
        search_sets::empty(sets, CONFLICT);
        search_sets::unite_words(sets, CONFLICT, reason.low, reason.high);
    }
}

// Counts a conflict. Whether a shorter reason is to be looked for.
fn is_due(sets: &mut [u64]) -> bool
    requires { length sets.old ≡ sets_size }
    ensures { Same sets.old sets.new }
{
    let conflicts = sets[CONFLICTS] % FAR + 1;
    sets[CONFLICTS] = conflicts;
    sets[QUIET] % FAR + FEWEST <= conflicts
}

// The steps that are left for a look.
fn allowed(conflicts: u64, spent: u64) -> u64 {
    let most = EACH * (conflicts % FAR) + FIRST;
    if spent < most {
        let left = most - spent;
        if left < LOOK {
            return left;
        }
        return LOOK;
    }
    0
}

// The number of positions that were decided at lower levels.
fn depth(level: u8) -> usize
    ensures { result ≡ level - 1 }
{
    if level == 0 {
        return 0;
    }
    usize::from(level) - 1
}

// Notes what a look gave: the next one comes sooner if it found a reason, later if it found none.
fn note(sets: &mut [u64], found: bool, steps: u64, left: u64)
    requires { length sets.old ≡ sets_size }
    ensures { Same sets.old sets.new }
{
    let wait = next_wait(sets[WAIT] % FAR, found);
    sets[WAIT] = wait;
    sets[QUIET] = sets[CONFLICTS] % FAR + wait % FAR;
    sets[SPENT] = sets[SPENT] % FAR + used(steps, left) % FAR;
}

fn next_wait(wait: u64, found: bool) -> u64 {
    if found {
        return wait / 2;
    }
    4 * (wait % FAR) + FEWEST
}

fn used(steps: u64, left: u64) -> u64 {
    if left < steps { steps - left } else { 0 }
}
