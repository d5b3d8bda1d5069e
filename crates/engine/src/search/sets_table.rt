// The layout of the two tables with sets of decisions, and the search's steps on single words of them. A set is two words, at 2 p and 2 p + 1 for the place p.
//
//   words        the table of a search, `sets`                           the table of a row that is searched alone, `own`
//   0 .. 255     sets of the positions: by which decisions the values    the same
//                there were reached
//   256, 257     CONFLICT: by which decisions the last conflict was      the same
//   258, 259     CHANGED: positions whose occurrences are to be gone     -
//                through
//   260 .. 515   CHANGED_ROWS, two words a position: the rows in which   260 .. 387 QUEUE: positions whose occurrences are to be gone
//                it changed, from and to (existential side)              through, 388 QUEUED: how many
//                WATCHED, a word a row: a clause that was not satisfied  389 .. 516 DECISIONS: their positions, 517 DEPTH: how many
//                there (universal side)
//   516 .. 519   CONFLICTS, QUIET, WAIT, SPENT: the account of shorter
//                reasons
//   520          LAST_CONFLICT: its row, plus 1; 0 if there was none
//   524 .. 779   OPEN, a word a row: its open terms (universal side)
//   780 .. 1037  HOLDS, a word a code: the terms that have it
//   1038 .. 1166 TRUE, word k + 1: the terms that are met by the decisions up to position k; word 0: none
//
// What stands behind the sets is a hint: nothing rests on it, and no promise is made of it but that the sets stay.
ghost use Rattle.std.specs.Prelude.{◌≡◌, ◌≤◌, ◌<◌, length, IfSome};
ghost use Rattle.formula.specs.Formula.{max_unknowns, max_rows};
ghost use Rattle.search_sets.specs.Sets.{set_places, sets_size};
ghost use Rattle.search_sets.specs.Private.Masks.{SetsKept};
ghost use Rattle.engine.specs.Private.Held.{Same};

use super::numbers::lowest;
use codes::LAST_CODE;
use formula::Formula;

// ---- places of sets

pub(crate) const CONFLICT: usize = Formula::UNKNOWNS;

pub(crate) const CHANGED: usize = CONFLICT + 1;

// ---- words

// The two words of the set at CONFLICT.
pub(crate) const LOW: usize = 2 * CONFLICT;

pub(crate) const HIGH: usize = LOW + 1;

// The first word behind the sets.
const HINTS: usize = 2 * search_sets::PLACES;

pub(crate) const CHANGED_ROWS: usize = HINTS;

pub(crate) const WATCHED: usize = HINTS;

pub(crate) const CONFLICTS: usize = HINTS + Formula::ROWS;

pub(crate) const QUIET: usize = CONFLICTS + 1;

pub(crate) const WAIT: usize = CONFLICTS + 2;

pub(crate) const SPENT: usize = CONFLICTS + 3;

pub(crate) const LAST_CONFLICT: usize = CONFLICTS + 4;

pub(crate) const OPEN: usize = CONFLICTS + 8;

pub(crate) const HOLDS: usize = OPEN + Formula::ROWS;

pub(crate) const TRUE: usize = HOLDS + LAST_CODE + 1;

// ---- words of a row that is searched alone

pub(crate) const QUEUE: usize = HINTS;

pub(crate) const QUEUED: usize = QUEUE + Formula::UNKNOWNS;

pub(crate) const DECISIONS: usize = QUEUED + 1;

pub(crate) const DEPTH: usize = DECISIONS + Formula::UNKNOWNS;

// Notes a conflict in row i.
pub(crate) fn note_conflict(sets: &mut [u64], i: usize)
    requires { (length sets.old ≡ sets_size) × (i < max_rows) }
    ensures { Same sets.old sets.new }
{
    sets[LAST_CONFLICT] = i as u64 + 1;
}

// Whether the last conflict was in a row from lo to mid.
pub(crate) fn conflict_between(sets: &[u64], lo: usize, mid: usize) -> bool
    requires { length sets.now ≡ sets_size }
{
    let last = sets[LAST_CONFLICT] as usize;
    if lo < last {
        return last <= mid;
    }
    false
}

// Takes out the lowest position of the set at `of`, behind those of the positions, and returns it.
pub(crate) fn take_lowest(sets: &mut [u64], of: usize) -> Option<usize>
    requires { (length sets.old ≡ sets_size) × (max_unknowns ≤ of) × (of < set_places) }
    ensures kept { SetsKept sets.old sets.new }
    ensures inside { IfSome result (λ k. k < max_unknowns) }
{
    let low = sets[2 * of];
    if low != 0 {
        sets[2 * of] = low & (low - 1);
        return Some(lowest(low));
    }
    let high = sets[2 * of + 1];
    if high != 0 {
        sets[2 * of + 1] = high & (high - 1);
        return Some(64 + lowest(high));
    }
    None
}
