// What is added up over a table of studies, on plain numbers.
ghost use Rattle.std.specs.Prelude.{◌≡◌, cond, ◌||◌, ltb};
ghost use Rattle.season.specs.Private.Tally.{fresh, added, closed, leads, Room};

use crate::Sheet;
use cause::Cause;

// The highest answer's number, and the highest fee.
const ANSWER: u32 = 4;

const FEE: u32 = 100_000_000;

// What has been added up so far, and whether an answer or a fee too high was among it.
// Kept: two flags and no `Result`, since 24 is looked for over the whole table before 25, so that neither ends the adding up (4).
#[derive(Clone, Copy)]
pub(crate) struct Tally {
    studies: u32,
    answer_0: u32,
    answer_1: u32,
    answer_2: u32,
    answer_3: u32,
    answer_4: u32,
    rounds: u64,
    fees: u64,
    most: u32,
    first: u32,
    bad_answer: bool,
    bad_fee: bool,
}

pub(crate) fn start() -> Tally
    ensures { result ≡ fresh }
{
    Tally {
        studies: 0,
        answer_0: 0,
        answer_1: 0,
        answer_2: 0,
        answer_3: 0,
        answer_4: 0,
        rounds: 0,
        fees: 0,
        most: 0,
        first: 0,
        bad_answer: false,
        bad_fee: false,
    }
}

// One study more; past 4,096 nothing is added.
pub(crate) fn add(t: Tally, answer: u32, rounds: u32, fee: u32) -> Tally
    requires { Room t }
    ensures { result ≡ added t answer rounds fee }
{
    if crate::STUDIES <= t.studies as usize {
        return t;
    }
    let ahead = is_ahead(t.first, t.most, rounds);
    let studies = t.studies + 1;
    Tally {
        studies,
        answer_0: t.answer_0 + u32::from(answer == 0),
        answer_1: t.answer_1 + u32::from(answer == 1),
        answer_2: t.answer_2 + u32::from(answer == 2),
        answer_3: t.answer_3 + u32::from(answer == 3),
        answer_4: t.answer_4 + u32::from(answer == 4),
        rounds: t.rounds + u64::from(rounds),
        fees: t.fees + u64::from(fee),
        most: choose(ahead, rounds, t.most),
        first: choose(ahead, studies, t.first),
        bad_answer: or_above(t.bad_answer, answer, ANSWER),
        bad_fee: or_above(t.bad_fee, fee, FEE),
    }
}

// Whether rounds are more than the most so far, or the first ones.
fn is_ahead(first: u32, most: u32, rounds: u32) -> bool
    ensures { result ≡ leads first most rounds }
{
    first == 0 || most < rounds
}

fn choose(test: bool, a: u32, b: u32) -> u32
    ensures { result ≡ cond test a b }
{
    if test { a } else { b }
}

fn or_above(already: bool, x: u32, bound: u32) -> bool
    ensures { result ≡ (already || ltb bound x) }
{
    already || bound < x
}

// The page that the tally over a table of this length gives, or the first cause that applies.
pub(crate) fn close(t: Tally, length: usize) -> Result<Sheet, Cause>
    ensures { result ≡ closed t length }
{
    if crate::STUDIES < length {
        return Err(Cause::Studies);
    }
    if t.bad_answer {
        return Err(Cause::Answer);
    }
    if t.bad_fee {
        return Err(Cause::Fee);
    }
    Ok(Sheet {
        studies: t.studies,
        answer_0: t.answer_0,
        answer_1: t.answer_1,
        answer_2: t.answer_2,
        answer_3: t.answer_3,
        answer_4: t.answer_4,
        rounds: t.rounds,
        fees: t.fees,
        most: t.most,
        first: t.first,
    })
}
