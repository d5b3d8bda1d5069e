// The run (01, 'The run'): rounds of the two searches over the two row tables, until a verdict, a full table or the limit.
// `run` promises, for all that is lent, the outcome and every lent byte that the definition (specs/Outcome.antt) gives, that its answer is
// the verdict, and of an accepted run the claim, over 01's run and in the lent tables, that the opening keeps the verdict, and what the return
// counts say (specs/Ended.antt).
// The model search belongs to `search`, adding rows to a table to `growth`, the return counts to `counts`, the opening's bytes to `opening`.
// A round costs one search a side, and what the growth of the two tables and their counts cost. The formula is checked and its tables are made once a run.
ghost use Rattle.std.specs.Prelude.{◌-◌, ◌≡◌, true, false, cond, []};
ghost use Rattle.engine.specs.Search.{outcome as search_outcome, work_after};
ghost use Rattle.rounds.specs.Run.{clears};
ghost use Rattle.engine.specs.Outcome.{areas, given, number_of, side_fits, tables_fit, tables_counted};
ghost use Rattle.engine.specs.Ended.{Ended};
ghost use Rattle.engine.specs.Numbers.{one_number};
ghost use Rattle.engine.specs.Private.Growing.{is_found, step_of, said, opened_from, not_opened, with_opening, Over, Extends, ExtendsUniversal, ShowsRun, Ready, FirstCause};
ghost use Rattle.engine.specs.Private.Counting.{Packs, Tallies, TalliesUniversal, CountsShow};

use super::search::{self, Search};
use cause::Cause;
use formula::Formula;
use rows::Row;

#[derive(Clone, Copy)]
pub enum Answer {
    False,
    True,
    Spent,
    NoRoomUniversal,
    NoRoomExistential,
    // Kept: the public `number` and `one_number` take an answer with any number, and a narrower type would ask more of callers.
    Refused(u32),
}

// The answer, the round in which it came, the counts of the two tables; the opening dispatch as a row, and the length of its block.
#[derive(Clone, Copy)]
pub struct Outcome {
    pub answer: Answer,
    pub round: u32,
    pub universal: usize,
    pub existential: usize,
    pub opening: Row,
    pub block: usize,
}

// An outcome without its opening.
#[derive(Clone, Copy)]
struct End {
    answer: Answer,
    round: u32,
    universal: usize,
    existential: usize,
}

// Kept: the kinds of unknowns are bytes, as C lends them in `kinds`, with which `opening::block` compares them.
const EXISTENTIAL: u8 = 0;

const UNIVERSAL: u8 = 1;

// How a side's step of a round ends: without a model, without room, or with so many rows in its table.
#[derive(Clone, Copy)]
enum Step {
    NoModel,
    NoRoom,
    Grown(usize),
}

// Decides the formula within the limit of rounds, over the tables that are lent. The universal table is cleared in each round that
// `clear_every` divides, and never if it is 0.
pub fn run(
    kinds: &[u8],
    literals: &[i32],
    preferences: &[u8],
    universal_rows: &mut [u8],
    universal_marks: &mut [u16],
    universal_counts: &mut [u32],
    existential_rows: &mut [u8],
    existential_marks: &mut [u16],
    existential_counts: &mut [u32],
    work: &mut [u8],
    limit: u32,
    clear_every: u32,
) -> Outcome
    ensures { Ended
        (given kinds.now literals.now preferences.now
        (areas universal_rows.old universal_marks.old universal_counts.old existential_rows.old existential_marks.old existential_counts.old work.old) limit clear_every)
        result
        (areas universal_rows.new universal_marks.new universal_counts.new existential_rows.new existential_marks.new existential_counts.new work.new) }
{
    let universals = match check(
        kinds,
        literals,
        universal_rows,
        universal_marks,
        universal_counts,
        existential_rows,
        existential_marks,
        existential_counts,
        work,
        limit,
    ) {
        Err(cause) => return unopened(ended(Answer::Refused(cause.number()), 0, 0, 0)),
        Ok(universals) => universals,
    };
    let end = rounds(
        kinds,
        literals,
        preferences,
        universal_rows,
        universal_marks,
        universal_counts,
        existential_rows,
        existential_marks,
        existential_counts,
        work,
        universals,
        limit,
        clear_every,
    );
    rows::clear(work);
    opened(end, kinds, universal_rows, existential_rows)
}

// 01's number of an answer; a refusal has its cause's.
pub fn number(answer: Answer) -> u32
    ensures { result ≡ number_of answer }
{
    match answer {
        Answer::False => 0,
        Answer::True => 1,
        Answer::Spent => 2,
        Answer::NoRoomUniversal => 3,
        Answer::NoRoomExistential => 4,
        Answer::Refused(cause) => cause,
    }
}

// An answer as one number: that of a refusal has 100 added.
pub fn one_number(answer: Answer) -> u64
    ensures { result ≡ one_number answer }
{
    match answer {
        Answer::False => 0,
        Answer::True => 1,
        Answer::Spent => 2,
        Answer::NoRoomUniversal => 3,
        Answer::NoRoomExistential => 4,
        Answer::Refused(cause) => 100 + cause as u64,
    }
}

// The end with its opening: true is opened by the last existential row, false by the last universal one.
fn opened(end: End, kinds: &[u8], universal_rows: &[u8], existential_rows: &[u8]) -> Outcome
    ensures { result ≡ with_opening end kinds.now universal_rows.now existential_rows.now }
{
    let universal = end.universal;
    let existential = end.existential;
    let answer = end.answer;
    match answer {
        Answer::True => opened_by(end, kinds, EXISTENTIAL, existential_rows, existential),
        Answer::False => opened_by(end, kinds, UNIVERSAL, universal_rows, universal),
        Answer::Spent => unopened(end),
        Answer::NoRoomUniversal => unopened(end),
        Answer::NoRoomExistential => unopened(end),
        Answer::Refused(_) => unopened(end),
    }
}

// Opened by the last row below the count, with as many values as the prefix has unknowns of the kind in front.
fn opened_by(end: End, kinds: &[u8], kind: u8, rows: &[u8], count: usize) -> Outcome
    ensures { result ≡ opened_from end kinds.now kind rows.now count }
{
    let block = opening::block(kinds, kind);
    let place = last_place(count);
    let opening = opening::first_bits(rows, place, block);
    let answer = end.answer;
    Outcome {
        answer,
        round: end.round,
        universal: end.universal,
        existential: end.existential,
        opening,
        block,
    }
}

// The last place below a count.
fn last_place(count: usize) -> usize
    ensures { result ≡ count - 1 }
{
    if count == 0 {
        return 0;
    }
    count - 1
}

fn unopened(end: End) -> Outcome
    ensures { result ≡ not_opened end }
{
    let opening = [0u8; 16];
    let answer = end.answer;
    Outcome {
        answer,
        round: end.round,
        universal: end.universal,
        existential: end.existential,
        opening,
        block: 0,
    }
}

// The first of the causes 1 to 4, 16, 5 and 6 that applies, or of an accepted formula the number of its universal unknowns.
fn check(
    kinds: &[u8],
    literals: &[i32],
    universal_rows: &[u8],
    universal_marks: &[u16],
    universal_counts: &[u32],
    existential_rows: &[u8],
    existential_marks: &[u16],
    existential_counts: &[u32],
    work: &[u8],
    limit: u32,
) -> Result<usize, Cause>
    ensures { FirstCause (given kinds.now literals.now [] (areas universal_rows.now universal_marks.now universal_counts.now existential_rows.now existential_marks.now existential_counts.now work.now) limit 0) result }
{
    let formula = Formula::check(kinds, literals)?;
    if !fits(
        universal_rows,
        universal_marks,
        existential_rows,
        existential_marks,
    ) {
        return Err(Cause::Rows);
    }
    if !counted(
        universal_rows,
        universal_counts,
        existential_rows,
        existential_counts,
    ) {
        return Err(Cause::Counts);
    }
    if work.len() != Formula::WORK {
        return Err(Cause::Work);
    }
    if limit == 0 {
        return Err(Cause::Limit);
    }
    Ok(formula.universals)
}

// Whether the cause `Rows` does not apply.
fn fits(
    universal_rows: &[u8],
    universal_marks: &[u16],
    existential_rows: &[u8],
    existential_marks: &[u16],
) -> bool
    ensures { result ≡ tables_fit universal_rows.now universal_marks.now existential_rows.now existential_marks.now }
{
    if side_fits(universal_rows, universal_marks) {
        side_fits(existential_rows, existential_marks)
    } else {
        false
    }
}

fn side_fits(rows: &[u8], marks: &[u16]) -> bool
    ensures { result ≡ side_fits rows.now marks.now }
{
    if rows::table_fits(rows) {
        rows::marks_fit(rows, marks)
    } else {
        false
    }
}

// Whether the cause `Counts` does not apply.
fn counted(
    universal_rows: &[u8],
    universal_counts: &[u32],
    existential_rows: &[u8],
    existential_counts: &[u32],
) -> bool
    ensures { result ≡ tables_counted universal_rows.now universal_counts.now existential_rows.now existential_counts.now }
{
    if counts::counts_fit(universal_rows, universal_counts) {
        counts::counts_fit(existential_rows, existential_counts)
    } else {
        false
    }
}

// The start, then one round after the other until one of them ends the run: steps 1 and 2 towards the existential rows, 3 and 4 towards the
// universal ones. The formula's tables are made once, and lent to every search.
fn rounds(
    kinds: &[u8],
    literals: &[i32],
    preferences: &[u8],
    universal_rows: &mut [u8],
    universal_marks: &mut [u16],
    universal_counts: &mut [u32],
    existential_rows: &mut [u8],
    existential_marks: &mut [u16],
    existential_counts: &mut [u32],
    work: &mut [u8],
    universals: usize,
    limit: u32,
    clear_every: u32,
) -> End
    requires { Ready kinds.now literals.now universal_rows.old universal_marks.old universal_counts.old existential_rows.old existential_marks.old existential_counts.old work.old universals }
    ensures shows_run { ShowsRun
        (given kinds.now literals.now preferences.now
        (areas universal_rows.old universal_marks.old universal_counts.old existential_rows.old existential_marks.old existential_counts.old work.old) limit clear_every)
        result universal_rows.new universal_marks.new existential_rows.new existential_marks.new work.new }
    ensures counts_show { CountsShow
        (given kinds.now literals.now preferences.now
        (areas universal_rows.old universal_marks.old universal_counts.old existential_rows.old existential_marks.old existential_counts.old work.old) limit clear_every)
        limit universal_counts.new existential_counts.new }
{
    let mut codes = [0u16; Formula::ENTRIES];
    let mut index = [0u16; search::INDEX];
    let mut terms = [0u16; search::TERMS];
    let used = search::prepare(kinds, literals, &mut codes, &mut index, &mut terms);
    growth::write_start(preferences, universals, universal_rows, universal_marks);
    counts::fill(universal_counts, 0, 1, 0);
    let start = Formula::start();
    let mut universal = start.universal;
    let mut existential = start.existential;
    for made in start.round..limit {
        let number = made + 1;
        let mark = number as u16;
        // What led the existential side's models leads them over more universal rows; where the round before dropped these, it tells nothing.
        let known = kept_rows(clear_every, made, existential);
        // steps 1 and 2
        let grown = match existential_half(
            kinds,
            &codes[..used], // the entries in use
            &index, // through which this side finds a literal's clauses
            &terms, // by which the other side finds its open clauses
            preferences,
            universal_rows,
            universal,
            existential_rows,
            existential_marks,
            existential_counts,
            existential,
            known, // none after a clearing
            mark,
            work,
        ) {
            Step::NoModel => return ended(Answer::False, number, universal, existential),
            Step::NoRoom => return ended(Answer::NoRoomExistential, number, universal, existential),
            Step::Grown(rows) => rows,
        };
        // steps 3 and 4
        universal = match universal_half(
            kinds,
            &codes[..used],
            &index,
            &terms,
            preferences,
            existential_rows,
            grown,
            universal_rows,
            universal_marks,
            universal_counts,
            universal,
            clear_every,
            number,
            mark,
            work,
        ) {
            Step::NoModel => return ended(Answer::True, number, universal, grown),
            Step::NoRoom => return ended(Answer::NoRoomUniversal, number, universal, grown),
            Step::Grown(rows) => rows,
        };
        // step 5
        existential = grown;
    }
    ended(Answer::Spent, limit, universal, existential)
}

// How the run ends: the answer, its round, and the counts of the two tables.
fn ended(answer: Answer, round: u32, universal: usize, existential: usize) -> End
    ensures { result ≡ said answer round universal existential }
{
    End {
        answer,
        round,
        universal,
        existential,
    }
}

// The existential side's half of a round: its step, then what its search counts for.
fn existential_half(
    kinds: &[u8],
    codes: &[u16],
    index: &[u16],
    terms: &[u16],
    preferences: &[u8],
    others: &[u8],
    other_count: usize,
    rows: &mut [u8],
    marks: &mut [u16],
    counts: &mut [u32],
    count: usize,
    known: usize,
    mark: u16,
    work: &mut [u8],
) -> Step
    ensures over { Over kinds.now codes.now index.now terms.now preferences.now rows.old known others.now other_count false (λ literals. Extends kinds.now literals preferences.now others.now other_count false rows.old marks.old count mark work.old result rows.new marks.new work.new) }
    ensures over_2 { Over kinds.now codes.now index.now terms.now preferences.now rows.old known others.now other_count false (λ literals. Tallies kinds.now literals preferences.now others.now other_count rows.old marks.old count mark work.old counts.old counts.new) }
{
    let step = extend(
        kinds,
        codes,
        index,
        terms,
        preferences,
        others,
        other_count,
        false,
        rows,
        marks,
        count,
        known,
        mark,
        work,
    );
    match step {
        Step::NoModel => {} // no existential row came
        Step::NoRoom => counts::update(rows, count, count, count, work, other_count, counts), // no existential row is added
        Step::Grown(grown) => counts::update(rows, count, grown, count, work, other_count, counts),
    }
    step
}

// The universal side's half of a round, which may clear its table.
fn universal_half(
    kinds: &[u8],
    codes: &[u16],
    index: &[u16],
    terms: &[u16],
    preferences: &[u8],
    others: &[u8],
    other_count: usize,
    rows: &mut [u8],
    marks: &mut [u16],
    counts: &mut [u32],
    count: usize,
    clear_every: u32,
    round: u32,
    mark: u16,
    work: &mut [u8],
) -> Step
    ensures over { Over kinds.now codes.now index.now terms.now preferences.now rows.old count others.now other_count true (λ literals. ExtendsUniversal kinds.now literals preferences.now others.now other_count rows.old marks.old count clear_every round mark work.old result rows.new marks.new work.new) }
    ensures over_2 { Over kinds.now codes.now index.now terms.now preferences.now rows.old count others.now other_count true (λ literals. TalliesUniversal kinds.now literals preferences.now others.now other_count rows.old marks.old count clear_every round mark work.old counts.old counts.new) }
{
    let step = extend_universal(
        kinds,
        codes,
        index,
        terms,
        preferences,
        others,
        other_count,
        rows,
        marks,
        count,
        clear_every,
        round,
        mark,
        work,
    );
    match step {
        Step::NoModel => {} // no universal row came
        Step::NoRoom => counts::update(rows, count, count, count, work, other_count, counts), // no universal row is added
        Step::Grown(grown) => {
            let stand = kept_rows(clear_every, round, count); // the rows that stood before the new ones
            counts::update(rows, stand, grown, count, work, other_count, counts);
        }
    }
    step
}

// The universal side's step in a round that may clear its table: the rows are then added to none, and the places that they leave free below the
// old count are given up.
fn extend_universal(
    kinds: &[u8],
    codes: &[u16],
    index: &[u16],
    terms: &[u16],
    preferences: &[u8],
    others: &[u8],
    other_count: usize,
    rows: &mut [u8],
    marks: &mut [u16],
    count: usize,
    clear_every: u32,
    round: u32,
    mark: u16,
    work: &mut [u8],
) -> Step
    ensures over { Over kinds.now codes.now index.now terms.now preferences.now rows.old count others.now other_count true (λ literals. ExtendsUniversal kinds.now literals preferences.now others.now other_count rows.old marks.old count clear_every round mark work.old result rows.new marks.new work.new) }
    ensures over_2 { Over kinds.now codes.now index.now terms.now preferences.now rows.old count others.now other_count true (λ literals. Packs kinds.now literals preferences.now others.now other_count true work.old work.new) }
{
    let kept = kept_rows(clear_every, round, count);
    let step = extend(
        kinds,
        codes,
        index,
        terms,
        preferences,
        others,
        other_count,
        true,
        rows,
        marks,
        kept,
        count, // the last row leads, also where it is dropped
        mark,
        work,
    );
    if let Step::Grown(grown) = step {
        rows::give_up(rows, marks, grown, count);
    }
    step
}

// How many rows a round keeps, of the universal table or of those that tell the existential side where to begin: none if it clears.
fn kept_rows(clear_every: u32, round: u32, count: usize) -> usize
    ensures { result ≡ cond (clears clear_every round) 0 count }
{
    if clears(clear_every, round) {
        return 0; // all are dropped
    }
    count
}

// Whether a round clears the universal table.
fn clears(clear_every: u32, round: u32) -> bool
    ensures { result ≡ clears clear_every round }
{
    if clear_every == 0 {
        return false;
    }
    round % clear_every == 0
}

// A side's step: the search over the other side's rows, then the new ones of what they yield added to the side's table, or none of them. The last of
// the table's first `known` rows leads the side's models.
fn extend(
    kinds: &[u8],
    codes: &[u16],
    index: &[u16],
    terms: &[u16],
    preferences: &[u8],
    others: &[u8],
    other_count: usize,
    universal: bool,
    rows: &mut [u8],
    marks: &mut [u16],
    count: usize,
    known: usize,
    mark: u16,
    work: &mut [u8],
) -> Step
    ensures over { Over kinds.now codes.now index.now terms.now preferences.now rows.old known others.now other_count universal (λ literals. Extends kinds.now literals preferences.now others.now other_count universal rows.old marks.old count mark work.old result rows.new marks.new work.new) }
    ensures over_2 { Over kinds.now codes.now index.now terms.now preferences.now rows.old known others.now other_count universal (λ literals. Packs kinds.now literals preferences.now others.now other_count universal work.old work.new) }
{
    if !finds(
        kinds,
        codes,
        index,
        terms,
        preferences,
        rows,
        known,
        others,
        other_count,
        universal,
        work,
    ) {
        return Step::NoModel;
    }
    let growth = growth::grow(rows, marks, count, work, other_count, mark);
    after_growth(growth)
}

// How the step of a side with a model ends.
fn after_growth(growth: Option<usize>) -> Step
    ensures { result ≡ step_of growth }
{
    match growth {
        Some(end) => Step::Grown(end),
        None => Step::NoRoom,
    }
}

// Whether the side has a model; the rows that it yields are then in the work area. Of the side's own rows the last below `known` leads its models.
fn finds(
    kinds: &[u8],
    codes: &[u16],
    index: &[u16],
    terms: &[u16],
    preferences: &[u8],
    own: &[u8],
    known: usize,
    rows: &[u8],
    count: usize,
    universal: bool,
    work: &mut [u8],
) -> bool
    ensures over { Over kinds.now codes.now index.now terms.now preferences.now own.now known rows.now count universal (λ literals. result ≡ is_found (search_outcome kinds.now literals preferences.now rows.now count universal work.old)) }
    ensures over_2 { Over kinds.now codes.now index.now terms.now preferences.now own.now known rows.now count universal (λ literals. work.new ≡ work_after kinds.now literals preferences.now rows.now count universal work.old) }
{
    match search::first_model_over(
        kinds,
        codes,
        index,
        terms,
        preferences,
        own,
        known,
        rows,
        count,
        universal,
        work,
    ) {
        Ok(Search::Found) => true,
        Ok(Search::NoModel) => false,
        Err(_) => false, // does not come: the run has checked what it lends
    }
}
