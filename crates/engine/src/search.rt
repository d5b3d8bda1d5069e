// The first model of one side over lent rows of the other (01, 'Copies and models'). Promised, for all that is lent: found, none or
// the first cause that applies; found leaves in the work area the rows that the model yields, none leaves zeros, and a
// refusal leaves it as it was. Who searches one formula often makes its tables once (`prepare`) and lends them to each search
// (`first_model_over`).
// The crates below sort the rows (order), keep a table of cells in the work area (cells), number the copies (numbering), write the clauses
// as codes (codes) and look them up (index, evaluation), keep groups of rows and sets of positions (groups, sets), and look for shorter reasons of
// conflicts (reasons) and for rows that are satisfied on the universal side (satisfied_rows). Here stand the steps of the search: propagation (the existential side's
// consequences of a value), reasons (when a shorter one is looked for), and solve.
ghost use Rattle.engine.specs.Search.{Searched};
ghost use Rattle.engine.specs.Private.Prepared.{Prepares, SearchedOver};
ghost use Rattle.engine.specs.Private.Whole.{Ready, Accepting, Arranged, OverCells, OverPlaces, Finds, Answered};

use cause::Cause;
use formula::Formula;

mod cell;
mod clauses;
mod first_block;
mod numbers;
mod propagation;
mod reasons;
mod satisfied_rows;
mod sets_table;
mod shortening;
mod solve;
mod tables;
mod term_table;

#[derive(Clone, Copy)]
pub enum Search {
    Found,
    NoModel,
}

// The sizes of the tables that `prepare` fills: the index, and the table of terms.
pub(crate) const INDEX: usize = index::SIZE;

pub(crate) const TERMS: usize = term_table::TABLE;

// `universal`: the universal side looks for a model over existential rows, else the existential side over universal rows.
pub fn first_model(
    kinds: &[u8],
    literals: &[i32],
    preferences: &[u8],
    rows: &[u8],
    count: usize,
    universal: bool,
    work: &mut [u8],
) -> Result<Search, Cause>
    ensures { Searched kinds.now literals.now preferences.now rows.now count universal work.old result work.new }
{
    Formula::check(kinds, literals)?;
    let mut codes = [0u16; Formula::ENTRIES];
    let mut index = [0u16; INDEX];
    let mut terms = [0u16; TERMS];
    let used = prepare(kinds, literals, &mut codes, &mut index, &mut terms);
    first_model_over(
        kinds,
        &codes[..used],
        &index,
        &terms,
        preferences,
        rows,
        0, // no row of the side's is known
        rows,
        count,
        universal,
        work,
    )
}

// Makes a formula's tables: its clauses as codes, of which the number is returned, their index, and for the universal side their terms.
pub(crate) fn prepare(
    kinds: &[u8],
    literals: &[i32],
    codes: &mut [u16],
    index: &mut [u16],
    terms: &mut [u16],
) -> usize
    ensures { Prepares kinds.now literals.now codes.old index.old terms.old result codes.new index.new terms.new }
{
    let used = codes::encode(literals, codes);
    index::fill(&codes[..used], index);
    term_table::list(kinds, &codes[..used], terms);
    used
}

// `first_model` over the tables of an accepted formula. The formula is not checked again: what of the tables can be tested at little cost
// is, so that any may be lent. Of the side's own rows the last of the `known` ones may come from an earlier search over some of these rows: its first
// block is then not gone through again.
pub(crate) fn first_model_over(
    kinds: &[u8],
    codes: &[u16],
    index: &[u16],
    terms: &[u16],
    preferences: &[u8],
    own: &[u8],
    known: usize,
    rows: &[u8],
    count: usize,
    universal: bool,
    work: &mut [u8],
) -> Result<Search, Cause>
    ensures { SearchedOver kinds.now codes.now index.now terms.now preferences.now own.now known rows.now count universal work.old result work.new }
{
    let clause = [0i32; 1]; // an empty one: the prefix alone is checked
    let formula = Formula::check(kinds, &clause)?;
    if !tables::fit(codes, index.len()) {
        return Err(Cause::Literals); // what is lent for the clauses is none of a formula
    }
    if universal {
        let others = kinds.len() - formula.universals;
        over_rows(
            kinds,
            codes,
            index,
            terms,
            preferences,
            own,
            known,
            rows,
            count,
            others,
            1,
            work,
        )
    } else {
        over_rows(
            kinds,
            codes,
            index,
            terms,
            preferences,
            own,
            known,
            rows,
            count,
            formula.universals,
            0,
            work,
        )
    }
}

// The search over tables that fit. The side is 1 if universal, 0 if existential; the other side has `others` unknowns.
// Kept: the side is a byte, as in `kinds`, which C lends and with which it is compared.
fn over_rows(
    kinds: &[u8],
    codes: &[u16],
    index: &[u16],
    terms: &[u16],
    preferences: &[u8],
    own: &[u8],
    known: usize,
    rows: &[u8],
    count: usize,
    others: usize,
    side: u8,
    work: &mut [u8],
) -> Result<Search, Cause>
    requires { Accepting kinds.now codes.now index.now others side }
    ensures { Answered kinds.now codes.now index.now terms.now preferences.now own.now known rows.now count others side work.old work.new result }
{
    if !rows::table_fits(rows) {
        return Err(Cause::Rows);
    }
    if work.len() != Formula::WORK {
        return Err(Cause::Work);
    }
    if rows.len() / 16 < count {
        return Err(Cause::Count);
    }
    if rows::stray_bit(rows, count, others) {
        return Err(Cause::StrayBit);
    }
    if find(
        kinds,
        codes,
        index,
        terms,
        preferences,
        own,
        known,
        rows,
        count,
        others,
        side,
        work,
    ) {
        Ok(Search::Found)
    } else {
        Ok(Search::NoModel)
    }
}

// The search over rows that fit. At the end the work area holds the yielded rows, or zeros.
fn find(
    kinds: &[u8],
    codes: &[u16],
    index: &[u16],
    terms: &[u16],
    preferences: &[u8],
    own: &[u8],
    known: usize,
    rows: &[u8],
    count: usize,
    others: usize,
    side: u8,
    work: &mut [u8],
) -> bool
    requires { Ready kinds.now codes.now index.now rows.now count others side work.old }
    ensures { Finds kinds.now codes.now index.now terms.now preferences.now own.now known rows.now count others side result work.new }
{
    rows::clear(work);
    if count == 0 {
        return true;
    }
    let mut place = [0u8; Formula::ROWS];
    search_order::sort(rows, count, others, &mut place);
    over_places(
        kinds,
        codes,
        index,
        terms,
        preferences,
        own,
        known,
        rows,
        &place[..count],
        side,
        work,
    )
}

// The search over rows whose sorted places are known.
fn over_places(
    kinds: &[u8],
    codes: &[u16],
    index: &[u16],
    terms: &[u16],
    preferences: &[u8],
    own: &[u8],
    known: usize,
    rows: &[u8],
    place: &[u8],
    side: u8,
    work: &mut [u8],
) -> bool
    requires { Arranged kinds.now codes.now index.now place.now side work.old }
    ensures { OverPlaces kinds.now codes.now index.now terms.now preferences.now own.now known rows.now place.now side work.old work.new result }
{
    search_cells::fill(kinds, rows, place, side, work);
    if over_cells(
        kinds,
        codes,
        index,
        terms,
        preferences,
        own,
        known,
        place,
        side,
        work,
    ) {
        search_cells::pack(kinds, place, side, work);
        true
    } else {
        rows::clear(work);
        false
    }
}

// The search over a filled table.
fn over_cells(
    kinds: &[u8],
    codes: &[u16],
    index: &[u16],
    terms: &[u16],
    preferences: &[u8],
    own: &[u8],
    known: usize,
    place: &[u8],
    side: u8,
    work: &mut [u8],
) -> bool
    requires { Arranged kinds.now codes.now index.now place.now side work.old }
    ensures { OverCells kinds.now codes.now index.now terms.now preferences.now own.now known place.now side work.old work.new result }
{
    let count = place.len();
    let mut differences = [0u8; Formula::ROWS];
    search_cells::compare(kinds, work, count, side, &mut differences);
    search_numbering::fill(kinds, preferences, place, &differences, side, work);
    let mut block = [0u8; Formula::UNKNOWNS];
    let used = first_block::read(kinds, own, known, side, &mut block);
    solve::from_start(
        kinds,
        &differences[..count],
        codes,
        index,
        terms,
        &block[..used],
        side,
        work,
    )
}
