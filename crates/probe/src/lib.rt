// The public functions of the engine below the program, exported with numbers for their answers, so that tests can lend tables of any size
// and content. Each promises what the function that it calls promises. Of a row that is handed back the length and each byte are told, since
// an exported function returns no reference.
#![tactic(auto)]

pub mod outlook;
pub mod restrictions;
pub mod study_runs;
pub mod text_reader;
pub mod witness_file;

ghost use Rattle.std.specs.Prelude.{◌≡◌, ◌+◌, length, get_or};
ghost use Rattle.cause.specs.Cause.{number};
ghost use Rattle.preference.specs.Preference.{prefer};
ghost use Rattle.rows.specs.Access.{handed_back};
ghost use Rattle.engine.specs.Search.{outcome, work_after};
ghost use Rattle.judge.specs.Judge.{outcome as judge_outcome, work_after as judge_work_after};
ghost use Rattle.engine.specs.Outcome.{areas, given, returned, left as run_left};
ghost use Rattle.fee.specs.Fee.{charged, cents as cents_of};
ghost use Rattle.fee.specs.Bands.{charged_with};
ghost use Rattle.probe.specs.Numbers.{search_number, judge_number, charge_number, season_number, value_number, Reported, trim_number};
ghost use Rattle.report.specs.Report.{put, put_count};
ghost use Rattle.season.specs.Season.{summary};
ghost use Rattle.season.specs.Text.{printed};
ghost use Rattle.trimming.specs.Outcome.{outcome as trim_outcome, output_after, used as entries_used};

use cause::Cause;
use engine::search::Search;
use judge::Judgement;
use rows::Row;
use season::{Sheet, Study};

// The first model of one side over rows of the other.
pub fn probe_first_model(
    kinds: &[u8],
    literals: &[i32],
    preferences: &[u8],
    rows: &[u8],
    work: &mut [u8],
    count: usize,
    universal: bool,
) -> u64
    ensures value { result ≡ search_number (outcome kinds.now literals.now preferences.now rows.now count universal work.old) }
    ensures work_after { work.new ≡ work_after kinds.now literals.now preferences.now rows.now count universal work.old }
{
    search_number(engine::search::first_model(
        kinds,
        literals,
        preferences,
        rows,
        count,
        universal,
        work,
    ))
}

fn search_number(answer: Result<Search, Cause>) -> u64
    ensures { result ≡ search_number answer }
{
    match answer {
        Ok(Search::NoModel) => 0,
        Ok(Search::Found) => 1,
        Err(cause) => refusal_number(cause),
    }
}

fn refusal_number(cause: Cause) -> u64
    ensures { result ≡ 100 + number cause }
{
    100 + u64::from(cause.number())
}

// Whether rows bear out a claim.
pub fn probe_judge(
    kinds: &[u8],
    literals: &[i32],
    rows: &[u8],
    work: &mut [u8],
    count: usize,
    claim: u8,
) -> u64
    ensures value { result ≡ judge_number (judge_outcome kinds.now literals.now claim rows.now count work.old) }
    ensures work_after { work.new ≡ judge_work_after kinds.now literals.now claim rows.now count work.old }
{
    judge_number(judge::judge(kinds, literals, claim, rows, count, work))
}

fn judge_number(answer: Result<Judgement, Cause>) -> u64
    ensures { result ≡ judge_number answer }
{
    match answer {
        Ok(Judgement::NotBorneOut) => 0,
        Ok(Judgement::Accepted) => 1,
        Err(cause) => refusal_number(cause),
    }
}

// A whole run; the round, the counts, the opening and the length of its block are written behind the last five references.
pub fn probe_run(
    kinds: &[u8],
    literals: &[i32],
    preferences: &[u8],
    universal_rows: &mut [u8],
    universal_marks: &mut [u16],
    universal_counts: &mut [u32],
    existential_rows: &mut [u8],
    existential_marks: &mut [u16],
    existential_counts: &mut [u32],
    work: &mut [u8],
    limit: u32,
    clear_every: u32,
    round: &mut u32,
    universal: &mut usize,
    existential: &mut usize,
    opening: &mut Row,
    block: &mut usize,
) -> u64
    ensures reported { Reported (returned (given kinds.now literals.now preferences.now (areas universal_rows.old universal_marks.old universal_counts.old existential_rows.old existential_marks.old existential_counts.old work.old) limit clear_every)) result round.new universal.new existential.new opening.new block.new }
    ensures left { areas universal_rows.new universal_marks.new universal_counts.new existential_rows.new existential_marks.new existential_counts.new work.new ≡ run_left (given kinds.now literals.now preferences.now (areas universal_rows.old universal_marks.old universal_counts.old existential_rows.old existential_marks.old existential_counts.old work.old) limit clear_every) }
{
    let end = engine::run::run(
        kinds,
        literals,
        preferences,
        universal_rows,
        universal_marks,
        universal_counts,
        existential_rows,
        existential_marks,
        existential_counts,
        work,
        limit,
        clear_every,
    );
    *round = end.round;
    *universal = end.universal;
    *existential = end.existential;
    let row = end.opening;
    *opening = row;
    *block = end.block;
    let answer = end.answer;
    engine::run::one_number(answer)
}

// The fee for so many rounds; its cents, 0 on a refusal, are written behind the last reference.
pub fn probe_fee(kinds: &[u8], rounds: u32, cents: &mut u64) -> u64
    ensures value { result ≡ charge_number (charged kinds.now rounds) }
    ensures cents_after { cents.new ≡ cents_of (charged kinds.now rounds) }
{
    let charge = fee::fee(rounds, kinds);
    *cents = charge_cents(charge);
    charge_number(charge)
}

// The same by lent bands.
pub fn probe_fee_with(
    firsts: &[u32],
    prices: &[u32],
    kinds: &[u8],
    rounds: u32,
    cents: &mut u64,
) -> u64
    ensures value { result ≡ charge_number (charged_with firsts.now prices.now kinds.now rounds) }
    ensures cents_after { cents.new ≡ cents_of (charged_with firsts.now prices.now kinds.now rounds) }
{
    let charge = fee::fee_with(firsts, prices, rounds, kinds);
    *cents = charge_cents(charge);
    charge_number(charge)
}

fn charge_number(charge: Result<u64, Cause>) -> u64
    ensures { result ≡ charge_number charge }
{
    match charge {
        Ok(_) => 0,
        Err(cause) => refusal_number(cause),
    }
}

fn charge_cents(charge: Result<u64, Cause>) -> u64
    ensures { result ≡ cents_of charge }
{
    match charge {
        Ok(amount) => amount,
        Err(_) => 0,
    }
}

// A trimming; the entries used are written behind the last reference, 0 after a refusal.
pub fn probe_trim(kinds: &[u8], literals: &[i32], output: &mut [i32], used: &mut usize) -> u64
    ensures value { result ≡ trim_number (trim_outcome kinds.now literals.now output.old) }
    ensures output_after { output.new ≡ output_after kinds.now literals.now output.old }
    ensures used_after { used.new ≡ entries_used (trim_outcome kinds.now literals.now output.old) }
{
    let end = trimming::trim(kinds, literals, output);
    *used = used_entries(end);
    trim_number(end)
}

fn trim_number(answer: Result<usize, Cause>) -> u64
    ensures { result ≡ trim_number answer }
{
    match answer {
        Ok(_) => 0,
        Err(cause) => refusal_number(cause),
    }
}

fn used_entries(answer: Result<usize, Cause>) -> usize
    ensures { result ≡ entries_used answer }
{
    match answer {
        Ok(used) => used,
        Err(_) => 0,
    }
}

// The length of the row that is handed back.
pub fn probe_row_length(rows: &[u8], count: usize, place: usize) -> usize
    ensures { result ≡ length (handed_back rows.now count place) }
{
    let row = rows::row(rows, count, place);
    row.len()
}

// Byte j of the row that is handed back, or 0 past its end.
pub fn probe_row_byte(rows: &[u8], count: usize, place: usize, j: usize) -> u8
    ensures { result ≡ get_or (handed_back rows.now count place) j 0 }
{
    let row = rows::row(rows, count, place);
    if j < row.len() { row[j] } else { 0 }
}

// Preference i.
pub fn probe_preference(lent: &[u8], i: usize) -> u8
    ensures { result ≡ value_number (prefer lent.now i) }
{
    if preference::preference(lent, i) {
        1
    } else {
        0
    }
}

// A number of the page over a table of studies, chosen by `which`.
pub fn probe_season(studies: &[Study], which: u32) -> u64
    ensures { result ≡ season_number (summary studies.now) which }
{
    page_number(season::summarize(studies), which)
}

fn page_number(page: Result<Sheet, Cause>, which: u32) -> u64
    ensures { result ≡ season_number page which }
{
    match page {
        Err(cause) => cause_number(cause, which),
        Ok(sheet) => match which {
            1 => sheet.studies as u64,
            2 => sheet.answer_0 as u64,
            3 => sheet.answer_1 as u64,
            4 => sheet.answer_2 as u64,
            5 => sheet.answer_3 as u64,
            6 => sheet.answer_4 as u64,
            7 => sheet.rounds,
            8 => sheet.fees,
            9 => sheet.most as u64,
            10 => sheet.first as u64,
            _ => 0,
        },
    }
}

fn cause_number(cause: Cause, which: u32) -> u64
    ensures { result ≡ season_number (Err cause) which }
{
    if which == 0 { refusal_number(cause) } else { 0 }
}

// The bytes printed for the records of a text.
pub fn probe_season_text(text: &[u8], out: &mut [u8]) -> usize
    ensures value { result ≡ put_count (printed text.now) out.old }
    ensures out_after { out.new ≡ put (printed text.now) out.old }
{
    season::print(text, out)
}
