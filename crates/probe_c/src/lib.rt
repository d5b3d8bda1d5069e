// What the tests call of `probe` from outside: each export calls the function of its name there, and promises what that promises.
#![tactic(auto)]

pub mod outlook;
pub mod restrictions;
pub mod study_runs;
pub mod text_reader;
pub mod witness_file;

ghost use Rattle.std.specs.Prelude.{◌≡◌, length, get_or};
ghost use Rattle.preference.specs.Preference.{prefer};
ghost use Rattle.rows.specs.Access.{handed_back};
ghost use Rattle.engine.specs.Search.{outcome, work_after};
ghost use Rattle.judge.specs.Judge.{outcome as judge_outcome, work_after as judge_work_after};
ghost use Rattle.engine.specs.Outcome.{areas, given, returned, left as run_left};
ghost use Rattle.fee.specs.Fee.{charged, cents as cents_of};
ghost use Rattle.fee.specs.Bands.{charged_with};
ghost use Rattle.probe.specs.Numbers.{search_number, judge_number, charge_number, season_number, value_number, Reported, trim_number};
ghost use Rattle.report.specs.Report.{put, put_count};
ghost use Rattle.season.specs.Season.{summary};
ghost use Rattle.season.specs.Text.{printed};
ghost use Rattle.trimming.specs.Outcome.{outcome as trim_outcome, output_after, used as entries_used};

use rows::Row;
use season::Study;

// The first model of one side over rows of the other.
#[unsafe(no_mangle)]
pub extern "C" fn probe_first_model(
    kinds: &[u8],
    literals: &[i32],
    preferences: &[u8],
    rows: &[u8],
    work: &mut [u8],
    count: usize,
    universal: bool,
) -> u64
    ensures value { result ≡ search_number (outcome kinds.now literals.now preferences.now rows.now count universal work.old) }
    ensures work_after { work.new ≡ work_after kinds.now literals.now preferences.now rows.now count universal work.old }
{
    probe::probe_first_model(kinds, literals, preferences, rows, work, count, universal)
}

// Whether rows bear out a claim.
#[unsafe(no_mangle)]
pub extern "C" fn probe_judge(
    kinds: &[u8],
    literals: &[i32],
    rows: &[u8],
    work: &mut [u8],
    count: usize,
    claim: u8,
) -> u64
    ensures value { result ≡ judge_number (judge_outcome kinds.now literals.now claim rows.now count work.old) }
    ensures work_after { work.new ≡ judge_work_after kinds.now literals.now claim rows.now count work.old }
{
    probe::probe_judge(kinds, literals, rows, work, count, claim)
}

// A whole run; the round, the counts, the opening and the length of its block are written behind the last five references.
#[unsafe(no_mangle)]
pub extern "C" fn probe_run(
    kinds: &[u8],
    literals: &[i32],
    preferences: &[u8],
    universal_rows: &mut [u8],
    universal_marks: &mut [u16],
    universal_counts: &mut [u32],
    existential_rows: &mut [u8],
    existential_marks: &mut [u16],
    existential_counts: &mut [u32],
    work: &mut [u8],
    limit: u32,
    clear_every: u32,
    round: &mut u32,
    universal: &mut usize,
    existential: &mut usize,
    opening: &mut Row,
    block: &mut usize,
) -> u64
    ensures reported { Reported (returned
        (given kinds.now literals.now preferences.now
        (areas universal_rows.old universal_marks.old universal_counts.old existential_rows.old existential_marks.old existential_counts.old
        work.old) limit clear_every)) result round.new universal.new existential.new opening.new block.new }
    ensures left { areas universal_rows.new universal_marks.new universal_counts.new existential_rows.new existential_marks.new
        existential_counts.new work.new ≡ run_left
        (given kinds.now literals.now preferences.now
        (areas universal_rows.old universal_marks.old universal_counts.old existential_rows.old existential_marks.old existential_counts.old
        work.old) limit clear_every) }
{
    probe::probe_run(
        kinds,
        literals,
        preferences,
        universal_rows,
        universal_marks,
        universal_counts,
        existential_rows,
        existential_marks,
        existential_counts,
        work,
        limit,
        clear_every,
        round,
        universal,
        existential,
        opening,
        block,
    )
}

// The fee for so many rounds; its cents, 0 on a refusal, are written behind the last reference.
#[unsafe(no_mangle)]
pub extern "C" fn probe_fee(kinds: &[u8], rounds: u32, cents: &mut u64) -> u64
    ensures value { result ≡ charge_number (charged kinds.now rounds) }
    ensures cents_after { cents.new ≡ cents_of (charged kinds.now rounds) }
{
    probe::probe_fee(kinds, rounds, cents)
}

// The same by lent bands.
#[unsafe(no_mangle)]
pub extern "C" fn probe_fee_with(
    firsts: &[u32],
    prices: &[u32],
    kinds: &[u8],
    rounds: u32,
    cents: &mut u64,
) -> u64
    ensures value { result ≡ charge_number (charged_with firsts.now prices.now kinds.now rounds) }
    ensures cents_after { cents.new ≡ cents_of (charged_with firsts.now prices.now kinds.now rounds) }
{
    probe::probe_fee_with(firsts, prices, kinds, rounds, cents)
}

// A trimming; the entries used are written behind the last reference, 0 after a refusal.
#[unsafe(no_mangle)]
pub extern "C" fn probe_trim(
    kinds: &[u8],
    literals: &[i32],
    output: &mut [i32],
    used: &mut usize,
) -> u64
    ensures value { result ≡ trim_number (trim_outcome kinds.now literals.now output.old) }
    ensures output_after { output.new ≡ output_after kinds.now literals.now output.old }
    ensures used_after { used.new ≡ entries_used (trim_outcome kinds.now literals.now output.old) }
{
    probe::probe_trim(kinds, literals, output, used)
}

// The length of the row that is handed back.
#[unsafe(no_mangle)]
pub extern "C" fn probe_row_length(rows: &[u8], count: usize, place: usize) -> usize
    ensures { result ≡ length (handed_back rows.now count place) }
{
    probe::probe_row_length(rows, count, place)
}

// Byte j of the row that is handed back, or 0 past its end.
#[unsafe(no_mangle)]
pub extern "C" fn probe_row_byte(rows: &[u8], count: usize, place: usize, j: usize) -> u8
    ensures { result ≡ get_or (handed_back rows.now count place) j 0 }
{
    probe::probe_row_byte(rows, count, place, j)
}

// Preference i.
#[unsafe(no_mangle)]
pub extern "C" fn probe_preference(lent: &[u8], i: usize) -> u8
    ensures { result ≡ value_number (prefer lent.now i) }
{
    probe::probe_preference(lent, i)
}

// A number of the page over a table of studies, chosen by `which`.
#[unsafe(no_mangle)]
pub extern "C" fn probe_season(studies: &[Study], which: u32) -> u64
    ensures { result ≡ season_number (summary studies.now) which }
{
    probe::probe_season(studies, which)
}

// The bytes printed for the records of a text.
#[unsafe(no_mangle)]
pub extern "C" fn probe_season_text(text: &[u8], out: &mut [u8]) -> usize
    ensures value { result ≡ put_count (printed text.now) out.old }
    ensures out_after { out.new ≡ put (printed text.now) out.old }
{
    probe::probe_season_text(text, out)
}
