// The season sheet: one page over all studies (02, C-24), from a lent table of records or from the same records as text. Both functions are
// total and say what comes out for every input.
// `summarize` is thin: it takes each record apart and hands its three numbers to `tally`. Bytes as lines and words as numbers are left to
// `lines`, the printed lines to `report`.
#![tactic(auto)]

ghost use Rattle.std.specs.Prelude.{◌≡◌, ◌≤◌, take};
ghost use Rattle.report.specs.Report.{put, put_count};
ghost use Rattle.season.specs.Season.{max_studies, summary, Summarized};
ghost use Rattle.season.specs.Text.{printed, summary_lines};
ghost use Rattle.season.specs.SeasonRight.{SeasonRight};

use cause::Cause;

mod records;
mod tally;

// The most records of a table, and the most bytes of a text.
pub(crate) const STUDIES: usize = 4_096;

pub const BYTES: usize = 122_880;

// Room for whatever is printed.
pub const LONGEST: usize = 256;

// A study: the answer's number, the rounds, the fee in cents.
#[repr(C)]
#[derive(Clone, Copy)]
pub struct Study {
    pub answer: u32,
    pub rounds: u32,
    pub fee: u32,
}

// The page: the studies in all and by answer, the sums, the most rounds and the first study that has them, from 1 (0 and 0 if there is no
// study).
#[derive(Clone, Copy)]
pub struct Sheet {
    pub studies: u32,
    pub answer_0: u32,
    pub answer_1: u32,
    pub answer_2: u32,
    pub answer_3: u32,
    pub answer_4: u32,
    pub rounds: u64,
    pub fees: u64,
    pub most: u32,
    pub first: u32,
}

// The page over a table of studies, or the first cause that applies.
pub fn summarize(studies: &[Study]) -> Result<Sheet, Cause>
    ensures { Summarized studies.now result }
{
    let mut t = tally::start();
    for s in studies {
        t = tally::add(t, s.answer, s.rounds, s.fee);
    }
    tally::close(t, studies.len())
}

// The lines that the program prints for a text, at the start of `out`: how many bytes they are. An `out` that is too short is left as
// found, 0; one of `LONGEST` bytes never is.
pub fn print(text: &[u8], out: &mut [u8]) -> usize
    ensures value { result ≡ put_count (printed text.now) out.old }
    ensures out_after { out.new ≡ put (printed text.now) out.old }
    ensures proved { SeasonRight text.now }
{
    if BYTES < text.len() {
        return report::refusal(out, Cause::TooLong.number(), 0);
    }
    let count = match records::check(text) {
        Ok(count) => count,
        Err(line) => return report::refusal(out, Cause::Shape.number(), line),
    };
    if STUDIES < count {
        return report::refusal(out, Cause::Studies.number(), 0);
    }
    let page = over_first(records::read(text), count);
    show(page, out)
}

// The lines of a page or of its refusal, as in `print`.
fn show(page: Result<Sheet, Cause>, out: &mut [u8]) -> usize
    ensures value { result ≡ put_count (summary_lines page) out.old }
    ensures out_after { out.new ≡ put (summary_lines page) out.old }
{
    match page {
        Err(cause) => report::refusal(out, cause.number(), 0),
        Ok(s) => report::page(
            out, s.answer_0, s.answer_1, s.answer_2, s.answer_3, s.answer_4, s.rounds, s.studies,
            s.most, s.first, s.fees,
        ),
    }
}

// The page over the first n records of a table of one's own. It alone lends one, so that its callers know no slice of records.
fn over_first(rows: [Study; STUDIES], n: usize) -> Result<Sheet, Cause>
    requires { n ≤ max_studies }
    ensures { result ≡ summary (take n rows) }
{
    summarize(&rows[..n])
}
