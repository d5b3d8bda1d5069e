// The judge over a text or a gate list and a witness file: whether the file's rows bear out its claim about the formula that is read.
// `find` promises, for every text, file and work area, the finding, its numbers and every byte of the work area that the definitions
// (specs/Finding.antt, specs/Numbers.antt) give; `print` the bytes of its line, for a text of either form. What an accepted claim says of the formula,
// or of the circuit, is stated in specs/JudgementRight.antt.
// Reading belongs to `text` and `witness`, judging to `judge`; here what one returns is handed to the next.
#![tactic(auto)]

ghost use Rattle.std.specs.Prelude.{◌≡◌};
ghost use Rattle.report.specs.Report.{put, put_count};
ghost use Rattle.text.specs.Form.{form_read};
ghost use Rattle.text.specs.Offered.{offered};
ghost use Rattle.judgement.specs.Finding.{of_another, Finds, on_text, on_formula, on_record, on_claim, finding, left, accepted_line, line_of, printed};
ghost use Rattle.judgement.specs.JudgementRight.{FindingRight, JudgementRight};

use formula::Formula;
use judge::Judgement;
use text::{Form, Taken};
use witness::Record;

// An accepted claim is 0 or 1. A refusal has its number and the text's line, 0 for the file's causes.
#[derive(Clone, Copy)]
pub enum Finding {
    NotBorneOut,
    Accepted(u8),
    OtherFormula,
    Refused { number: u32, line: u32 },
}

// Room for every line.
pub const LONGEST: usize = 64;

// One byte more than a map and two counts of 16 bits can ask for: a longer file goes on after its fields, wherever it is cut.
pub const FILE: usize = 2_097_133;

// Puts the finding's line at the start of `out`, if it fits: how many bytes it is. A buffer of `LONGEST` bytes is long enough for all.
pub fn print(input: &[u8], length: usize, form: Form, file: &[u8], out: &mut [u8]) -> usize
    ensures counted { result ≡ put_count (printed form (offered input.now length) file.now) out.old }
    ensures written { out.new ≡ put (printed form (offered input.now length) file.now) out.old }
    ensures proved { JudgementRight form (offered input.now length) file.now }
{
    let mut work = [0u8; Formula::WORK];
    let finding = find_as(input, length, form, file, &mut work);
    put_line(finding, out)
}

// The line of a finding.
fn put_line(finding: Finding, out: &mut [u8]) -> usize
    ensures value { result ≡ put_count (line_of finding) out.old }
    ensures out_after { out.new ≡ put (line_of finding) out.old }
{
    match finding {
        Finding::NotBorneOut => buffer::append(out, 0, b"not borne out\n"),
        Finding::Accepted(claim) => accepted(claim, out),
        Finding::OtherFormula => buffer::append(out, 0, b"not of this formula\n"),
        Finding::Refused { number, line } => report::refusal(out, number, line),
    }
}

// The line of an accepted claim.
fn accepted(claim: u8, out: &mut [u8]) -> usize
    ensures value { result ≡ put_count (accepted_line claim) out.old }
    ensures out_after { out.new ≡ put (accepted_line claim) out.old }
{
    if claim == 0 {
        return buffer::append(out, 0, b"accepted 0\n");
    }
    buffer::append(out, 0, b"accepted 1\n")
}

// What is found of a text and a file.
pub fn find(text: &[u8], file: &[u8], work: &mut [u8]) -> Finding
    ensures found { result ≡ finding text.now file.now work.old }
    ensures left { work.new ≡ left text.now file.now work.old }
    ensures proved { FindingRight text.now file.now work.old }
{
    find_as(text, text.len(), Form::Clauses, file, work)
}

// The same for a text of that form, in a buffer.
fn find_as(input: &[u8], length: usize, form: Form, file: &[u8], work: &mut [u8]) -> Finding
    ensures { Finds (on_text (form_read form (offered input.now length)) file.now) work.old result work.new }
{
    let mut kinds = [0u8; Formula::UNKNOWNS];
    let mut literals = [0i32; Formula::ENTRIES];
    let mut names = [0u16; Formula::UNKNOWNS];
    match text::read_form(input, length, form, &mut kinds, &mut literals, &mut names) {
        Err(refusal) => Finding::Refused {
            number: refusal.cause.number(),
            line: refusal.line as u32,
        },
        Ok(
            Taken {
                unknowns,
                entries,
                clauses,
                ..
            },
        ) => {
            on_formula(
                &kinds[..unknowns],
                &literals[..entries],
                clauses,
                file,
                work,
            )
        }
    }
}

// The file over a formula.
fn on_formula(
    kinds: &[u8],
    literals: &[i32],
    clauses: usize,
    file: &[u8],
    work: &mut [u8],
) -> Finding
    ensures { Finds (on_formula kinds.now literals.now clauses file.now) work.old result work.new }
{
    match witness::read(file) {
        Ok(record) => on_record(kinds, literals, clauses, file, record, work),
        Err(cause) => Finding::Refused {
            number: cause.number(),
            line: 0,
        },
    }
}

// A file that is read: the record's sizes are the formula's, and there is a claim, or it is not judged.
fn on_record(
    kinds: &[u8],
    literals: &[i32],
    clauses: usize,
    file: &[u8],
    record: Record,
    work: &mut [u8],
) -> Finding
    ensures { Finds (on_record kinds.now literals.now clauses file.now «record») work.old result work.new }
{
    if is_other(record, kinds.len(), clauses) {
        return Finding::OtherFormula;
    }
    if record.map % 2 != 1 {
        return Finding::Refused { number: 7, line: 0 };
    }
    let claim = record.claim;
    on_claim(kinds, literals, file, claim, work)
}

// The record has sizes, and they are not these.
fn is_other(record: Record, unknowns: usize, clauses: usize) -> bool
    ensures { result ≡ of_another «record» unknowns clauses }
{
    if record.map / 2 % 2 != 1 {
        return false;
    }
    if record.unknowns as usize != unknowns {
        return true;
    }
    if record.clauses as usize != clauses {
        return true;
    }
    false
}

// The claim and the rows of its side.
fn on_claim(kinds: &[u8], literals: &[i32], file: &[u8], claim: u8, work: &mut [u8]) -> Finding
    ensures { Finds (on_claim kinds.now literals.now file.now claim) work.old result work.new }
{
    let rows = witness::rows(file, claim == 0);
    match judge::judge(kinds, literals, claim, rows, rows.len() / 16, work) {
        Ok(Judgement::NotBorneOut) => Finding::NotBorneOut,
        Ok(Judgement::Accepted) => Finding::Accepted(claim),
        Err(cause) => Finding::Refused {
            number: cause.number(),
            line: 0,
        },
    }
}
