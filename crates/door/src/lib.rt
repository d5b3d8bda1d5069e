// The C door (01, 'Text', last paragraph): from a text's bytes, a work area and a limit to one number; from a text and a witness file to the judge's
// number; from a text to its witness file; from a text and a work area to the number of its study.
// Each function promises, for every input, the number and every byte that the definitions (specs/Door.antt, specs/Witness.antt) give, and cites what
// they say (specs/Numbers.antt, specs/Witness.antt, specs/Study.antt, certificate's CertificateRight).
// Reading belongs to `text`, the run to `decision`, the judge to `judgement`, the file to `certificate`, the study to `study_answer`; here what one returns is handed to the next.
#![tactic(auto)]

ghost use Rattle.std.specs.Prelude.{◌≡◌};
ghost use Rattle.engine.specs.Outcome.{left};
ghost use Rattle.decision.specs.Decision.{handed_on};
ghost use Rattle.door.specs.Door.{run_number, answer, work_after};
ghost use Rattle.door.specs.Numbers.{NumbersRight};
ghost use Rattle.report.specs.Report.{put, put_count};
ghost use Rattle.judgement.specs.Finding.{left as judge_left};
ghost use Rattle.certificate.specs.Certificate.{output, left as witness_left};
ghost use Rattle.certificate.specs.CertificateRight.{CertificateRight};
ghost use Rattle.door.specs.Witness.{version, judged, JudgedRight};
ghost use Rattle.door.specs.Study.{study_number, study_left, study_answer, study_work, StudyNumbersRight};

use formula::Formula;
use judgement::Finding;
use text::Taken;

// The number of this interface: it grows when a function comes or changes.
const VERSION: u32 = 3;

pub fn vulzhenn_version() -> u32
    ensures { result ≡ version }
{
    VERSION
}

// 1 for an accepted claim, 0 for one not borne out, 2 for a file of another formula, or 100 plus the number of the refusal.
pub fn vulzhenn_judge(text: &[u8], witness: &[u8], work: &mut [u8]) -> u32
    ensures answered { result ≡ judged text.now witness.now work.old }
    ensures left { work.new ≡ judge_left text.now witness.now work.old }
    ensures right { JudgedRight text.now witness.now work.old }
{
    match judgement::find(text, witness, work) {
        Finding::NotBorneOut => 0,
        Finding::Accepted(_) => 1,
        Finding::OtherFormula => 2,
        Finding::Refused { number, .. } => 100 + number,
    }
}

// The length of the text's witness file, which is put at the start of `out`; 0 if it does not fit, or there is none.
pub fn vulzhenn_witness(text: &[u8], out: &mut [u8], work: &mut [u8]) -> usize
    ensures counted { result ≡ put_count (output text.now work.old).file out.old }
    ensures written { out.new ≡ put (output text.now work.old).file out.old }
    ensures left { work.new ≡ witness_left text.now work.old }
    ensures right { CertificateRight text.now }
{
    let mut lines = [0u8; 0];
    let counts = certificate::certify(text, out, &mut lines, work);
    counts.file
}

// The answer's number, or 100 plus the number of the refusal.
pub fn vulzhenn_decide(text: &[u8], work: &mut [u8], limit: u32) -> u32
    ensures answered { result ≡ answer text.now work.old limit }
    ensures left { work.new ≡ work_after text.now work.old limit }
    ensures right { NumbersRight text.now work.old limit }
{
    let mut kinds = [0u8; Formula::UNKNOWNS];
    let mut literals = [0i32; Formula::ENTRIES];
    let mut names = [0u16; Formula::UNKNOWNS];
    match text::read(text, &mut kinds, &mut literals, &mut names) {
        Err(refusal) => 100 + refusal.cause.number(),
        Ok(
            Taken {
                unknowns,
                entries,
                ..
            },
        ) => { decide(&kinds[..unknowns], &literals[..entries], work, limit) }
    }
}

// The run with no preferences, over 256 rows a side.
fn decide(kinds: &[u8], literals: &[i32], work: &mut [u8], limit: u32) -> u32
    ensures value { result ≡ run_number (handed_on kinds.now literals.now work.old limit) }
    ensures work_after { work.new ≡ (left (handed_on kinds.now literals.now work.old limit)).work }
{
    let end = decision::decide_formula(kinds, literals, work, limit);
    let answer = end.answer;
    engine::run::one_number(answer) as u32
}

// The number of the study's answer, or 100 plus the number of the refusal.
pub fn vulzhenn_study(text: &[u8], work: &mut [u8]) -> u32
    ensures answered { result ≡ study_answer text.now work.old }
    ensures left { work.new ≡ study_work text.now work.old }
    ensures right { StudyNumbersRight text.now work.old }
{
    let mut kinds = [0u8; Formula::UNKNOWNS];
    let mut literals = [0i32; Formula::ENTRIES];
    let mut names = [0u16; Formula::UNKNOWNS];
    match text::read(text, &mut kinds, &mut literals, &mut names) {
        Err(refusal) => 100 + refusal.cause.number(),
        Ok(
            Taken {
                unknowns,
                entries,
                ..
            },
        ) => { study_formula(&kinds[..unknowns], &literals[..entries], work) }
    }
}

// The study by the house list, over 256 rows a side.
fn study_formula(kinds: &[u8], literals: &[i32], work: &mut [u8]) -> u32
    ensures value { result ≡ study_number kinds.now literals.now work.old }
    ensures work_after { work.new ≡ study_left kinds.now literals.now work.old }
{
    let end = study_answer::decide(kinds, literals, work);
    let outcome = end.outcome;
    let answer = outcome.answer;
    engine::run::one_number(answer) as u32
}
