// A study as people call it: from the bytes of a text or of a gate list to the printed ones, and from a formula to the study's outcome.
// `answer` and `answer_gates` promise, for every text and buffer, the bytes that the definition (specs/Printed.antt) gives, and what they say of the
// formula or of the circuit (specs/AnswerRight.antt); `decide`, for every formula and work area, the study by the house list (specs/House.antt).
// Reading belongs to `text`, the runs to `study`, the lines to `report`; here what one returns is handed to the next.
#![tactic(auto)]

ghost use Rattle.std.specs.Prelude.{◌≡◌, true, false, Ok};
ghost use Rattle.formula.specs.Causes.{checked, sizes};
ghost use Rattle.text.specs.Offered.{offered};
ghost use Rattle.report.specs.Report.{put, put_count};
ghost use Rattle.study_answer.specs.House.{Decided};
ghost use Rattle.study_answer.specs.Printed.{result_of, printed};
ghost use Rattle.study_answer.specs.AnswerRight.{Settles, StudyAnswerRight};

use formula::Formula;
use study::Studied;
use text::Taken;

// Room for every answer.
pub const LONGEST: usize = 192;

// The house list, four numbers a setting.
const LIST: [u32; 16] = [
    1, // trimmed, house preferences, the universal table cleared in every round
    256, 1, 1_000, 1, // trimmed, every preference 0, never cleared
    0, 0, 1_000, 0, // as lent, every preference 1, cleared in every round
    1, 1, 1_000, 0, // the program's: as lent, house preferences, never cleared
    256, 0, 1_000,
];

// Puts the lines of a text's study at the start of `out`, if they fit: how many bytes they are. A buffer of `LONGEST` bytes is long enough for every text.
pub fn answer(input: &[u8], length: usize, out: &mut [u8]) -> usize
    ensures counted { result ≡ put_count (printed false (offered input.now length)) out.old }
    ensures written { out.new ≡ put (printed false (offered input.now length)) out.old }
    ensures proved { StudyAnswerRight false (offered input.now length) }
{
    answer_as(input, length, false, out)
}

// The same of a gate list.
pub fn answer_gates(input: &[u8], length: usize, out: &mut [u8]) -> usize
    ensures counted { result ≡ put_count (printed true (offered input.now length)) out.old }
    ensures written { out.new ≡ put (printed true (offered input.now length)) out.old }
    ensures proved { StudyAnswerRight true (offered input.now length) }
{
    answer_as(input, length, true, out)
}

fn answer_as(input: &[u8], length: usize, gates: bool, out: &mut [u8]) -> usize
    ensures value { result ≡ put_count (printed gates (offered input.now length)) out.old }
    ensures out_after { out.new ≡ put (printed gates (offered input.now length)) out.old }
    ensures study_answer_right { StudyAnswerRight gates (offered input.now length) }
{
    let mut kinds = [0u8; Formula::UNKNOWNS];
    let mut literals = [0i32; Formula::ENTRIES];
    let mut names = [0u16; Formula::UNKNOWNS];
    match text::read_offered(input, length, gates, &mut kinds, &mut literals, &mut names) {
        Err(refusal) => report::refusal(out, refusal.cause.number(), refusal.line as u32),
        Ok(
            Taken {
                unknowns,
                entries,
                variables,
                clauses,
            },
        ) => settled(
            &kinds[..unknowns],
            &literals[..entries],
            variables as u32,
            clauses as u32,
            out,
        ),
    }
}

// The lines of a formula that is accepted.
fn settled(kinds: &[u8], literals: &[i32], variables: u32, clauses: u32, out: &mut [u8]) -> usize
    requires { checked kinds.now literals.now ≡ Ok (sizes kinds.now literals.now) }
    ensures value { result ≡ put_count (result_of kinds.now literals.now variables clauses) out.old }
    ensures out_after { out.new ≡ put (result_of kinds.now literals.now variables clauses) out.old }
    ensures settles { Settles kinds.now literals.now }
{
    let mut work = [0u8; Formula::WORK];
    let end = decide(kinds, literals, &mut work);
    let outcome = end.outcome;
    let answer = outcome.answer;
    report::study_result(
        out,
        engine::run::number(answer),
        variables,
        clauses,
        end.setting as u32 + 1,
        outcome.round,
        outcome.universal as u32,
        outcome.existential as u32,
    )
}

// The study of a formula by the house list, over 256 rows a side.
pub fn decide(kinds: &[u8], literals: &[i32], work: &mut [u8]) -> Studied
    ensures { Decided kinds.now literals.now work.old result work.new }
{
    let list = LIST;
    let mut universal_rows = [0u8; 16 * Formula::ROWS];
    let mut universal_marks = [0u16; Formula::ROWS];
    let mut universal_counts = [0u32; Formula::ROWS];
    let mut existential_rows = [0u8; 16 * Formula::ROWS];
    let mut existential_marks = [0u16; Formula::ROWS];
    let mut existential_counts = [0u32; Formula::ROWS];
    study::study(
        kinds,
        literals,
        &list,
        &mut universal_rows,
        &mut universal_marks,
        &mut universal_counts,
        &mut existential_rows,
        &mut existential_marks,
        &mut existential_counts,
        work,
    )
}
