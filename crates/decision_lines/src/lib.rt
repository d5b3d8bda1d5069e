// What is printed of a decision: 01's two lines, or a study's three; of a text that is refused 01's refusal line.
// `result` and `study` put the lines of a decision; `answer_within` and `study_within` decide a text in an area that becomes the work area, and put its lines.
// Each promises, for every input, the bytes that the definition (specs/Lines.antt) gives, and the latter two what they say of the text (specs/LinesRight.antt).
// Deciding belongs to `decision`, the lines to `report`.
#![tactic(auto)]

ghost use Rattle.std.specs.Prelude.{◌≡◌, length};
ghost use Rattle.text.specs.Form.{form_read};
ghost use Rattle.text.specs.Offered.{offered};
ghost use Rattle.report.specs.Report.{put, put_count};
ghost use Rattle.decision.specs.Settings.{round_limit, one_run, default_settings, own_areas};
ghost use Rattle.decision.specs.Deciding.{decided as decided_so, front, area_after};
ghost use Rattle.decision_lines.specs.Lines.{is_refusal, result_of, study_of, decision_in};
ghost use Rattle.decision_lines.specs.LinesRight.{AnswerRight, StudyAnswerRight};

use decision::{Decision, settings};
use engine::run::Answer;
use formula::Formula;
use text::Form;

// Room for every answer: 01's lines, a study's.
pub const LONGEST: usize = 128;

pub const LONGEST_STUDY: usize = 192;

// Puts 01's lines of a decision at the start of `out`, if they fit: how many bytes they are.
pub fn result(decision: Decision, out: &mut [u8]) -> usize
    ensures counted { result ≡ put_count (result_of decision) out.old }
    ensures written { out.new ≡ put (result_of decision) out.old }
{
    let answer = decision.answer;
    if is_refusal(answer) {
        return report::refusal(out, engine::run::number(answer), decision.line);
    }
    report::result(
        out,
        engine::run::number(answer),
        decision.variables,
        decision.clauses,
        decision.round,
        decision.universal,
        decision.existential,
    )
}

// The same with the setting that answered.
pub fn study(decision: Decision, out: &mut [u8]) -> usize
    ensures counted { result ≡ put_count (study_of decision) out.old }
    ensures written { out.new ≡ put (study_of decision) out.old }
{
    let answer = decision.answer;
    if is_refusal(answer) {
        return report::refusal(out, engine::run::number(answer), decision.line);
    }
    report::study_result(
        out,
        engine::run::number(answer),
        decision.variables,
        decision.clauses,
        decision.setting,
        decision.round,
        decision.universal,
        decision.existential,
    )
}

fn is_refusal(answer: Answer) -> bool
    ensures { result ≡ is_refusal answer }
{
    match answer {
        Answer::False => false,
        Answer::True => false,
        Answer::Spent => false,
        Answer::NoRoomUniversal => false,
        Answer::NoRoomExistential => false,
        Answer::Refused(_) => true,
    }
}

// 01's lines of the text `area[..count]`. Once the text is read, the front of the area is the work area.
pub fn answer_within(area: &mut [u8], count: usize, form: Form, out: &mut [u8]) -> usize
    ensures counted { result ≡ put_count (result_of (decision_in form (offered area.old count) (one_run round_limit) area.old)) out.old }
    ensures written { out.new ≡ put (result_of (decision_in form (offered area.old count) (one_run round_limit) area.old)) out.old }
    ensures left { area.new ≡ area_after (form_read form (offered area.old count)) (one_run round_limit) (own_areas (front area.old)) area.old }
    ensures proved { AnswerRight form (offered area.old count) area.old }
{
    let run = settings::RUN;
    let decision = decided(area, count, form, &run);
    result(decision, out)
}

// The same of a study.
pub fn study_within(area: &mut [u8], count: usize, form: Form, out: &mut [u8]) -> usize
    ensures counted { result ≡ put_count (study_of (decision_in form (offered area.old count) default_settings area.old)) out.old }
    ensures written { out.new ≡ put (study_of (decision_in form (offered area.old count) default_settings area.old)) out.old }
    ensures left { area.new ≡ area_after (form_read form (offered area.old count)) default_settings (own_areas (front area.old)) area.old }
    ensures proved { StudyAnswerRight form (offered area.old count) area.old }
{
    let list = settings::STUDY;
    let decision = decided(area, count, form, &list);
    study(decision, out)
}

// The decision over 256 rows a side.
fn decided(area: &mut [u8], count: usize, form: Form, settings: &[u32]) -> Decision
    ensures value { result ≡ decision_in form (offered area.old count) settings.now area.old }
    ensures area_after { area.new ≡ area_after (form_read form (offered area.old count)) settings.now (own_areas (front area.old)) area.old }
{
    let mut kinds = [0u8; Formula::UNKNOWNS];
    let mut literals = [0i32; Formula::ENTRIES];
    let mut names = [0u16; Formula::UNKNOWNS];
    let mut universal_rows = [0u8; 16 * Formula::ROWS];
    let mut universal_marks = [0u16; Formula::ROWS];
    let mut universal_counts = [0u32; Formula::ROWS];
    let mut existential_rows = [0u8; 16 * Formula::ROWS];
    let mut existential_marks = [0u16; Formula::ROWS];
    let mut existential_counts = [0u32; Formula::ROWS];
    decision::decide_within(
        area,
        count,
        form,
        settings,
        &mut kinds,
        &mut literals,
        &mut names,
        &mut universal_rows,
        &mut universal_marks,
        &mut universal_counts,
        &mut existential_rows,
        &mut existential_marks,
        &mut existential_counts,
    )
}
