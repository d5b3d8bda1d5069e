// The record of a decision (02, C-24): the line that a season's sheet reads, with the answer's number, the rounds and C-21's fee; of a text that is refused
// 01's line, and nothing is charged. `put` promises, for every decision, kinds and buffer, the bytes that the definition (specs/Recorded.antt) gives, and
// that what is decided within the programs' limit of rounds is a record that the sheet takes (specs/RecordedRight.antt); `put_within` the same of a text,
// from its bytes on, under any settings.
#![tactic(auto)]

ghost use Rattle.std.specs.Prelude.{◌≡◌};
ghost use Rattle.report.specs.Report.{put as put_into, put_count};
ghost use Rattle.text.specs.Offered.{offered};
ghost use Rattle.text.specs.Form.{form_read};
ghost use Rattle.decision.specs.Settings.{own_areas};
ghost use Rattle.decision.specs.Deciding.{front, area_after};
ghost use Rattle.decision_record.specs.Recorded.{charge_line, recorded, kinds_of, decision_in, record_in};
ghost use Rattle.decision_record.specs.RecordedRight.{RecordedRight};

use cause::Cause;
use decision::Decision;
use engine::run::Answer;
use formula::Formula;
use text::Form;

// Puts the line of the text `area[..count]`, decided under the settings, at the start of `out`, if it fits: how many bytes it is. Once the text is read, the
// front of the area is the work area.
pub fn put_within(
    area: &mut [u8],
    count: usize,
    form: Form,
    settings: &[u32],
    out: &mut [u8],
) -> usize
    ensures counted { result ≡ put_count
        (record_in form (offered area.old count) settings.now area.old)
        out.old }
    ensures written { out.new ≡ put_into
        (record_in form (offered area.old count) settings.now area.old)
        out.old }
    ensures left { area.new ≡ area_after
        (form_read form (offered area.old count)) settings.now
        (own_areas (front area.old)) area.old }
    ensures proved { RecordedRight
        (decision_in form (offered area.old count) settings.now area.old)
        (kinds_of (form_read form (offered area.old count))) }
{
    let mut kinds = [0u8; Formula::UNKNOWNS];
    let mut literals = [0i32; Formula::ENTRIES];
    let mut names = [0u16; Formula::UNKNOWNS];
    let mut universal_rows = [0u8; 16 * Formula::ROWS];
    let mut universal_marks = [0u16; Formula::ROWS];
    let mut universal_counts = [0u32; Formula::ROWS];
    let mut existential_rows = [0u8; 16 * Formula::ROWS];
    let mut existential_marks = [0u16; Formula::ROWS];
    let mut existential_counts = [0u32; Formula::ROWS];
    let decision = decision::decide_within(
        area,
        count,
        form,
        settings,
        &mut kinds,
        &mut literals,
        &mut names,
        &mut universal_rows,
        &mut universal_marks,
        &mut universal_counts,
        &mut existential_rows,
        &mut existential_marks,
        &mut existential_counts,
    );
    let unknowns = decision.unknowns;
    put(decision, &kinds[..unknowns], out)
}

// Puts the line at the start of `out`, if it fits: how many bytes it is. The kinds are those of the formula that was decided.
pub fn put(decision: Decision, kinds: &[u8], out: &mut [u8]) -> usize
    ensures counted { result ≡ put_count (recorded «decision» kinds.now) out.old }
    ensures written { out.new ≡ put_into (recorded «decision» kinds.now) out.old }
    ensures proved { RecordedRight «decision» kinds.now }
{
    let rounds = decision.round;
    let line = decision.line;
    let answer = decision.answer;
    let charge = fee::fee(rounds, kinds);
    match answer {
        Answer::Refused(cause) => report::refusal(out, cause, line),
        Answer::False => put_charge(0, rounds, charge, out),
        Answer::True => put_charge(1, rounds, charge, out),
        Answer::Spent => put_charge(2, rounds, charge, out),
        Answer::NoRoomUniversal => put_charge(3, rounds, charge, out),
        Answer::NoRoomExistential => put_charge(4, rounds, charge, out),
    }
}

// The line of an answer and what is charged for it.
fn put_charge(answer: u32, rounds: u32, charge: Result<u64, Cause>, out: &mut [u8]) -> usize
    ensures value { result ≡ put_count (charge_line answer rounds «charge») out.old }
    ensures out_after { out.new ≡ put_into (charge_line answer rounds «charge») out.old }
{
    match charge {
        Ok(cents) => report::study_record(out, answer, rounds, cents),
        Err(cause) => report::refusal(out, cause.number(), 0),
    }
}
