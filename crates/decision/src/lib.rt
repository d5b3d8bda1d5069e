// A decision: from a text's bytes, its form and a list of settings to what is known of it. The text is read, and its formula studied under the settings.
// `decide` and `decide_within` promise, for all that is lent, the decision and every lent byte that the definition (specs/Deciding.antt) gives, all that is
// promised of the run that answered, and what a decision says of the text (specs/DecisionRight.antt).
// Reading belongs to `text`, the runs to `study`. What is put down of a decision is left to others. The settings of the commands are in `settings`.
#![tactic(auto)]

ghost use Rattle.std.specs.Prelude.{◌+◌, ◌≤◌, ◌<◌, ◌≡◌, cond, ◌++◌, ltb, length, take, drop};
ghost use Rattle.formula.specs.Formula.{work_size};
ghost use Rattle.text.specs.Offered.{offered};
ghost use Rattle.engine.specs.Outcome.{areas, returned, left};
ghost use Rattle.decision.specs.Decision.{with_rows, handed_on, Decided};
ghost use Rattle.decision.specs.Deciding.{of_refusal, of_study, reading, decided, front, area_after};
ghost use Rattle.decision.specs.DecisionRight.{Decides};
ghost use Rattle.decision.specs.Private.Steps.{ReadUsable, Small, ReadDecides};

use engine::run::{Answer, Outcome};
use formula::Formula;
use study::Studied;
use text::{Form, Refusal, Taken};

pub mod settings;

// What is known of a text. Of one that is refused: the cause as `answer`, and its line; all else is 0. Of one that is taken: the outcome of the study
// (the answer, the round in which it came, the counts of the two tables, the opening dispatch as a row, the length of its block), the setting that gave
// it, from 1, and what was read (the unknowns, the entries of the literals, V and C).
#[derive(Clone, Copy)]
pub struct Decision {
    pub answer: Answer,
    pub round: u32,
    pub universal: u32,
    pub existential: u32,
    pub opening: [u8; 16],
    pub block: usize,
    pub setting: u32,
    pub line: u32,
    pub unknowns: usize,
    pub entries: usize,
    pub variables: u32,
    pub clauses: u32,
}

// Decides the text of `count` bytes at the front of the buffer. Kinds, literals and names are left in the tables, rows, marks and counts of the last run in
// the areas.
pub fn decide(
    buffer: &[u8],
    count: usize,
    form: Form,
    settings: &[u32],
    kinds: &mut [u8],
    literals: &mut [i32],
    names: &mut [u16],
    universal_rows: &mut [u8],
    universal_marks: &mut [u16],
    universal_counts: &mut [u32],
    existential_rows: &mut [u8],
    existential_marks: &mut [u16],
    existential_counts: &mut [u32],
    work: &mut [u8],
) -> Decision
    ensures { Decides
        form (offered buffer.now count) settings.now
        kinds.old literals.old names.old
        (areas universal_rows.old universal_marks.old universal_counts.old existential_rows.old existential_marks.old existential_counts.old work.old)
        result
        kinds.new literals.new names.new
        (areas universal_rows.new universal_marks.new universal_counts.new existential_rows.new existential_marks.new existential_counts.new work.new) }
{
    let reading = text::read_form(buffer, count, form, kinds, literals, names);
    study_read(
        reading,
        kinds,
        literals,
        settings,
        universal_rows,
        universal_marks,
        universal_counts,
        existential_rows,
        existential_marks,
        existential_counts,
        work,
    )
}

// Decides the text of `count` bytes at the front of an area. Once the text is read, the front of the area is the work area.
pub fn decide_within(
    area: &mut [u8],
    count: usize,
    form: Form,
    settings: &[u32],
    kinds: &mut [u8],
    literals: &mut [i32],
    names: &mut [u16],
    universal_rows: &mut [u8],
    universal_marks: &mut [u16],
    universal_counts: &mut [u32],
    existential_rows: &mut [u8],
    existential_marks: &mut [u16],
    existential_counts: &mut [u32],
) -> Decision
    ensures decides { Decides
        form (offered area.old count) settings.now
        kinds.old literals.old names.old
        (areas universal_rows.old universal_marks.old universal_counts.old existential_rows.old existential_marks.old existential_counts.old (front area.old))
        result
        kinds.new literals.new names.new
        (areas universal_rows.new universal_marks.new universal_counts.new existential_rows.new existential_marks.new existential_counts.new (front area.new)) }
    ensures area { area.new ≡ area_after
        (reading form (offered area.old count) (length kinds.old) (length literals.old) (length names.old))
        settings.now
        (areas universal_rows.old universal_marks.old universal_counts.old existential_rows.old existential_marks.old existential_counts.old (front area.old))
        area.old }
{
    let reading = text::read_form(area, count, form, kinds, literals, names);
    let end = front_end(area.len());
    study_read(
        reading,
        kinds,
        literals,
        settings,
        universal_rows,
        universal_marks,
        universal_counts,
        existential_rows,
        existential_marks,
        existential_counts,
        &mut area[..end],
    )
}

// Where the work area ends at the front of an area of so many bytes.
fn front_end(bytes: usize) -> usize
    ensures { result ≡ cond (ltb bytes work_size) bytes work_size }
{
    if bytes < Formula::WORK {
        return bytes;
    }
    Formula::WORK
}

// Studies the formula that was read, which stands at the front of the tables.
fn study_read(
    reading: Result<Taken, Refusal>,
    kinds: &[u8],
    literals: &[i32],
    settings: &[u32],
    universal_rows: &mut [u8],
    universal_marks: &mut [u16],
    universal_counts: &mut [u32],
    existential_rows: &mut [u8],
    existential_marks: &mut [u16],
    existential_counts: &mut [u32],
    work: &mut [u8],
) -> Decision
    requires { ReadUsable reading kinds.now literals.now }
    ensures { ReadDecides
        reading kinds.now literals.now settings.now
        (areas universal_rows.old universal_marks.old universal_counts.old existential_rows.old existential_marks.old existential_counts.old work.old)
        result
        (areas universal_rows.new universal_marks.new universal_counts.new existential_rows.new existential_marks.new existential_counts.new work.new) }
{
    match reading {
        Err(refusal) => refused(refusal.cause.number(), refusal.line),
        Ok(
            Taken {
                unknowns,
                entries,
                variables,
                clauses,
            },
        ) => {
            let end = study::study(
                &kinds[..unknowns],
                &literals[..entries],
                settings,
                universal_rows,
                universal_marks,
                universal_counts,
                existential_rows,
                existential_marks,
                existential_counts,
                work,
            );
            studied(end, unknowns, entries, variables, clauses)
        }
    }
}

fn refused(number: u32, line: usize) -> Decision
    requires { line < 4294967296 }
    ensures { result ≡ of_refusal number line }
{
    Decision {
        answer: Answer::Refused(number),
        round: 0,
        universal: 0,
        existential: 0,
        opening: [0u8; 16],
        block: 0,
        setting: 0,
        line: line as u32,
        unknowns: 0,
        entries: 0,
        variables: 0,
        clauses: 0,
    }
}

fn studied(
    end: Studied,
    unknowns: usize,
    entries: usize,
    variables: usize,
    clauses: usize,
) -> Decision
    requires { Small end × (variables < 4294967296) × (clauses < 4294967296) }
    ensures { result ≡ of_study unknowns entries variables clauses «end» }
{
    let place = end.setting;
    let outcome = end.outcome;
    let answer = outcome.answer;
    let opening = outcome.opening;
    Decision {
        answer,
        round: outcome.round,
        universal: outcome.universal as u32,
        existential: outcome.existential as u32,
        opening,
        block: outcome.block,
        setting: (place + 1) as u32,
        line: 0,
        unknowns,
        entries,
        variables: variables as u32,
        clauses: clauses as u32,
    }
}

// ---- The run as the programs and the C functions make it (01, 'Text', last paragraph): no preferences lent, 256 rows a side, the universal table never
// cleared.
// `decide_formula` and `decide_rows` promise, for every formula, work area and limit, what `run` returns then and every byte that is lent.
// Over rows of its own.
pub fn decide_formula(kinds: &[u8], literals: &[i32], work: &mut [u8], limit: u32) -> Outcome
    ensures returned { result ≡ returned (handed_on kinds.now literals.now work.old limit) }
    ensures left { work.new ≡ (left (handed_on kinds.now literals.now work.old limit)).work }
{
    let mut universal = [0u8; 16 * Formula::ROWS];
    let mut existential = [0u8; 16 * Formula::ROWS];
    decide_rows(
        kinds,
        literals,
        &mut universal,
        &mut existential,
        work,
        limit,
    )
}

// Over lent row tables, of 256 rows each, in which the rows are left.
pub fn decide_rows(
    kinds: &[u8],
    literals: &[i32],
    universal: &mut [u8],
    existential: &mut [u8],
    work: &mut [u8],
    limit: u32,
) -> Outcome
    ensures { Decided (with_rows kinds.now literals.now universal.old existential.old work.old limit) result universal.new existential.new work.new }
{
    let none = [0u8; 0];
    let mut universal_marks = [0u16; Formula::ROWS];
    let mut universal_counts = [0u32; Formula::ROWS];
    let mut existential_marks = [0u16; Formula::ROWS];
    let mut existential_counts = [0u32; Formula::ROWS];
    engine::run::run(
        kinds,
        literals,
        &none,
        universal,
        &mut universal_marks,
        &mut universal_counts,
        existential,
        &mut existential_marks,
        &mut existential_counts,
        work,
        limit,
        0,
    )
}
