// The witness file of a study: a text or a gate list is decided by the settings of a list, none of which trims the formula, and the rows of the side that
// settled it are written as a file that the judge accepts.
// `certify` promises, for every text, buffers and work area, the bytes that the definition (specs/StudyCertificate.antt) gives; that the file is accepted is
// stated in specs/StudyCertificateRight.antt.
// Reading belongs to `text`, the runs to `study`, the file to `witness`, lines to `report`; here what one returns is handed to the next.
#![tactic(auto)]

ghost use Rattle.std.specs.Prelude.{◌≤◌, ◌<◌, ◌≡◌, true, false, length, Ok};
ghost use Rattle.formula.specs.Formula.{max_unknowns, max_clauses, work_size};
ghost use Rattle.formula.specs.Causes.{checked, sizes};
ghost use Rattle.text.specs.Offered.{offered};
ghost use Rattle.report.specs.Report.{put, put_count};
ghost use Rattle.witness.specs.File.{made, file as file_of, size, write_cause};
ghost use Rattle.certificate.specs.Certificate.{Delivered};
ghost use Rattle.study_certificate.specs.WitnessList.{witness_study};
ghost use Rattle.study_certificate.specs.StudyCertificate.{by_answer, on_formula, output, left};
ghost use Rattle.study_certificate.specs.StudyCertificateRight.{StudyCertificateRight};
ghost use Rattle.study_certificate.specs.Private.Steps.{Ready};

use cause::Cause;
use certificate::Counts;
use formula::Formula;
use study::Studied;
use text::Taken;
use witness::Record;

// Room for every file, and for the lines.
pub const FILE: usize = 4_106;

pub const LINES: usize = 192;

// The settings, four numbers each.
const LIST: [u32; 16] = [
    0, // house preferences, the universal table cleared in every round
    256, 1, 1_000, 0, // every preference 0, never cleared
    0, 0, 1_000, 0, // every preference 1, cleared in every round
    1, 1, 1_000, 0, // the program's: house preferences, never cleared
    256, 0, 1_000,
];

// Puts the file of a text at the start of `file`, or the study's lines at the start of `lines`, if they fit. The work area is that of the study.
pub fn certify(
    input: &[u8],
    length: usize,
    file: &mut [u8],
    lines: &mut [u8],
    work: &mut [u8],
) -> Counts
    ensures delivered { Delivered (output false (offered input.now length) work.old) file.old lines.old result file.new lines.new }
    ensures left { work.new ≡ left false (offered input.now length) work.old }
    ensures proved { StudyCertificateRight false (offered input.now length) }
{
    certify_as(input, length, false, file, lines, work)
}

// The same of a gate list.
pub fn certify_gates(
    input: &[u8],
    length: usize,
    file: &mut [u8],
    lines: &mut [u8],
    work: &mut [u8],
) -> Counts
    ensures delivered { Delivered (output true (offered input.now length) work.old) file.old lines.old result file.new lines.new }
    ensures left { work.new ≡ left true (offered input.now length) work.old }
    ensures proved { StudyCertificateRight true (offered input.now length) }
{
    certify_as(input, length, true, file, lines, work)
}

fn certify_as(
    input: &[u8],
    length: usize,
    gates: bool,
    file: &mut [u8],
    lines: &mut [u8],
    work: &mut [u8],
) -> Counts
    ensures delivered { Delivered (output gates (offered input.now length) work.old) file.old lines.old result file.new lines.new }
    ensures work_after { work.new ≡ left gates (offered input.now length) work.old }
    ensures study_certificate_right { StudyCertificateRight gates (offered input.now length) }
{
    let mut kinds = [0u8; Formula::UNKNOWNS];
    let mut literals = [0i32; Formula::ENTRIES];
    let mut names = [0u16; Formula::UNKNOWNS];
    match text::read_offered(input, length, gates, &mut kinds, &mut literals, &mut names) {
        Err(refusal) => {
            certificate::refuse(refusal.cause.number(), refusal.line as u32, file, lines)
        }
        Ok(
            Taken {
                unknowns,
                entries,
                variables,
                clauses,
            },
        ) => {
            if work.len() != Formula::WORK {
                return certificate::refuse(Cause::Work.number(), 0, file, lines);
            }
            decided(
                &kinds[..unknowns],
                &literals[..entries],
                variables as u32,
                clauses as u32,
                file,
                lines,
                work,
            )
        }
    }
}

// A formula that is accepted, with a work area of the study's size.
fn decided(
    kinds: &[u8],
    literals: &[i32],
    variables: u32,
    clauses: u32,
    file: &mut [u8],
    lines: &mut [u8],
    work: &mut [u8],
) -> Counts
    requires { (checked kinds.now literals.now ≡ Ok (sizes kinds.now literals.now)) × (length work.old ≡ work_size) × (clauses ≤ max_clauses) }
    ensures delivered { Delivered (on_formula kinds.now literals.now variables clauses work.old) file.old lines.old result file.new lines.new }
    ensures work_after { work.new ≡ (witness_study kinds.now literals.now work.old).areas_left.work }
{
    let list = LIST;
    let mut universal_rows = [0u8; 16 * Formula::ROWS];
    let mut universal_marks = [0u16; Formula::ROWS];
    let mut universal_counts = [0u32; Formula::ROWS];
    let mut existential_rows = [0u8; 16 * Formula::ROWS];
    let mut existential_marks = [0u16; Formula::ROWS];
    let mut existential_counts = [0u32; Formula::ROWS];
    let end = study::study(
        kinds,
        literals,
        &list,
        &mut universal_rows,
        &mut universal_marks,
        &mut universal_counts,
        &mut existential_rows,
        &mut existential_marks,
        &mut existential_counts,
        work,
    );
    deliver(
        kinds.len(),
        variables,
        clauses,
        end,
        &universal_rows,
        &existential_rows,
        file,
        lines,
    )
}

// The file of the side that settled the formula, or the lines of one that is undecided.
fn deliver(
    unknowns: usize,
    variables: u32,
    clauses: u32,
    end: Studied,
    universal: &[u8],
    existential: &[u8],
    file: &mut [u8],
    lines: &mut [u8],
) -> Counts
    requires { Ready end universal.now existential.now × (unknowns ≤ max_unknowns) × (clauses ≤ max_clauses) }
    ensures { Delivered (by_answer end.outcome.answer unknowns variables clauses end universal.now existential.now) file.old lines.old result file.new lines.new }
{
    let outcome = end.outcome;
    let answer = outcome.answer;
    let number = engine::run::number(answer);
    if number == 1 {
        let record = record_of(
            27,
            1,
            unknowns,
            clauses,
            0,
            outcome.existential,
            outcome.round,
        );
        let count = put_file(record, universal, existential, file);
        return Counts {
            file: count,
            lines: 0,
        };
    }
    if number == 0 {
        let record = record_of(
            23,
            0,
            unknowns,
            clauses,
            outcome.universal,
            0,
            outcome.round,
        );
        let count = put_file(record, universal, existential, file);
        return Counts {
            file: count,
            lines: 0,
        };
    }
    let count = report::study_result(
        lines,
        number,
        variables,
        clauses,
        end.setting as u32 + 1,
        outcome.round,
        outcome.universal as u32,
        outcome.existential as u32,
    );
    Counts {
        file: 0,
        lines: count,
    }
}

// A record by its fields.
fn record_of(
    map: u8,
    claim: u8,
    unknowns: usize,
    clauses: u32,
    universal: usize,
    existential: usize,
    rounds: u32,
) -> Record
    requires { (unknowns < 65536) × (clauses < 65536) × (universal < 65536) × (existential < 65536) × (rounds < 65536) }
    ensures { result ≡ made map claim unknowns clauses universal existential rounds }
{
    Record {
        map,
        claim,
        unknowns: unknowns as u16,
        clauses: clauses as u16,
        universal: universal as u16,
        existential: existential as u16,
        rounds: rounds as u16,
    }
}

// The file of a record that can be written, at the start of `file`, if it fits: how many bytes it is.
fn put_file(record: Record, universal: &[u8], existential: &[u8], file: &mut [u8]) -> usize
    requires { write_cause «record» universal.now existential.now (size «record») ≡ 0 }
    ensures value { result ≡ put_count (file_of «record» universal.now existential.now) file.old }
    ensures file_after { file.new ≡ put (file_of «record» universal.now existential.now) file.old }
{
    match witness::write(record, universal, existential, file) {
        Ok(length) => length,
        Err(_) => 0,
    }
}
