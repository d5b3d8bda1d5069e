// The witness file of a text or a gate list: it is decided, and the rows of the side that settled it are written as a file that the judge accepts.
// `certify` and `certify_gates` promise, for every text, buffers and work area, the bytes that the definition (specs/Certificate.antt) gives; that the
// file is accepted is stated in specs/CertificateRight.antt.
// Reading belongs to `text`, the run to `decision`, the file to `witness`, lines to `report`; here what one returns is handed to the next.
#![tactic(auto)]

ghost use Rattle.std.specs.Prelude.{◌≤◌, ◌<◌, ◌≡◌, length, replicate, Ok};
ghost use Rattle.formula.specs.Formula.{max_unknowns, max_clauses, work_size};
ghost use Rattle.formula.specs.Causes.{checked, sizes};
ghost use Rattle.text.specs.Reading.{read_as};
ghost use Rattle.text.specs.Offered.{offered};
ghost use Rattle.report.specs.Report.{refusal_line, put, put_count};
ghost use Rattle.witness.specs.File.{made, file as file_of, size, write_cause};
ghost use Rattle.answer.specs.Printed.{settled};
ghost use Rattle.certificate.specs.Certificate.{only_lines, on_formula, on_text, work_by, output, gates_output, left, gates_left, Delivered};
ghost use Rattle.certificate.specs.CertificateRight.{CertificateRight, GatesCertificateRight};
ghost use Rattle.certificate.specs.Private.Steps.{Ran};

use cause::Cause;
use engine::run::Outcome;
use formula::Formula;
use text::Taken;
use witness::Record;

// How many bytes were put into each buffer.
#[derive(Clone, Copy)]
pub struct Counts {
    pub file: usize,
    pub lines: usize,
}

// Room for every file, and for the lines.
pub const FILE: usize = 4_106;

pub const LINES: usize = 128;

const ROUNDS: u32 = 1_000;

// Puts the file at the start of `file`, or 01's lines at the start of `lines`, if they fit. The work area is that of the run.
pub fn certify(text: &[u8], file: &mut [u8], lines: &mut [u8], work: &mut [u8]) -> Counts
    ensures delivered { Delivered (output text.now work.old) file.old lines.old result file.new lines.new }
    ensures left { work.new ≡ left text.now work.old }
    ensures proved { CertificateRight text.now }
{
    certify_as(text, text.len(), false, file, lines, work)
}

// The same for a text of `length` bytes at the front of the buffer `input`; one that is longer than it is refused, and not cut.
pub fn certify_offered(
    input: &[u8],
    length: usize,
    file: &mut [u8],
    lines: &mut [u8],
    work: &mut [u8],
) -> Counts
    ensures delivered { Delivered (output (offered input.now length) work.old) file.old lines.old result file.new lines.new }
    ensures left { work.new ≡ left (offered input.now length) work.old }
    ensures proved { CertificateRight (offered input.now length) }
{
    certify_as(input, length, false, file, lines, work)
}

// The same for a gate list.
pub fn certify_gates(
    input: &[u8],
    length: usize,
    file: &mut [u8],
    lines: &mut [u8],
    work: &mut [u8],
) -> Counts
    ensures delivered { Delivered (gates_output (offered input.now length) work.old) file.old lines.old result file.new lines.new }
    ensures left { work.new ≡ gates_left (offered input.now length) work.old }
    ensures proved { GatesCertificateRight (offered input.now length) }
{
    certify_as(input, length, true, file, lines, work)
}

// The same for a text of clauses or of gates.
fn certify_as(
    input: &[u8],
    length: usize,
    gates: bool,
    file: &mut [u8],
    lines: &mut [u8],
    work: &mut [u8],
) -> Counts
    ensures delivered { Delivered (on_text (read_as gates (offered input.now length)) work.old) file.old lines.old result file.new lines.new }
    ensures work_after { work.new ≡ work_by (read_as gates (offered input.now length)) work.old }
{
    let mut kinds = [0u8; Formula::UNKNOWNS];
    let mut literals = [0i32; Formula::ENTRIES];
    let mut names = [0u16; Formula::UNKNOWNS];
    match text::read_offered(input, length, gates, &mut kinds, &mut literals, &mut names) {
        Err(refusal) => refuse(refusal.cause.number(), refusal.line as u32, file, lines),
        Ok(
            Taken {
                unknowns,
                entries,
                variables,
                clauses,
            },
        ) => {
            if work.len() != Formula::WORK {
                return refuse(Cause::Work.number(), 0, file, lines);
            }
            decided(
                &kinds[..unknowns],
                &literals[..entries],
                variables as u32,
                clauses as u32,
                file,
                lines,
                work,
            )
        }
    }
}

// No file, and the line of a refusal.
pub fn refuse(number: u32, line: u32, file: &mut [u8], lines: &mut [u8]) -> Counts
    ensures { Delivered (only_lines (refusal_line number line)) file.old lines.old result file.new lines.new }
{
    let count = report::refusal(lines, number, line);
    Counts {
        file: 0,
        lines: count,
    }
}

// A formula that is accepted, with a work area of the run's size.
fn decided(
    kinds: &[u8],
    literals: &[i32],
    variables: u32,
    clauses: u32,
    file: &mut [u8],
    lines: &mut [u8],
    work: &mut [u8],
) -> Counts
    requires { (checked kinds.now literals.now ≡ Ok (sizes kinds.now literals.now)) × (length work.old ≡ work_size) × (clauses ≤ max_clauses) }
    ensures delivered { Delivered (on_formula kinds.now literals.now variables clauses) file.old lines.old result file.new lines.new }
    ensures work_after { work.new ≡ replicate work_size 0 }
{
    let mut universal = [0u8; 16 * Formula::ROWS];
    let mut existential = [0u8; 16 * Formula::ROWS];
    let end = decision::decide_rows(
        kinds,
        literals,
        &mut universal,
        &mut existential,
        work,
        ROUNDS,
    );
    deliver(
        kinds,
        literals,
        end,
        variables,
        clauses,
        &universal,
        &existential,
        file,
        lines,
    )
}

// The file of the side that settled the formula, or the lines of one that is undecided.
fn deliver(
    kinds: &[u8],
    literals: &[i32],
    end: Outcome,
    variables: u32,
    clauses: u32,
    universal: &[u8],
    existential: &[u8],
    file: &mut [u8],
    lines: &mut [u8],
) -> Counts
    requires { Ran (settled kinds.now literals.now) end universal.now existential.now × (length kinds.now ≤ max_unknowns) × (clauses ≤ max_clauses) }
    ensures { Delivered (on_formula kinds.now literals.now variables clauses) file.old lines.old result file.new lines.new }
{
    let answer = end.answer;
    let number = engine::run::number(answer);
    if number == 1 {
        let record = record_of(27, 1, kinds.len(), clauses, 0, end.existential, end.round);
        let count = put_file(record, universal, existential, file);
        return Counts {
            file: count,
            lines: 0,
        };
    }
    if number == 0 {
        let record = record_of(23, 0, kinds.len(), clauses, end.universal, 0, end.round);
        let count = put_file(record, universal, existential, file);
        return Counts {
            file: count,
            lines: 0,
        };
    }
    let count = report::result(
        lines,
        number,
        variables,
        clauses,
        end.round,
        end.universal as u32,
        end.existential as u32,
    );
    Counts {
        file: 0,
        lines: count,
    }
}

// A record by its fields.
fn record_of(
    map: u8,
    claim: u8,
    unknowns: usize,
    clauses: u32,
    universal: usize,
    existential: usize,
    rounds: u32,
) -> Record
    requires { (unknowns < 65536) × (clauses < 65536) × (universal < 65536) × (existential < 65536) × (rounds < 65536) }
    ensures { result ≡ made map claim unknowns clauses universal existential rounds }
{
    Record {
        map,
        claim,
        unknowns: unknowns as u16,
        clauses: clauses as u16,
        universal: universal as u16,
        existential: existential as u16,
        rounds: rounds as u16,
    }
}

// The file of a record that can be written, at the start of `file`, if it fits: how many bytes it is.
fn put_file(record: Record, universal: &[u8], existential: &[u8], file: &mut [u8]) -> usize
    requires { write_cause «record» universal.now existential.now (size «record») ≡ 0 }
    ensures value { result ≡ put_count (file_of «record» universal.now existential.now) file.old }
    ensures file_after { file.new ≡ put (file_of «record» universal.now existential.now) file.old }
{
    match witness::write(record, universal, existential, file) {
        Ok(length) => length,
        Err(_) => 0,
    }
}
