// The witness file of a decision: the rows of the side that settled a formula, written as a file that the judge accepts.
// `write` promises, for all that is lent, the bytes that the definition (specs/WitnessFile.antt) gives; that the judge accepts them, for any list of
// settings none of which trims, is stated in specs/WitnessRight.antt. Reading and deciding belong to `decision`, the file's format to `witness`.
#![tactic(auto)]

ghost use Rattle.std.specs.Prelude.{◌≡◌, ◌<◌};
ghost use Rattle.report.specs.Report.{put, put_count};
ghost use Rattle.witness_writing.specs.WitnessFile.{side_record, record_file, file_of, numbers_fit, decision_file};
ghost use Rattle.witness_writing.specs.WitnessRight.{WitnessRight};

use decision::Decision;
use engine::run::Answer;
use witness::Record;

// Room for every file.
pub const LONGEST: usize = 4_106;

// Puts the file of a decision that has left these rows at the start of `file`, if it fits: how many bytes it is. Undecided or refused, there is none.
pub fn write(
    decision: Decision,
    universal_rows: &[u8],
    existential_rows: &[u8],
    file: &mut [u8],
) -> usize
    ensures counted { result ≡ put_count (decision_file decision universal_rows.now existential_rows.now) file.old }
    ensures written { file.new ≡ put (decision_file decision universal_rows.now existential_rows.now) file.old }
    ensures proved { WitnessRight }
{
    let unknowns = decision.unknowns;
    let clauses = decision.clauses;
    let rounds = decision.round;
    let answer = decision.answer;
    match answer {
        Answer::True => write_side(
            true,
            unknowns,
            clauses,
            existential_rows,
            decision.existential,
            rounds,
            file,
        ),
        Answer::False => write_side(
            false,
            unknowns,
            clauses,
            universal_rows,
            decision.universal,
            rounds,
            file,
        ),
        Answer::Spent => 0,
        Answer::NoRoomUniversal => 0,
        Answer::NoRoomExistential => 0,
        Answer::Refused(_) => 0,
    }
}

// The file of a formula with that value. Of the rows of the side that settled it so many count. Nothing is written where a number does not fit its field,
// or where there are no rows, over 256 or fewer than are to count.
fn write_side(
    value: bool,
    unknowns: usize,
    clauses: u32,
    rows: &[u8],
    count: u32,
    rounds: u32,
    file: &mut [u8],
) -> usize
    ensures value { result ≡ put_count (file_of value unknowns clauses rows.now count rounds) file.old }
    ensures file_after { file.new ≡ put (file_of value unknowns clauses rows.now count rounds) file.old }
{
    if fit(unknowns, clauses, count, rounds) {} else {
        return 0;
    }
    let record = record_of(value, unknowns, clauses, count, rounds);
    put_file(record, rows, file)
}

// Whether each number fits its field.
fn fit(unknowns: usize, clauses: u32, count: u32, rounds: u32) -> bool
    ensures { result ≡ numbers_fit unknowns clauses count rounds }
{
    if unknowns > 65_535 {
        return false;
    }
    if clauses > 65_535 {
        return false;
    }
    if count > 65_535 {
        return false;
    }
    rounds <= 65_535
}

// The record of the side that settled a formula.
fn record_of(value: bool, unknowns: usize, clauses: u32, count: u32, rounds: u32) -> Record
    requires { (unknowns < 65536) × (clauses < 65536) × (count < 65536) × (rounds < 65536) }
    ensures { result ≡ side_record value unknowns clauses count rounds }
{
    if value {
        return Record {
            map: 27,
            claim: 1,
            unknowns: unknowns as u16,
            clauses: clauses as u16,
            universal: 0,
            existential: count as u16,
            rounds: rounds as u16,
        };
    }
    Record {
        map: 23,
        claim: 0,
        unknowns: unknowns as u16,
        clauses: clauses as u16,
        universal: count as u16,
        existential: 0,
        rounds: rounds as u16,
    }
}

// The file of a record, of which one side has rows.
fn put_file(record: Record, rows: &[u8], file: &mut [u8]) -> usize
    ensures value { result ≡ put_count (record_file «record» rows.now) file.old }
    ensures file_after { file.new ≡ put (record_file «record» rows.now) file.old }
{
    match witness::write(record, rows, rows, file) {
        Ok(length) => length,
        Err(_) => 0,
    }
}
