// The witness file's functions, exported with numbers for their answers: 0, or 100 plus the number of a refusal. A record is reported to seven
// places and handed over as seven numbers; of rows that come back the length and each byte are told.
ghost use Rattle.std.specs.Prelude.{◌≡◌, length, get_or};
ghost use Rattle.witness.specs.File.{made, reading, rows_back, writing, out_after};
ghost use Rattle.probe.specs.WitnessFile.{reading_number, record_told, RecordTold, writing_number, length_told};

use cause::Cause;
use witness::Record;

// The record of a file, zeros on a refusal.
pub fn probe_witness_read(
    file: &[u8],
    map: &mut u8,
    claim: &mut u8,
    unknowns: &mut u16,
    clauses: &mut u16,
    universal: &mut u16,
    existential: &mut u16,
    rounds: &mut u16,
) -> u64
    ensures value { result ≡ reading_number (reading file.now) }
    ensures record_told { RecordTold (reading file.now) map.new claim.new unknowns.new clauses.new universal.new existential.new rounds.new }
{
    let answer = witness::read(file);
    let told = told_record(answer);
    *map = told.map;
    *claim = told.claim;
    *unknowns = told.unknowns;
    *clauses = told.clauses;
    *universal = told.universal;
    *existential = told.existential;
    *rounds = told.rounds;
    told_number(answer)
}

fn told_record(answer: Result<Record, Cause>) -> Record
    ensures { result ≡ record_told answer }
{
    match answer {
        Ok(taken) => taken,
        Err(_) => Record {
            map: 0,
            claim: 0,
            unknowns: 0,
            clauses: 0,
            universal: 0,
            existential: 0,
            rounds: 0,
        },
    }
}

fn told_number(answer: Result<Record, Cause>) -> u64
    ensures { result ≡ reading_number answer }
{
    match answer {
        Ok(_) => 0,
        Err(cause) => crate::refusal_number(cause),
    }
}

// Writes a file; its length, 0 on a refusal, goes behind the last reference.
pub fn probe_witness_write(
    universal: &[u8],
    existential: &[u8],
    out: &mut [u8],
    map: u8,
    claim: u8,
    unknowns: u16,
    clauses: u16,
    universal_count: u16,
    existential_count: u16,
    rounds: u16,
    length: &mut usize,
) -> u64
    ensures value { result ≡ writing_number (writing (made map claim unknowns clauses universal_count existential_count rounds) universal.now existential.now out.old) }
    ensures length_after { length.new ≡ length_told (writing (made map claim unknowns clauses universal_count existential_count rounds) universal.now existential.now out.old) }
    ensures out_after { out.new ≡ out_after (made map claim unknowns clauses universal_count existential_count rounds) universal.now existential.now out.old }
{
    let given = Record {
        map,
        claim,
        unknowns,
        clauses,
        universal: universal_count,
        existential: existential_count,
        rounds,
    };
    let answer = witness::write(given, universal, existential, out);
    *length = written_length(answer);
    written_number(answer)
}

fn written_length(answer: Result<usize, Cause>) -> usize
    ensures { result ≡ length_told answer }
{
    match answer {
        Ok(length) => length,
        Err(_) => 0,
    }
}

fn written_number(answer: Result<usize, Cause>) -> u64
    ensures { result ≡ writing_number answer }
{
    match answer {
        Ok(_) => 0,
        Err(cause) => crate::refusal_number(cause),
    }
}

// The length of a side's rows.
pub fn probe_witness_rows_length(file: &[u8], universal: bool) -> usize
    ensures { result ≡ length (rows_back file.now universal) }
{
    let rows = witness::rows(file, universal);
    rows.len()
}

// Byte j of a side's rows, or 0 past their end.
pub fn probe_witness_rows_byte(file: &[u8], universal: bool, j: usize) -> u8
    ensures { result ≡ get_or (rows_back file.now universal) j 0 }
{
    let rows = witness::rows(file, universal);
    if j < rows.len() { rows[j] } else { 0 }
}
