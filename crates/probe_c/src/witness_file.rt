// What the tests call of `probe::witness_file` from outside.
ghost use Rattle.std.specs.Prelude.{◌≡◌, length, get_or};
ghost use Rattle.witness.specs.File.{made, reading, rows_back, writing, out_after};
ghost use Rattle.probe.specs.WitnessFile.{reading_number, RecordTold, writing_number, length_told};

// The record of a file, zeros on a refusal.
#[unsafe(no_mangle)]
pub extern "C" fn probe_witness_read(
    file: &[u8],
    map: &mut u8,
    claim: &mut u8,
    unknowns: &mut u16,
    clauses: &mut u16,
    universal: &mut u16,
    existential: &mut u16,
    rounds: &mut u16,
) -> u64
    ensures value { result ≡ reading_number (reading file.now) }
    ensures record_told { RecordTold (reading file.now) map.new claim.new unknowns.new clauses.new universal.new existential.new rounds.new }
{
    probe::witness_file::probe_witness_read(
        file,
        map,
        claim,
        unknowns,
        clauses,
        universal,
        existential,
        rounds,
    )
}

// Writes a file; its length, 0 on a refusal, goes behind the last reference.
#[unsafe(no_mangle)]
pub extern "C" fn probe_witness_write(
    universal: &[u8],
    existential: &[u8],
    out: &mut [u8],
    map: u8,
    claim: u8,
    unknowns: u16,
    clauses: u16,
    universal_count: u16,
    existential_count: u16,
    rounds: u16,
    length: &mut usize,
) -> u64
    ensures value { result ≡ writing_number (writing (made map claim unknowns clauses universal_count existential_count rounds) universal.now
        existential.now out.old) }
    ensures length_after { length.new ≡ length_told
        (writing (made map claim unknowns clauses universal_count existential_count rounds) universal.now existential.now out.old) }
    ensures out_after { out.new ≡ out_after (made map claim unknowns clauses universal_count existential_count rounds) universal.now existential.now out.old }
{
    probe::witness_file::probe_witness_write(
        universal,
        existential,
        out,
        map,
        claim,
        unknowns,
        clauses,
        universal_count,
        existential_count,
        rounds,
        length,
    )
}

// The length of a side's rows.
#[unsafe(no_mangle)]
pub extern "C" fn probe_witness_rows_length(file: &[u8], universal: bool) -> usize
    ensures { result ≡ length (rows_back file.now universal) }
{
    probe::witness_file::probe_witness_rows_length(file, universal)
}

// Byte j of a side's rows, or 0 past their end.
#[unsafe(no_mangle)]
pub extern "C" fn probe_witness_rows_byte(file: &[u8], universal: bool, j: usize) -> u8
    ensures { result ≡ get_or (rows_back file.now universal) j 0 }
{
    probe::witness_file::probe_witness_rows_byte(file, universal, j)
}
