// The witness file (02, C-18): a claim, the sizes of a formula, rows and rounds as bytes, so that rows can be sent and judged elsewhere.
// `read`, `rows` and `write` promise, for every input, the outcome and every byte that the definition (specs/File.antt) gives; that an accepted
// file is what the writer makes of it, and that what is written is read again, is stated in specs/RoundTrip.antt. Whether rows bear a claim out is
// the judge's to say. Reading and writing are one pass.
#![tactic(auto)]

ghost use Rattle.std.specs.Prelude.{◌≡◌, true, ◌||◌, [], ◌∷◌, ◌+◌, ◌*◌, ◌/◌, ◌%◌, ◌^◌, ◌≤◌, ◌<◌, eqb, length, get_or, take, drop};
ghost use Rattle.cause.specs.Cause.{unless_cause};
ghost use Rattle.witness.specs.File.{stands as bit_stands, part, if_stands, two_bytes, word, rows_field, end_of, record_of, bad_claim, bad_count};
ghost use Rattle.witness.specs.File.{bad_counts, content_cause, file_cause, size, over_lent, write_cause, reading, reading_number, record_read};
ghost use Rattle.witness.specs.File.{read_record, rows_back, rows_start, writing, writing_number, length_written, written_length, out_after};
ghost use Rattle.witness.specs.RoundTrip.{RoundTrip};
ghost use Rattle.witness.specs.Private.Steps.{Placed, Put, Fitting, head, all_fields};

use cause::Cause;
use formula::Formula;

// A map and its fields, the counts of rows under their side's name.
#[derive(Clone, Copy)]
pub struct Record {
    pub map: u8,
    pub claim: u8,
    pub unknowns: u16,
    pub clauses: u16,
    pub universal: u16,
    pub existential: u16,
    pub rounds: u16,
}

// Where the fields of a file start, and where the last one ends.
#[derive(Clone, Copy)]
struct Layout {
    sizes: usize,
    universal: usize,
    existential: usize,
    rounds: usize,
    end: usize,
}

// The weights of the map's bits, in the order of the fields; a map over MAP has others.
const CLAIM: u8 = 1;

const SIZES: u8 = 2;

const UNIVERSAL: u8 = 4;

const EXISTENTIAL: u8 = 8;

const ROUNDS: u8 = 16;

const MAP: u8 = 31;

// A row's bytes.
const BYTES: usize = 16;

// The record of a file. A field whose bit does not stand is 0.
pub fn read(file: &[u8]) -> Result<Record, Cause>
    ensures value { result ≡ reading file.now }
    ensures numbered { reading_number result ≡ file_cause file.now }
    ensures valued { record_read result ≡ read_record file.now }
    ensures round_trip { RoundTrip }
{
    let at = layout_of(file);
    let record = record_of(file, at);
    file_cause(file, at.end, record)?;
    Ok(record)
}

// A side's rows as a part of the file, empty at its start if the bit does not stand or the file is refused.
pub fn rows(file: &[u8], universal: bool) -> &[u8]
    ensures result_value { result.now ≡ rows_back file.now universal }
    ensures own { (result.ref_ptr.0 ≡ file.entry.ref_ptr.0) × (result.ref_ptr.1 ≡ file.entry.ref_ptr.1 + rows_start file.now universal) }
{
    let at = layout_of(file);
    let record = record_of(file, at);
    if file_cause(file, at.end, record).is_err() {
        return &file[0..0];
    }
    if universal {
        return rows_at(
            file,
            stands(record.map, UNIVERSAL),
            at.universal,
            record.universal,
        );
    }
    rows_at(
        file,
        stands(record.map, EXISTENTIAL),
        at.existential,
        record.existential,
    )
}

// The file of a record and its sides' rows at the start of `out`: its length.
pub fn write(
    record: Record,
    universal: &[u8],
    existential: &[u8],
    out: &mut [u8],
) -> Result<usize, Cause>
    ensures value { result ≡ writing «record» universal.now existential.now out.old }
    ensures out_after { out.new ≡ out_after «record» universal.now existential.now out.old }
    ensures numbered { writing_number result ≡ write_cause «record» universal.now existential.now (length out.old) }
    ensures valued { length_written result ≡ written_length «record» universal.now existential.now out.old }
    ensures round_trip { RoundTrip }
{
    write_cause(record, universal, existential, out.len())?;
    Ok(put_all(out, record, universal, existential))
}

// Where the fields of a file start, with a byte past the end read as 0.
fn layout_of(file: &[u8]) -> Layout
    ensures { Placed result file.now }
{
    let map = byte(file, 0);
    let sizes = 1 + width(stands(map, CLAIM), 1);
    let universal = sizes + width(stands(map, SIZES), 4);
    let existential = universal + rows_width(file, stands(map, UNIVERSAL), universal);
    let rounds = existential + rows_width(file, stands(map, EXISTENTIAL), existential);
    let end = rounds + width(stands(map, ROUNDS), 2);
    Layout {
        sizes,
        universal,
        existential,
        rounds,
        end,
    }
}

// The record whose fields start there.
fn record_of(file: &[u8], at: Layout) -> Record
    requires { Placed at file.now }
    ensures { result ≡ record_of file.now }
{
    let map = byte(file, 0);
    Record {
        map,
        claim: claim_of(file, stands(map, CLAIM)),
        unknowns: number(file, stands(map, SIZES), at.sizes),
        clauses: number(file, stands(map, SIZES), at.sizes + 2),
        universal: number(file, stands(map, UNIVERSAL), at.universal),
        existential: number(file, stands(map, EXISTENTIAL), at.existential),
        rounds: number(file, stands(map, ROUNDS), at.rounds),
    }
}

// The cause for which a file is refused, if there is one.
fn file_cause(file: &[u8], end: usize, record: Record) -> Result<(), Cause>
    requires { (end ≡ end_of file.now) × («record» ≡ record_of file.now) }
    ensures { result ≡ unless_cause (file_cause file.now) tt }
{
    if file.is_empty() {
        return Err(Cause::Length);
    }
    if record.map > MAP {
        return Err(Cause::Map);
    }
    if file.len() != end {
        return Err(Cause::Length);
    }
    content_cause(record)
}

// A wrong claim and wrong counts, of the fields whose bit stands.
fn content_cause(record: Record) -> Result<(), Cause>
    ensures { result ≡ unless_cause (content_cause «record») tt }
{
    if wrong_claim(record) {
        return Err(Cause::Count); // a claim above 1
    }
    if wrong_counts(record) {
        return Err(Cause::Rows); // a count of 0 or over 256
    }
    Ok(())
}

fn wrong_claim(record: Record) -> bool
    ensures { result ≡ bad_claim «record» }
{
    stands(record.map, CLAIM) && record.claim > 1
}

fn wrong_counts(record: Record) -> bool
    ensures { result ≡ bad_counts «record» }
{
    wrong_count(stands(record.map, UNIVERSAL), record.universal)
        || wrong_count(stands(record.map, EXISTENTIAL), record.existential)
}

fn wrong_count(there: bool, count: u16) -> bool
    ensures { result ≡ bad_count there count }
{
    there && (count == 0 || count as usize > Formula::ROWS)
}

// The cause for which a write is refused, if there is one.
fn write_cause(
    record: Record,
    universal: &[u8],
    existential: &[u8],
    room: usize,
) -> Result<(), Cause>
    ensures { result ≡ unless_cause (write_cause «record» universal.now existential.now room) tt }
{
    if record.map > MAP {
        return Err(Cause::Map);
    }
    if room < size_of(record) {
        return Err(Cause::Length);
    }
    content_cause(record)?;
    if lent_too_few(record, universal, existential) {
        return Err(Cause::Rows);
    }
    Ok(())
}

fn lent_too_few(record: Record, universal: &[u8], existential: &[u8]) -> bool
    ensures { result ≡ (over_lent (bit_stands 2 «record».map) «record».universal universal.now || over_lent (bit_stands 3 «record».map)
        «record».existential existential.now) }
{
    too_few(stands(record.map, UNIVERSAL), record.universal, universal)
        || too_few(
            stands(record.map, EXISTENTIAL),
            record.existential,
            existential,
        )
}

// Fewer whole rows are lent than counted.
fn too_few(there: bool, count: u16, rows: &[u8]) -> bool
    ensures { result ≡ over_lent there count rows.now }
{
    there && rows.len() / BYTES < count as usize
}

// The length of a record's file.
fn size_of(record: Record) -> usize
    ensures { result ≡ size «record» }
{
    let map = record.map;
    let front = 1 + width(stands(map, CLAIM), 1);
    let before = front + width(stands(map, SIZES), 4);
    let between = before
        + width(
            stands(map, UNIVERSAL),
            2 + BYTES * record.universal as usize,
        );
    let behind = between
        + width(
            stands(map, EXISTENTIAL),
            2 + BYTES * record.existential as usize,
        );
    behind + width(stands(map, ROUNDS), 2)
}

// All fields at the start of `out`: the place behind them.
fn put_all(out: &mut [u8], record: Record, universal: &[u8], existential: &[u8]) -> usize
    requires { Fitting «record» universal.now existential.now (length out.old) }
    ensures { Put out.old out.new 0 result (all_fields «record» universal.now existential.now) }
{
    let map = record.map;
    let a = put_head(out, record);
    let b = put_rows(out, a, stands(map, UNIVERSAL), record.universal, universal);
    let c = put_rows(
        out,
        b,
        stands(map, EXISTENTIAL),
        record.existential,
        existential,
    );
    put_number(out, c, stands(map, ROUNDS), record.rounds)
}

// The fields before the rows.
fn put_head(out: &mut [u8], record: Record) -> usize
    requires { 1 + if_stands (bit_stands 0 «record».map) 1 + if_stands (bit_stands 1 «record».map) 4 ≤ length out.old }
    ensures { Put out.old out.new 0 result (head «record») }
{
    let map = record.map;
    let a = put_byte(out, 0, true, map);
    let b = put_byte(out, a, stands(map, CLAIM), record.claim);
    let c = put_number(out, b, stands(map, SIZES), record.unknowns);
    put_number(out, c, stands(map, SIZES), record.clauses)
}

// A count and its rows, if the bit stands.
fn put_rows(out: &mut [u8], at: usize, there: bool, count: u16, rows: &[u8]) -> usize
    requires { (at + if_stands there (2 + 16 * count) ≤ length out.old) × (there ≡ true → 16 * count ≤ length rows.now) }
    ensures { Put out.old out.new at result (part there (rows_field count rows.now)) }
{
    if there {
        let start = put_number(out, at, true, count);
        let end = BYTES * count as usize;
        return buffer::append(out, start, &rows[0..end]);
    }
    at
}

// A number of 16 bits, low byte first, if the bit stands.
fn put_number(out: &mut [u8], at: usize, there: bool, number: u16) -> usize
    requires { at + if_stands there 2 ≤ length out.old }
    ensures { Put out.old out.new at result (part there (two_bytes number)) }
{
    if there {
        return buffer::append(out, at, &number.to_le_bytes());
    }
    at
}

// A byte, if the bit stands.
fn put_byte(out: &mut [u8], at: usize, there: bool, value: u8) -> usize
    requires { at + if_stands there 1 ≤ length out.old }
    ensures { Put out.old out.new at result (part there (value ∷ [])) }
{
    if there {
        out[at] = value;
        return at + 1;
    }
    at
}

// A side's rows behind its count, or the empty part.
fn rows_at(file: &[u8], there: bool, at: usize, count: u16) -> &[u8]
    requires { at + if_stands there (2 + 16 * count) ≤ length file.now }
    ensures own { (result.ref_ptr.0 ≡ file.entry.ref_ptr.0) × (result.ref_ptr.1 ≡ file.entry.ref_ptr.1 + if_stands there (at + 2)) }
    ensures result_value { result.now ≡ part there (take (16 * count) (drop (at + 2) file.now)) }
{
    if there {
        let start = at + 2;
        let end = start + BYTES * count as usize;
        return &file[start..end];
    }
    &file[0..0]
}

// The bytes that a side's count and rows take, its count being that of the file.
fn rows_width(file: &[u8], there: bool, at: usize) -> usize
    requires { at < 2 ^ 32 }
    ensures value { result ≡ if_stands there (2 + 16 * if_stands there (word (drop at file.now))) }
    ensures upper_bound { result < 2 ^ 21 }
{
    let count = number(file, there, at);
    width(there, 2 + BYTES * count as usize)
}

// A field's width, or 0.
fn width(there: bool, bytes: usize) -> usize
    ensures value { result ≡ if_stands there bytes }
    ensures upper_bound { result ≤ bytes }
{
    if there {
        return bytes;
    }
    0
}

// The claim, or 0.
fn claim_of(file: &[u8], there: bool) -> u8
    ensures { result ≡ if_stands there (get_or file.now 1 0) }
{
    if there {
        return byte(file, 1);
    }
    0
}

// A number of 16 bits, low byte first, or 0.
fn number(file: &[u8], there: bool, at: usize) -> u16
    requires { at < 2 ^ 32 }
    ensures { result ≡ if_stands there (word (drop at file.now)) }
{
    if there {
        return u16::from_le_bytes([byte(file, at), byte(file, at + 1)]);
    }
    0
}

// A byte of the file, 0 past its end.
fn byte(file: &[u8], at: usize) -> u8
    ensures { result ≡ get_or file.now at 0 }
{
    file.get(at).copied().unwrap_or(0)
}

// Whether the map's bit of this weight stands.
fn stands(map: u8, weight: u8) -> bool
    requires { 0 < weight }
    ensures { result ≡ eqb (map / weight % 2) 1 }
{
    map / weight % 2 == 1
}
