// Rows of 16 bytes, tables of rows and tables of marks (01, 'Rows').
// Every public function is total: a row that is not wholly inside its table reads as not there, and nothing is written to it. What the rows
// mean is left to the crates that search over them.
#![tactic(auto)]

ghost use Rattle.std.specs.Prelude.{◌≡◌, ◌&&◌, ◌+◌, ◌≤◌, min, eqb, length, take, drop, replicate};
ghost use Rattle.std.proofs.Math.Seq.{paste};
ghost use Rattle.rows.specs.Row.{bit_of};
ghost use Rattle.rows.specs.Stray.{stray, stray_rows};
ghost use Rattle.rows.specs.Table.{row_at, room, table_fits, one_a_row};
ghost use Rattle.rows.specs.Access.{zeroed_from, handed_back, handed_start, bit_set, same_bytes, first_place, rows_written, marks_written, places_below};
ghost use Rattle.rows.specs.Access.{rows_given_up, marks_given_up};

use formula::Formula;

// A row's bytes, and its bits.
const BYTES: usize = 16;

// A row by itself.
pub type Row = [u8; BYTES];

pub const BITS: usize = 8 * BYTES;

// Cause 4, of the rows.
pub fn table_fits(rows: &[u8]) -> bool
    ensures { result ≡ table_fits rows.now }
{
    let length = rows.len();
    if length < BYTES {
        return false;
    }
    if Formula::ROWS * BYTES < length {
        return false;
    }
    length % BYTES == 0
}

// Cause 4, of the marks.
pub fn marks_fit(rows: &[u8], marks: &[u16]) -> bool
    ensures { result ≡ one_a_row rows.now marks.now }
{
    marks.len() == rows.len() / BYTES
}

// The row at a place below the count, as the part of the table that holds it.
pub fn row(rows: &[u8], count: usize, place: usize) -> &[u8]
    ensures result_value { result.now ≡ handed_back rows.now count place }
    ensures own { (result.ref_ptr.0 ≡ rows.entry.ref_ptr.0) × (result.ref_ptr.1 ≡ rows.entry.ref_ptr.1 + handed_start rows.now count place) }
{
    if count <= place {
        return &rows[0..0];
    }
    if rows.len() / BYTES <= place {
        return &rows[0..0];
    }
    let start = BYTES * place;
    let end = start + BYTES;
    &rows[start..end]
}

// Bit k of row i.
pub fn bit(rows: &[u8], i: usize, k: usize) -> bool
    ensures { result ≡ bit_of (row_at rows.now i) k }
{
    if rows.len() / BYTES <= i {
        return false;
    }
    if BITS <= k {
        return false;
    }
    let byte = rows[BYTES * i + k / 8];
    let shift = (k % 8) as u8;
    (byte >> shift) % 2 == 1
}

// Sets bit k of row i.
pub fn set_bit(rows: &mut [u8], i: usize, k: usize)
    ensures { rows.new ≡ bit_set rows.old i k }
{
    if rows.len() / BYTES <= i {
        return;
    }
    if BITS <= k {
        return;
    }
    let place = BYTES * i + k / 8;
    let shift = (k % 8) as u8;
    let byte = rows[place];
    rows[place] = byte | 1 << shift;
}

// The first place below the count whose row equals row j of the other table.
pub fn find(rows: &[u8], count: usize, other: &[u8], j: usize) -> Option<usize>
    ensures { result ≡ first_place rows.now count other.now j }
{
    if other.len() / BYTES <= j {
        return None;
    }
    let places = rows_below(rows, count);
    for i in 0..places {
        if same_row(rows, BYTES * i, other, BYTES * j) {
            return Some(i);
        }
    }
    None
}

// Copies row j of the other table to place i, with its mark.
pub fn write(rows: &mut [u8], marks: &mut [u16], i: usize, other: &[u8], j: usize, mark: u16)
    ensures rows_after { rows.new ≡ rows_written rows.old marks.old i other.now j }
    ensures marks_after { marks.new ≡ marks_written rows.old marks.old i other.now j mark }
{
    if rows.len() / BYTES <= i {
        return;
    }
    if marks.len() <= i {
        return;
    }
    if other.len() / BYTES <= j {
        return;
    }
    copy_row(rows, BYTES * i, other, BYTES * j);
    marks[i] = mark;
}

// Gives places up, from one up to another, those that are inside both tables: their rows and marks become 0.
pub fn give_up(rows: &mut [u8], marks: &mut [u16], from: usize, to: usize)
    ensures rows_after { rows.new ≡ rows_given_up rows.old marks.old from to }
    ensures marks_after { marks.new ≡ marks_given_up rows.old marks.old from to }
{
    let end = places_below(rows, marks, to);
    if end <= from {
        return;
    }
    rows[BYTES * from..BYTES * end].fill(0);
    marks[from..end].fill(0);
}

// Cause 8: a row below the count has a bit set at or beyond m.
pub fn stray_bit(rows: &[u8], count: usize, m: usize) -> bool
    ensures { result ≡ stray_rows m count rows.now }
{
    let end = rows_below(rows, count);
    for i in 0..end {
        if stray_in_row(rows, BYTES * i, m) {
            return true;
        }
    }
    false
}

// Every byte becomes 0.
pub fn clear(area: &mut [u8])
    ensures { area.new ≡ replicate (length area.old) 0 }
{
    area.fill(0);
}

// The rows below the count that are wholly inside the table.
fn rows_below(rows: &[u8], count: usize) -> usize
    ensures { result ≡ min count (room rows.now) }
{
    count.min(rows.len() / BYTES)
}

// The places below a number that are inside both tables.
fn places_below(rows: &[u8], marks: &[u16], to: usize) -> usize
    ensures { result ≡ places_below rows.now marks.now to }
{
    rows_below(rows, to).min(marks.len())
}

// The row from x on equals the row from y on. All bytes are compared, so that the machine can compare them at once.
fn same_row(a: &[u8], x: usize, b: &[u8], y: usize) -> bool
    requires { (x + 16 ≤ length a.now) × (y + 16 ≤ length b.now) }
    ensures { result ≡ same_bytes (take 16 (drop x a.now)) (take 16 (drop y b.now)) }
{
    let mut same = true;
    for p in 0..BYTES {
        same = and_same(same, a[x + p], b[y + p]);
    }
    same
}

fn and_same(same: bool, x: u8, y: u8) -> bool
    ensures { result ≡ (same && eqb x y) }
{
    if x == y { same } else { false }
}

// Copies the row from y on to x.
fn copy_row(rows: &mut [u8], x: usize, other: &[u8], y: usize)
    requires { (x + 16 ≤ length rows.old) × (y + 16 ≤ length other.now) }
    ensures { rows.new ≡ paste rows.old x (drop y other.now) 16 }
{
    rows[x..x + BYTES].copy_from_slice(&other[y..y + BYTES]);
}

// The row from x on has a bit set at or beyond m: what is left of the byte with bit m, or one of the bytes behind it, is not zero.
fn stray_in_row(rows: &[u8], x: usize, m: usize) -> bool
    requires { x + 16 ≤ length rows.now }
    ensures { result ≡ stray m (take 16 (drop x rows.now)) }
{
    if BITS <= m {
        return false;
    }
    let first = m / 8;
    let shift = (m % 8) as u8;
    if rows[x + first] >> shift != 0 {
        return true;
    }
    for p in first + 1..BYTES {
        if rows[x + p] != 0 {
            return true;
        }
    }
    false
}
