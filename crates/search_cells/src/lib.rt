// The table of cells in the work area, a cell for each row and position (specs/Cells.antt), and the steps over whole parts of it.
// Every public function is total: its contract gives every lent byte for whatever is lent, and nothing is changed unless the sizes are
// right. What the cells mean, and the cells one by one, are left to `search`.
#![tactic(auto)]

ghost use Rattle.std.specs.Prelude.{◌≡◌, cond, ◌+◌, ◌≤◌, ◌<◌, length};
ghost use Rattle.formula.specs.Formula.{max_unknowns, max_rows, work_size};
ghost use Rattle.rows.specs.Row.{bytes_of};
ghost use Rattle.rows.specs.Access.{placed, bit_set};
ghost use Rattle.expansion.specs.Play.{part};
ghost use Rattle.expansion.specs.Cells.{tabulate};
ghost use Rattle.search_cells.specs.Cells.{cells, owned};
ghost use Rattle.search_cells.specs.Steps.{fits, with_cell, rows_set, bounded, rows_opened, with_given_row, rows_filled, first_difference, rows_compared};
ghost use Rattle.search_cells.specs.Steps.{packed};

use formula::Formula;

// The bytes of the cells' values and wanted values lie behind those of their levels.
pub const FLAGS: usize = Formula::ROWS * Formula::UNKNOWNS;

// A packed row.
const BYTES: usize = 16;

// Sets the cells at position k of the rows from lo to hi. Level 0 is that of an open cell; what the cells want stays.
pub fn set_rows(work: &mut [u8], k: usize, lo: usize, hi: usize, level: u8, value: bool)
    ensures { work.new ≡ rows_set k lo hi level value work.old }
{
    if is_table(work.len(), 0, hi) {} else {
        return;
    }
    if Formula::UNKNOWNS <= k {
        return;
    }
    for i in lo..hi {
        set(work, i, k, level, value);
    }
}

// Opens the cells of the rows from lo to hi whose level is over the bound: a plain walk over their bytes, which the compiler makes wide.
pub fn undo(work: &mut [u8], lo: usize, hi: usize, bound: u8)
    ensures { work.new ≡ rows_opened lo hi bound work.old }
{
    if is_table(work.len(), 0, hi) {} else {
        return;
    }
    if hi < lo {
        return;
    }
    for at in Formula::UNKNOWNS * lo..Formula::UNKNOWNS * hi {
        work[at] = within(work[at], bound);
    }
}

// Sets the other side's cells to the values of the lent rows, at level 0: lent row r goes to the sorted row place[r].
pub fn fill(kinds: &[u8], rows: &[u8], place: &[u8], side: u8, work: &mut [u8])
    ensures { work.new ≡ rows_filled kinds.now rows.now place.now side work.old }
{
    if is_table(work.len(), kinds.len(), place.len()) {} else {
        return;
    }
    for (row, i) in place.iter().enumerate() {
        fill_row(kinds, rows, row, usize::from(*i), side, work);
    }
}

// Writes, for each sorted row but the first, the first position of the other side at which it differs from the row before it; the number of
// kinds if there is none.
pub fn compare(kinds: &[u8], work: &[u8], count: usize, side: u8, differences: &mut [u8])
    ensures { differences.new ≡ rows_compared kinds.now work.now count side differences.old }
{
    if is_table(work.len(), kinds.len(), count) {} else {
        return;
    }
    if differences.len() != Formula::ROWS {
        return;
    }
    for i in 1..count {
        differences[i] = first_difference(kinds, work, i - 1, side) as u8;
    }
}

// Packs the own values of each row, in the lent order, from the area's start, and clears what is behind. The bytes of the values lie behind
// all the rows, so that writing a row leaves them.
pub fn pack(kinds: &[u8], place: &[u8], side: u8, work: &mut [u8])
    ensures { work.new ≡ packed kinds.now place.now side work.old }
{
    if is_table(work.len(), kinds.len(), place.len()) {} else {
        return;
    }
    for (row, i) in place.iter().enumerate() {
        pack_row(kinds, row, usize::from(*i), side, work);
    }
    let end = work.len();
    rows::clear(&mut work[BYTES * place.len()..end]);
}

// The area has its size, and cells for that many positions and rows.
fn is_table(area: usize, positions: usize, rows: usize) -> bool
    ensures { result ≡ fits area positions rows }
{
    if area != Formula::WORK {
        return false;
    }
    if Formula::UNKNOWNS < positions {
        return false;
    }
    rows <= Formula::ROWS
}

fn set(work: &mut [u8], i: usize, k: usize, level: u8, value: bool)
    requires { (length work.old ≡ work_size) × (i < max_rows) × (k < max_unknowns) }
    ensures { work.new ≡ with_cell i k level value work.old }
{
    let at = Formula::UNKNOWNS * i + k;
    work[at] = level;
    work[FLAGS + at] = work[FLAGS + at] / 2 * 2 + u8::from(value);
}

fn within(level: u8, bound: u8) -> u8
    ensures { result ≡ bounded bound level }
{
    if level <= bound { level } else { 0 }
}

fn fill_row(kinds: &[u8], rows: &[u8], row: usize, i: usize, side: u8, work: &mut [u8])
    requires { (length work.old ≡ work_size) × (length kinds.now ≤ max_unknowns) × (i < max_rows) }
    ensures { work.new ≡ with_given_row kinds.now rows.now side row i work.old }
{
    let mut bit: usize = 0;
    for (k, kind) in kinds.iter().enumerate() {
        if *kind != side { // the row's next bit
            set(work, i, k, 1, rows::bit(rows, row, bit));
            bit += 1;
        }
    }
}

// The first position of the other side at which the rows i and i + 1 have different values; the number of kinds if there is none.
fn first_difference(kinds: &[u8], work: &[u8], i: usize, side: u8) -> usize
    requires { (length kinds.now ≤ max_unknowns) × (length work.now ≡ work_size) × (i + 1 < max_rows) }
    ensures { result ≡ first_difference kinds.now side work.now i }
{
    for (k, kind) in kinds.iter().enumerate() {
        if *kind != side { // a given value
            if value(work, i, k) != value(work, i + 1, k) {
                return k;
            }
        }
    }
    kinds.len()
}

fn value(work: &[u8], i: usize, k: usize) -> bool
    requires { (length work.now ≡ work_size) × (i < max_rows) × (k < max_unknowns) }
    ensures { result ≡ (cells work.now).value i k }
{
    work[FLAGS + (Formula::UNKNOWNS * i + k)] % 2 == 1
}

// Writes the own values of the sorted row i as lent row `row`.
fn pack_row(kinds: &[u8], row: usize, i: usize, side: u8, work: &mut [u8])
    requires { (length kinds.now ≤ max_unknowns) × (row < max_rows) × (i < max_rows) × (length work.old ≡ work_size) }
    ensures { work.new ≡ placed work.old row
        (bytes_of (part (owned kinds.now side) (tabulate (length kinds.now) ((cells work.old).value i)))) }
{
    rows::clear(&mut work[BYTES * row..BYTES * row + BYTES]);
    let mut bit = 0;
    for (k, kind) in kinds.iter().enumerate() {
        if *kind == side {
            let value = value(work, i, k);
            set_if(work, row, bit, value);
            bit += 1;
        }
    }
}

// Sets bit k of the row if the value is true.
fn set_if(work: &mut [u8], row: usize, k: usize, value: bool)
    ensures { work.new ≡ cond value (bit_set work.old row k) work.old }
{
    if value {
        rows::set_bit(work, row, k);
    }
}
