// Return counts (02, C-16): a lent table of one 32-bit number a row, and what a search that found a model makes of it.
// Every public function is total: its contract gives every lent entry for whatever is lent. Which rows a search yields, and what the counts
// then say of the run, are left to `run`.
// A row costs a look through the yielded rows.
#![tactic(auto)]

ghost use Rattle.std.specs.Prelude.{◌≡◌};
ghost use Rattle.rows.specs.Table.{one_a_row};
ghost use Rattle.counts.specs.Counts.{was_yielded, one_more, counted_up, filled, updated};

const ROW: usize = rows::BITS / 8;

// Cause 16: one count a row.
pub fn counts_fit(rows: &[u8], counts: &[u32]) -> bool
    ensures { result ≡ one_a_row rows.now counts.now }
{
    counts.len() == rows.len() / ROW
}

// After a search with a model: the rows that stood are counted, those that were added came once, and the places given up have 0.
pub fn update(
    rows: &[u8],
    stand: usize,
    end: usize,
    old: usize,
    yielded: &[u8],
    number: usize,
    counts: &mut [u32],
)
    ensures { counts.new ≡ updated (was_yielded rows.now yielded.now number) stand end old counts.old }
{
    count_up(rows, stand, yielded, number, counts);
    fill(counts, stand, end, 1);
    fill(counts, end, old, 0);
}

// Each of the first `stand` places whose row is among the first `number` yielded ones gets one more.
fn count_up(rows: &[u8], stand: usize, yielded: &[u8], number: usize, counts: &mut [u32])
    ensures { counts.new ≡ counted_up (was_yielded rows.now yielded.now number) stand counts.old }
{
    let end = stand.min(counts.len());
    for i in 0..end {
        let came = is_yielded(rows, i, yielded, number);
        counts[i] = one_more(counts[i], came);
    }
}

// The places from `from` up to `to` get a value.
pub fn fill(counts: &mut [u32], from: usize, to: usize, value: u32)
    ensures { counts.new ≡ filled from to value counts.old }
{
    let end = to.min(counts.len());
    for i in from..end {
        counts[i] = value;
    }
}

// The row at place i is among the first `number` yielded ones.
fn is_yielded(rows: &[u8], i: usize, yielded: &[u8], number: usize) -> bool
    ensures { result ≡ was_yielded rows.now yielded.now number i }
{
    rows::find(yielded, number, rows, i).is_some()
}

// At 2^32 - 1 it starts again at 0.
fn one_more(count: u32, came: bool) -> u32
    ensures { result ≡ one_more came count }
{
    if came {
        std::num::wrapping_add_u32(count, 1)
    } else {
        count
    }
}
