// What an earlier search leaves for this one: the values of the first block, as far as the prefix is the side's own. Over more rows no model comes before
// the first one over fewer, so what is wanted there and was not found need not be tried again where all before it is as it was.
ghost use Rattle.std.specs.Prelude.{◌≡◌, true, eqb, ◌≤◌, ◌<◌, length};
ghost use Rattle.std.specs.Bool.{beq};
ghost use Rattle.formula.specs.Formula.{max_unknowns, max_rows, work_size};
ghost use Rattle.engine.specs.Private.FirstBlock.{RuledOut, Reads};

use super::cell;

// Reads the values of the first block in the last of the known rows, and returns how many there are; none where no row is known.
pub(crate) fn read(kinds: &[u8], own: &[u8], known: usize, side: u8, block: &mut [u8]) -> usize
    requires { length kinds.now ≤ length block.old }
    ensures { Reads kinds.now own.now known side block.new result }
{
    if known == 0 {
        return 0;
    }
    let row = known - 1;
    for (k, kind) in kinds.iter().enumerate() {
        if *kind != side {
            return k;
        }
        block[k] = u8::from(rows::bit(own, row, k));
    }
    kinds.len()
}

// Whether no model has the value at the own position k of row i: it is the wanted one and not the remembered one, and before k the row has what is
// remembered.
pub(crate) fn rules_out(block: &[u8], work: &[u8], i: usize, k: usize, value: bool) -> bool
    requires { (length work.now ≡ work_size) × (i < max_rows) × (k < max_unknowns) }
    ensures { result ≡ true → RuledOut block.now work.now i k value }
{
    if k < block.len() {} else {
        return false;
    }
    if has(block[k], value) {
        return false;
    }
    if has(block[k], cell::wanted(work, i, k)) {
        return false;
    }
    for j in 0..k {
        if has(block[j], cell::value(work, i, j)) {} else {
            return false;
        }
    }
    true
}

// Whether a byte says a value.
fn has(byte: u8, value: bool) -> bool
    ensures { result ≡ beq (eqb byte 1) value }
{
    (byte == 1) == value
}
