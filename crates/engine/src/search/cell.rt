// Single cells of the table in the work area.
ghost use Rattle.std.specs.Prelude.{◌≡◌, ◌<◌, length};
ghost use Rattle.formula.specs.Formula.{max_unknowns, max_rows, work_size};
ghost use Rattle.search_cells.specs.Cells.{cells, wants};

use formula::Formula;
use search_cells::FLAGS;

pub(crate) fn value(work: &[u8], i: usize, k: usize) -> bool
    requires { (length work.now ≡ work_size) × (i < max_rows) × (k < max_unknowns) }
    ensures { result ≡ (cells work.now).value i k }
{
    work[FLAGS + (Formula::UNKNOWNS * i + k)] % 2 == 1
}

pub(crate) fn wanted(work: &[u8], i: usize, k: usize) -> bool
    requires { (length work.now ≡ work_size) × (i < max_rows) × (k < max_unknowns) }
    ensures { result ≡ wants work.now i k }
{
    work[FLAGS + (Formula::UNKNOWNS * i + k)] / 2 % 2 == 1
}
