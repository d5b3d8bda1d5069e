// Single codes of the clauses, and the clauses that the index lists for one. 2 v stands for the literal of the unknown v, 2 v + 1 for its negation,
// 0 ends a clause. The unknown v is at position v - 1.
ghost use Rattle.std.specs.Prelude.{ℕ, ◌≡◌, ◌+◌, true, ◌≤◌, ◌<◌, List, length, get_or};
ghost use Rattle.formula.specs.Formula.{max_unknowns};
ghost use Rattle.codes.specs.Codes.{row_position, last_code};
ghost use Rattle.index.specs.Index.{code_count, index_size};
ghost use Rattle.codes.specs.Private.Clauses.{position as code_position, Begins};
ghost use Rattle.engine.specs.Private.Steps.{Starts};

use formula::Formula;

// The last position.
const LAST: usize = Formula::UNKNOWNS - 1;

// The position of a literal's unknown.
pub(crate) fn literal_position(c: usize) -> usize
    requires { 2 ≤ c }
    ensures { result ≡ code_position c }
{
    c / 2 - 1
}

// The same, and inside the row for any number, so that no code needs a test.
pub(crate) fn position(c: usize) -> usize
    ensures { (result ≡ row_position c) × (result < max_unknowns) }
{
    (c / 2 + LAST) % Formula::UNKNOWNS
}

// Whether a clause begins at `start`.
pub(crate) fn begins(codes: &[u16], start: usize) -> bool
    ensures { result ≡ true → Begins codes.now start }
{
    if start == 0 {
        return true;
    }
    if start <= codes.len() {
        codes[start - 1] == 0
    } else {
        false
    }
}

// Where the clauses begin that the index lists for the code c.
pub(crate) fn list_of(index: &[u16], c: usize) -> &[u16]
    requires { (length index.now ≡ index_size) × (c ≤ last_code) }
    ensures { (codes : List ℕ) → Starts codes index.now (get_or index.now c 0) (get_or index.now (code_count + c) 0)
        → Starts codes result.now 0 (length result.now) }
{
    let end = usize::from(index[index::CODES + c]).min(index.len());
    let begin = usize::from(index[c]).min(end);
    &index[begin..end]
}
