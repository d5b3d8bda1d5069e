// The judge (a checker): whether lent rows bear out a claim about a formula (01, 'The judge').
// Promised, for all that is lent: accepted exactly if no model over the rows exists, else not borne out, or the first cause that applies.
// An accepted claim is the formula's verdict. The work area is zero after an answer, and as it was after a refusal.
// Looking for a model is left to `search`.
#![tactic(auto)]

ghost use Rattle.std.specs.Prelude.{◌≡◌, cond, length};
ghost use Rattle.judge.specs.Judge.{other_claim, Judged};

use cause::Cause;
use engine::search::Search;

#[derive(Clone, Copy)]
pub enum Judgement {
    NotBorneOut,
    Accepted,
}

// Claim 0 takes universal rows and claim 1 existential ones, so it is the other side that must find no model.
pub fn judge(
    kinds: &[u8],
    literals: &[i32],
    claim: u8,
    rows: &[u8],
    count: usize,
    work: &mut [u8],
) -> Result<Judgement, Cause>
    ensures { Judged kinds.now literals.now claim rows.now count work.old result work.new }
{
    let lent = counted(rows, claim, count);
    match engine::search::first_model(kinds, literals, b"", rows, lent, claim == 1, work)? {
        Search::Found => {
            rows::clear(work);
            Ok(Judgement::NotBorneOut)
        }
        Search::NoModel => Ok(Judgement::Accepted),
    }
}

// The count, or for a claim that is neither 0 nor 1 one that the search refuses with the same cause, `Count`.
fn counted(rows: &[u8], claim: u8, count: usize) -> usize
    ensures { result ≡ cond (other_claim claim) (length rows.now) count }
{
    if claim > 1 { rows.len() } else { count }
}
