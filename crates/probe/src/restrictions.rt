// Unknowns set, exported with a number for the answer: 0 for set, or 100 plus the number of a refusal. The entries used are written behind the last
// reference, 0 after a refusal.
ghost use Rattle.std.specs.Prelude.{◌≡◌};
ghost use Rattle.restriction.specs.Outcome.{outcome, output_after, used as entries_used};
ghost use Rattle.probe.specs.Restrictions.{set_number};

use cause::Cause;

pub fn probe_set_first(
    kinds: &[u8],
    literals: &[i32],
    values: &[u8],
    output: &mut [i32],
    used: &mut usize,
) -> u64
    ensures value { result ≡ set_number (outcome kinds.now literals.now values.now output.old) }
    ensures output_after { output.new ≡ output_after kinds.now literals.now values.now output.old }
    ensures used_after { used.new ≡ entries_used (outcome kinds.now literals.now values.now output.old) }
{
    let end = restriction::set_first(kinds, literals, values, output);
    *used = set_entries(end);
    number_of(end)
}

fn number_of(answer: Result<usize, Cause>) -> u64
    ensures { result ≡ set_number answer }
{
    match answer {
        Ok(_) => 0,
        Err(cause) => crate::refusal_number(cause),
    }
}

fn set_entries(answer: Result<usize, Cause>) -> usize
    ensures { result ≡ entries_used answer }
{
    match answer {
        Ok(used) => used,
        Err(_) => 0,
    }
}
