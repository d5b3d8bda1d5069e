// What the tests call of `probe::restrictions` from outside.
ghost use Rattle.std.specs.Prelude.{◌≡◌};
ghost use Rattle.restriction.specs.Outcome.{outcome, output_after, used as entries_used};
ghost use Rattle.probe.specs.Restrictions.{set_number};

#[unsafe(no_mangle)]
pub extern "C" fn probe_set_first(
    kinds: &[u8],
    literals: &[i32],
    values: &[u8],
    output: &mut [i32],
    used: &mut usize,
) -> u64
    ensures value { result ≡ set_number (outcome kinds.now literals.now values.now output.old) }
    ensures output_after { output.new ≡ output_after kinds.now literals.now values.now output.old }
    ensures used_after { used.new ≡ entries_used (outcome kinds.now literals.now values.now output.old) }
{
    probe::restrictions::probe_set_first(kinds, literals, values, output, used)
}
