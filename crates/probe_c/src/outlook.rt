// What the tests call of `probe::outlook` from outside.
ghost use Rattle.std.specs.Prelude.{◌≡◌};
ghost use Rattle.forecast.specs.Outcome.{given, outcome, universal_copies, existential_copies};
ghost use Rattle.probe.specs.Outlook.{outlook_number};

#[unsafe(no_mangle)]
pub extern "C" fn probe_forecast(
    kinds: &[u8],
    literals: &[i32],
    universal_rows: &[u8],
    existential_rows: &[u8],
    universal: usize,
    existential: usize,
    over_universal: &mut usize,
    over_existential: &mut usize,
) -> u64
    ensures value { result ≡ outlook_number (outcome (given kinds.now literals.now universal_rows.now universal existential_rows.now existential)) }
    ensures over_universal_after { over_universal.new ≡ universal_copies
        (outcome (given kinds.now literals.now universal_rows.now universal existential_rows.now existential)) }
    ensures over_existential_after { over_existential.new ≡ existential_copies
        (outcome (given kinds.now literals.now universal_rows.now universal existential_rows.now existential)) }
{
    probe::outlook::probe_forecast(
        kinds,
        literals,
        universal_rows,
        existential_rows,
        universal,
        existential,
        over_universal,
        over_existential,
    )
}
