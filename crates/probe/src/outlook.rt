// What the coming round will need, exported with a number for the answer: 1 for rows that fit, 0 for rows that may not, or 100 plus the number of a
// refusal. The copies are told behind the last references.
ghost use Rattle.std.specs.Prelude.{◌≡◌};
ghost use Rattle.forecast.specs.Outcome.{given, outcome, universal_copies, existential_copies};
ghost use Rattle.probe.specs.Numbers.{value_number};
ghost use Rattle.probe.specs.Outlook.{outlook_number};

use cause::Cause;
use forecast::Outlook;

pub fn probe_forecast(
    kinds: &[u8],
    literals: &[i32],
    universal_rows: &[u8],
    existential_rows: &[u8],
    universal: usize,
    existential: usize,
    over_universal: &mut usize,
    over_existential: &mut usize,
) -> u64
    ensures value { result ≡ outlook_number (outcome (given kinds.now literals.now universal_rows.now universal existential_rows.now existential)) }
    ensures over_universal_after { over_universal.new ≡ universal_copies (outcome (given kinds.now literals.now universal_rows.now universal existential_rows.now existential)) }
    ensures over_existential_after { over_existential.new ≡ existential_copies (outcome (given kinds.now literals.now universal_rows.now universal existential_rows.now existential)) }
{
    let answer = forecast::forecast(
        kinds,
        literals,
        universal_rows,
        universal,
        existential_rows,
        existential,
    );
    *over_universal = copies_over_universal(answer);
    *over_existential = copies_over_existential(answer);
    told_number(answer)
}

fn copies_over_universal(answer: Result<Outlook, Cause>) -> usize
    ensures { result ≡ universal_copies answer }
{
    match answer {
        Ok(outlook) => outlook.over_universal,
        Err(_) => 0,
    }
}

fn copies_over_existential(answer: Result<Outlook, Cause>) -> usize
    ensures { result ≡ existential_copies answer }
{
    match answer {
        Ok(outlook) => outlook.over_existential,
        Err(_) => 0,
    }
}

fn told_number(answer: Result<Outlook, Cause>) -> u64
    ensures { result ≡ outlook_number answer }
{
    match answer {
        Ok(outlook) => fit_number(outlook.fits),
        Err(cause) => crate::refusal_number(cause),
    }
}

fn fit_number(fits: bool) -> u64
    ensures { result ≡ value_number fits }
{
    if fits { 1 } else { 0 }
}
