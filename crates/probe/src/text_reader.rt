// The readers of texts and of gate lists, exported with a number for their answer: 0 for a text that is taken, or 100 plus the number of a refusal.
// What they return besides is reported to five places, 0 where it does not apply.
ghost use Rattle.std.specs.Prelude.{◌≡◌, length};
ghost use Rattle.text.specs.Reading.{read as definition, read_gates as gates_definition};
ghost use Rattle.probe.specs.TextReader.{text_number as number_of, text_told, TextRead};

use text::{Refusal, Taken};

pub fn probe_read_text(
    text: &[u8],
    kinds: &mut [u8],
    literals: &mut [i32],
    names: &mut [u16],
    unknowns: &mut usize,
    entries: &mut usize,
    variables: &mut usize,
    clauses: &mut usize,
    line: &mut usize,
) -> u64
    ensures { TextRead (definition text.now (length kinds.old) (length literals.old) (length names.old)) result unknowns.new entries.new variables.new clauses.new line.new kinds.old literals.old names.old kinds.new literals.new names.new }
{
    let answer = text::read(text, kinds, literals, names);
    let told = told_text(answer);
    *unknowns = told.unknowns;
    *entries = told.entries;
    *variables = told.variables;
    *clauses = told.clauses;
    *line = told.line;
    text_number(answer)
}

pub fn probe_read_gates(
    text: &[u8],
    kinds: &mut [u8],
    literals: &mut [i32],
    names: &mut [u16],
    unknowns: &mut usize,
    entries: &mut usize,
    variables: &mut usize,
    clauses: &mut usize,
    line: &mut usize,
) -> u64
    ensures { TextRead (gates_definition text.now (length kinds.old) (length literals.old) (length names.old)) result unknowns.new entries.new variables.new clauses.new line.new kinds.old literals.old names.old kinds.new literals.new names.new }
{
    let answer = text::read_gates(text, kinds, literals, names);
    let told = told_text(answer);
    *unknowns = told.unknowns;
    *entries = told.entries;
    *variables = told.variables;
    *clauses = told.clauses;
    *line = told.line;
    text_number(answer)
}

// What a reading returns besides its number.
#[derive(Clone, Copy)]
struct Told {
    unknowns: usize,
    entries: usize,
    variables: usize,
    clauses: usize,
    line: usize,
}

fn told_text(answer: Result<Taken, Refusal>) -> Told
    ensures { result ≡ text_told answer }
{
    match answer {
        Ok(text) => Told {
            unknowns: text.unknowns,
            entries: text.entries,
            variables: text.variables,
            clauses: text.clauses,
            line: 0,
        },
        Err(refusal) => Told {
            unknowns: 0,
            entries: 0,
            variables: 0,
            clauses: 0,
            line: refusal.line,
        },
    }
}

fn text_number(answer: Result<Taken, Refusal>) -> u64
    ensures { result ≡ number_of answer }
{
    match answer {
        Ok(_) => 0,
        Err(refusal) => crate::refusal_number(refusal.cause),
    }
}
