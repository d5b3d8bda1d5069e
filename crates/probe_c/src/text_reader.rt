// What the tests call of `probe::text_reader` from outside.
ghost use Rattle.std.specs.Prelude.{length};
ghost use Rattle.text.specs.Reading.{read as definition, read_gates as gates_definition};
ghost use Rattle.probe.specs.TextReader.{TextRead};

#[unsafe(no_mangle)]
pub extern "C" fn probe_read_text(
    text: &[u8],
    kinds: &mut [u8],
    literals: &mut [i32],
    names: &mut [u16],
    unknowns: &mut usize,
    entries: &mut usize,
    variables: &mut usize,
    clauses: &mut usize,
    line: &mut usize,
) -> u64
    ensures { TextRead (definition text.now (length kinds.old) (length literals.old) (length names.old)) result unknowns.new entries.new
        variables.new clauses.new line.new kinds.old literals.old names.old kinds.new literals.new names.new }
{
    probe::text_reader::probe_read_text(
        text, kinds, literals, names, unknowns, entries, variables, clauses, line,
    )
}

#[unsafe(no_mangle)]
pub extern "C" fn probe_read_gates(
    text: &[u8],
    kinds: &mut [u8],
    literals: &mut [i32],
    names: &mut [u16],
    unknowns: &mut usize,
    entries: &mut usize,
    variables: &mut usize,
    clauses: &mut usize,
    line: &mut usize,
) -> u64
    ensures { TextRead (gates_definition text.now (length kinds.old) (length literals.old) (length names.old)) result unknowns.new entries.new
        variables.new clauses.new line.new kinds.old literals.old names.old kinds.new literals.new names.new }
{
    probe::text_reader::probe_read_gates(
        text, kinds, literals, names, unknowns, entries, variables, clauses, line,
    )
}
