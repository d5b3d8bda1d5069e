// The readers of texts after QDIMACS 1.1, narrowed as in 'Text', and of gate lists: from a text's bytes to kinds, literals and names, with causes 9 to
// 12, 14, 19 and 20. `read` and `read_gates` promise, for every input, the outcome and every entry of the three lent tables; `read` that names bound
// nowhere are existential in front of everything, `read_gates` that the verdict of what it writes is the circuit's value under the prefix.
// They are one reader, `read_as`, which is told the form of the text; `read_form` is it over the front of a buffer, and finds the form out by the p line
// if it is to. What a formula means is left to others.
#![tactic(auto)]

ghost use Rattle.std.specs.Prelude.{length, ◌≡◌};
ghost use Rattle.cause.specs.Cause.{number as cause_number};
ghost use Rattle.named.specs.Names.{In};
ghost use Rattle.text.specs.Reading.{read as definition, read_gates as gates_definition, scan, result_of, ReadSo, text_causes, gates_causes};
ghost use Rattle.text.specs.Offered.{offered};
ghost use Rattle.text.specs.CausesRight.{CausesRight};
ghost use Rattle.text.specs.ClosedRight.{ClosedRight};
ghost use Rattle.text.specs.GatesRight.{GatesRight};
ghost use Rattle.text.specs.Form.{has_gates, form_told};
ghost use Rattle.text.specs.FormRight.{FormRight};

use cause::Cause;
use formula::Formula;

// The most bytes of a text.
pub const BYTES: usize = 65_536;

mod body;
mod gate;
mod names;
mod opening;

// The form of a text: clauses, gates, or the one that its p line tells.
#[derive(Clone, Copy)]
pub enum Form {
    Clauses,
    Gates,
    Either,
}

// The form that a byte in front of a program's input tells: 0 clauses, 1 gates, any other the one that the p line tells.
pub fn form_told(byte: u8) -> Form
    ensures { result ≡ form_told byte }
{
    if byte == 0 {
        return Form::Clauses;
    }
    if byte == 1 {
        return Form::Gates;
    }
    Form::Either
}

// What a text gives that is taken: the unknowns, the entries of the literals, V and C.
#[derive(Clone, Copy, Debug, PartialEq, Eq)]
pub struct Taken {
    pub unknowns: usize,
    pub entries: usize,
    pub variables: usize,
    pub clauses: usize,
}

// Why a text is refused, and at which line.
#[derive(Clone, Copy, Debug, PartialEq, Eq)]
pub struct Refusal {
    pub cause: Cause,
    pub line: usize,
}

// Reads the text. The tables are written only if all of it is taken.
pub fn read(
    text: &[u8],
    kinds: &mut [u8],
    literals: &mut [i32],
    names: &mut [u16],
) -> Result<Taken, Refusal>
    ensures written { ReadSo (definition text.now (length kinds.old) (length literals.old) (length names.old)) result kinds.old literals.old names.old kinds.new literals.new names.new }
    ensures proved { ClosedRight text.now }
    ensures causes { CausesRight text_causes result }
{
    read_as(text, false, kinds, literals, names)
}

// Reads a gate list, and writes its clauses. The tables are written only if all of it is taken.
pub fn read_gates(
    text: &[u8],
    kinds: &mut [u8],
    literals: &mut [i32],
    names: &mut [u16],
) -> Result<Taken, Refusal>
    ensures written { ReadSo (gates_definition text.now (length kinds.old) (length literals.old) (length names.old)) result kinds.old literals.old names.old kinds.new literals.new names.new }
    ensures proved { GatesRight text.now }
    ensures causes { CausesRight gates_causes result }
{
    read_as(text, true, kinds, literals, names)
}

// Reads a text of that form, of `count` bytes at the front of the buffer. One that is longer than the buffer is refused, and not cut.
pub fn read_form(
    buffer: &[u8],
    count: usize,
    form: Form,
    kinds: &mut [u8],
    literals: &mut [i32],
    names: &mut [u16],
) -> Result<Taken, Refusal>
    ensures written { ReadSo (result_of (scan (has_gates form (offered buffer.now count)) (offered buffer.now count) (length kinds.old) (length literals.old) (length names.old))) result kinds.old literals.old names.old kinds.new literals.new names.new }
    ensures proved { FormRight (offered buffer.now count) }
{
    if buffer.len() < count {
        return Err(Refusal {
            cause: Cause::TooLong,
            line: 0,
        });
    }
    let gates = has_gates(&buffer[..count], form);
    read_as(&buffer[..count], gates, kinds, literals, names)
}

// Whether a text is read as a gate list.
fn has_gates(text: &[u8], form: Form) -> bool
    ensures { result ≡ has_gates form text.now }
{
    match form {
        Form::Clauses => false,
        Form::Gates => true,
        Form::Either => opening::begins_gates(text),
    }
}

// Reads a text of clauses, or of gates if so told, of `count` bytes at the front of the buffer. One that is longer than the buffer is refused, and not cut.
pub fn read_offered(
    buffer: &[u8],
    count: usize,
    gates: bool,
    kinds: &mut [u8],
    literals: &mut [i32],
    names: &mut [u16],
) -> Result<Taken, Refusal>
    ensures written { ReadSo (result_of (scan gates (offered buffer.now count) (length kinds.old) (length literals.old) (length names.old))) result kinds.old literals.old names.old kinds.new literals.new names.new }
{
    if buffer.len() < count {
        return Err(Refusal {
            cause: Cause::TooLong,
            line: 0,
        });
    }
    read_as(&buffer[..count], gates, kinds, literals, names)
}

// Reads a text of clauses, or of gates if so told.
pub fn read_as(
    text: &[u8],
    gates: bool,
    kinds: &mut [u8],
    literals: &mut [i32],
    names: &mut [u16],
) -> Result<Taken, Refusal>
    ensures written { ReadSo (result_of (scan gates text.now (length kinds.old) (length literals.old) (length names.old))) result kinds.old literals.old names.old kinds.new literals.new names.new }
{
    let o = opening::read_opening(text, gates, kinds.len(), literals.len(), names.len())?;
    let mut own_kinds = [0u8; Formula::UNKNOWNS];
    let mut own_literals = [0i32; Formula::ENTRIES];
    let mut own_names = [0u16; Formula::UNKNOWNS];
    let c = body::read_lines(
        text,
        gates,
        o,
        &mut own_kinds,
        &mut own_literals,
        &mut own_names,
    );
    if c.cause != 0 {
        return Err(Refusal {
            cause: caused(c.cause),
            line: c.line,
        });
    }
    text_closing::close(
        c.bound,
        c.free,
        c.entries,
        &own_kinds,
        &own_literals,
        &own_names,
        kinds,
        literals,
        names,
    );
    Ok(Taken {
        unknowns: c.free + c.bound,
        entries: c.entries,
        variables: c.variables,
        clauses: c.clauses,
    })
}

// The cause of a number with which a text or a gate list is refused.
fn caused(number: u32) -> Cause
    requires { In number gates_causes }
    ensures { cause_number result ≡ number }
{
    match number {
        9 => Cause::TooLong,
        10 => Cause::Shape,
        11 => Cause::Range,
        12 => Cause::BoundTwice,
        14 => Cause::Sizes,
        19 => Cause::Input,
        _ => Cause::GateTwice,
    }
}
