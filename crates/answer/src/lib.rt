// The programs' answers (01, 'Text', and the same for gate lists): from a text's bytes to the printed ones.
// `answer_within` and `answer_gates_within` promise, for every text in an area that becomes the run's work area and every buffer, the bytes that the
// definition (specs/Printed.antt) gives, what they say of the formula, or of the circuit, and every byte of the area at exit (specs/Within.antt).
// Reading belongs to `text`, the run to `decision`, the lines to `report`; here what one returns is handed to the next.
#![tactic(auto)]

ghost use Rattle.std.specs.Prelude.{◌≡◌, length, replicate, Ok};
ghost use Rattle.formula.specs.Formula.{work_size};
ghost use Rattle.formula.specs.Causes.{checked, sizes};
ghost use Rattle.text.specs.Reading.{text_read, gates_read, read_as};
ghost use Rattle.text.specs.Offered.{offered};
ghost use Rattle.answer.specs.Printed.{result_of, printed, gates_printed, printed_as};
ghost use Rattle.answer.specs.Within.{printed_in, area_after, Puts};
ghost use Rattle.answer.specs.Private.Steps.{ReadUsable, lines_of, work_after};
ghost use Rattle.answer.specs.AnswerRight.{AnswerRight};
ghost use Rattle.answer.specs.GatesAnswerRight.{GatesAnswerRight};

use formula::Formula;
use text::{Refusal, Taken};

// Room for every answer.
pub const LONGEST: usize = 128;

const ROUNDS: u32 = 1_000;

// 01's number for a text over 65,536 bytes.
const TOO_LONG: u32 = 9;

// Puts the lines of the text `area[..length]` at the start of `out`, if they fit: how many bytes they are. A buffer of `LONGEST` bytes is long enough for
// every text. A text that is longer than the area is refused, and not cut. Once the text is read, the area is the run's work area: a text that is taken
// leaves it zero. An area shorter than a work area is left as found, and nothing is put.
pub fn answer_within(area: &mut [u8], length: usize, out: &mut [u8]) -> usize
    ensures puts { Puts (printed_in area.old (printed (offered area.old length))) (area_after (text_read (offered area.old length)) area.old) out.old result out.new area.new }
    ensures proved { AnswerRight (offered area.old length) }
{
    within_as(area, length, false, out)
}

// The same for a gate list.
pub fn answer_gates_within(area: &mut [u8], length: usize, out: &mut [u8]) -> usize
    ensures puts { Puts (printed_in area.old (gates_printed (offered area.old length))) (area_after (gates_read (offered area.old length)) area.old) out.old result out.new area.new }
    ensures proved { GatesAnswerRight (offered area.old length) }
{
    within_as(area, length, true, out)
}

// The lines of a text of clauses or of gates.
fn within_as(area: &mut [u8], length: usize, gates: bool, out: &mut [u8]) -> usize
    ensures { Puts (printed_in area.old (printed_as gates (offered area.old length))) (area_after (read_as gates (offered area.old length)) area.old) out.old result out.new area.new }
{
    if area.len() < Formula::WORK {
        return 0;
    }
    if area.len() < length {
        return report::refusal(out, TOO_LONG, 0);
    }
    let mut kinds = [0u8; Formula::UNKNOWNS];
    let mut literals = [0i32; Formula::ENTRIES];
    let mut names = [0u16; Formula::UNKNOWNS];
    let reading = text::read_as(
        &area[..length],
        gates,
        &mut kinds,
        &mut literals,
        &mut names,
    );
    put_lines(reading, &kinds, &literals, &mut area[..Formula::WORK], out)
}

// The lines of what was read; of a formula that was taken, which stands at the front of the tables, over the work area.
fn put_lines(
    reading: Result<Taken, Refusal>,
    kinds: &[u8],
    literals: &[i32],
    work: &mut [u8],
    out: &mut [u8],
) -> usize
    requires { ReadUsable reading kinds.now literals.now × (length work.old ≡ work_size) }
    ensures { Puts (lines_of reading kinds.now literals.now) (work_after reading work.old) out.old result out.new work.new }
{
    match reading {
        Err(refusal) => report::refusal(out, refusal.cause.number(), refusal.line as u32),
        Ok(
            Taken {
                unknowns,
                entries,
                variables,
                clauses,
            },
        ) => decided(
            &kinds[..unknowns],
            &literals[..entries],
            variables as u32,
            clauses as u32,
            work,
            out,
        ),
    }
}

// The lines of a formula that is accepted.
fn decided(
    kinds: &[u8],
    literals: &[i32],
    variables: u32,
    clauses: u32,
    work: &mut [u8],
    out: &mut [u8],
) -> usize
    requires { (checked kinds.now literals.now ≡ Ok (sizes kinds.now literals.now)) × (length work.old ≡ work_size) }
    ensures { Puts (result_of kinds.now literals.now variables clauses) (replicate work_size 0) out.old result out.new work.new }
{
    let end = decision::decide_formula(kinds, literals, work, ROUNDS);
    let answer = end.answer;
    report::result(
        out,
        engine::run::number(answer),
        variables,
        clauses,
        end.round,
        end.universal as u32,
        end.existential as u32,
    )
}
