// The trimmed formula of a text, as a text: with the text's names, kinds and V.
// `trim_text` promises, for every text and buffers, the bytes that the definition (specs/TrimmedText.antt) gives; that they are read as the trimmed
// formula, which has the text's verdict, is stated in specs/TrimmedTextRight.antt.
// Reading belongs to `text`, trimming to `trimming`, writing to `writer`, the refusal's line to `report`; here what one returns is handed to the next.
#![tactic(auto)]

ghost use Rattle.std.specs.Prelude.{◌≤◌, ◌≡◌, length, take};
ghost use Rattle.formula.specs.Causes.{checked, number};
ghost use Rattle.report.specs.Report.{put, put_count};
ghost use Rattle.text.specs.Offered.{offered};
ghost use Rattle.trimming_rules.specs.Trimming.{trimmed};
ghost use Rattle.writing.specs.Writing.{written};
ghost use Rattle.writing.specs.WritingRight.{Writable};
ghost use Rattle.trimmed_text.specs.TrimmedText.{Delivered};
ghost use Rattle.trimmed_text.specs.TrimmedTextRight.{TrimmedTextRight};

use formula::Formula;
use text::Taken;

// How many bytes were put into each buffer.
#[derive(Clone, Copy)]
pub struct Counts {
    pub text: usize,
    pub lines: usize,
}

// Room for every text that is written, and for the line of a refusal.
pub const TEXT: usize = writer::LONGEST;

pub const LINES: usize = 32;

// Puts the trimmed text at the start of `out`, or 01's line at the start of `lines` if the text is refused, if they fit.
pub fn trim_text(input: &[u8], length: usize, out: &mut [u8], lines: &mut [u8]) -> Counts
    ensures delivered { Delivered (offered input.now length) out.old lines.old result out.new lines.new }
    ensures proved { TrimmedTextRight (offered input.now length) }
{
    let mut kinds = [0u8; Formula::UNKNOWNS];
    let mut literals = [0i32; Formula::ENTRIES];
    let mut names = [0u16; Formula::UNKNOWNS];
    match text::read_offered(input, length, false, &mut kinds, &mut literals, &mut names) {
        Err(refusal) => {
            let count = report::refusal(lines, refusal.cause.number(), refusal.line as u32);
            Counts {
                text: 0,
                lines: count,
            }
        }
        Ok(
            Taken {
                unknowns,
                entries,
                variables,
                ..
            },
        ) => {
            let count = put_trimmed(
                &kinds[..unknowns],
                &literals[..entries],
                &names[..unknowns],
                variables as u32,
                out,
            );
            Counts {
                text: count,
                lines: 0,
            }
        }
    }
}

// The text of what is left of a formula.
fn put_trimmed(
    kinds: &[u8],
    literals: &[i32],
    names: &[u16],
    variables: u32,
    out: &mut [u8],
) -> usize
    requires { Writable kinds.now literals.now names.now variables }
    ensures value { result ≡ put_count (written kinds.now (trimmed kinds.now literals.now) names.now variables) out.old }
    ensures out_after { out.new ≡ put (written kinds.now (trimmed kinds.now literals.now) names.now variables) out.old }
{
    let mut left = [0i32; Formula::ENTRIES];
    let entries = trim(kinds, literals, &mut left);
    writer::write(kinds, &left[..entries], names, variables, out)
}

// What is left of an accepted formula, at the start of `left`: how many entries.
fn trim(kinds: &[u8], literals: &[i32], left: &mut [i32]) -> usize
    requires { (number (checked kinds.now literals.now) ≡ 0) × (length literals.now ≤ length left.old) }
    ensures upper_bound { result ≤ length left.new }
    ensures left_after { take result left.new ≡ trimmed kinds.now literals.now }
{
    match trimming::trim(kinds, literals, left) {
        Ok(entries) => entries,
        Err(_) => 0,
    }
}
