// The reply over a text, a witness file and moves, as a line. `print` promises, for every text, file and moves, the bytes that the definition gives
// (specs/Answer.antt). Reading belongs to `text` and `witness`, the reply to `reply`; here what one returns is handed to the next. The sizes in the file
// are not compared with the formula's: each reply is judged on the formula that is read.
#![tactic(auto)]

ghost use Rattle.std.specs.Prelude.{◌≡◌, false};
ghost use Rattle.report.specs.Report.{put, put_count};
ghost use Rattle.text.specs.Reading.{read_as};
ghost use Rattle.text.specs.Offered.{offered};
ghost use Rattle.reply_answer.specs.Answer.{on_claim, on_record, on_formula, on_text, value_line, line_of, printed as line};

use formula::Formula;
use reply::Next;
use text::Taken;
use witness::Record;

// A refusal has its number and the text's line, 0 for the causes of the file, the rows and the moves.
#[derive(Clone, Copy)]
pub enum Answer {
    Replied(bool),
    OthersTurn,
    Done,
    NotBorneOut,
    Refused { number: u32, line: u32 },
}

// Room for every line.
pub const LONGEST: usize = 64;

// Puts the line at the start of `out`, if it fits: how many bytes it is. A buffer of `LONGEST` bytes is long enough for all. The moves are one byte
// each in prefix order, 0 false and 1 true.
pub fn print(input: &[u8], length: usize, file: &[u8], moves: &[u8], out: &mut [u8]) -> usize
    ensures counted { result ≡ put_count (line (offered input.now length) file.now moves.now) out.old }
    ensures written { out.new ≡ put (line (offered input.now length) file.now moves.now) out.old }
{
    let answer = find(input, length, file, moves);
    put_line(answer, out)
}

// The line of an answer.
fn put_line(answer: Answer, out: &mut [u8]) -> usize
    ensures value { result ≡ put_count (line_of answer) out.old }
    ensures out_after { out.new ≡ put (line_of answer) out.old }
{
    match answer {
        Answer::Replied(value) => put_value(value, out),
        Answer::OthersTurn => buffer::append(out, 0, b"others\n"),
        Answer::Done => buffer::append(out, 0, b"done\n"),
        Answer::NotBorneOut => buffer::append(out, 0, b"not borne out\n"),
        Answer::Refused { number, line } => report::refusal(out, number, line),
    }
}

// The line of a value.
fn put_value(value: bool, out: &mut [u8]) -> usize
    ensures value { result ≡ put_count (value_line value) out.old }
    ensures out_after { out.new ≡ put (value_line value) out.old }
{
    if value {
        return buffer::append(out, 0, b"1\n");
    }
    buffer::append(out, 0, b"0\n")
}

// The answer to a text, a file and moves.
fn find(input: &[u8], length: usize, file: &[u8], moves: &[u8]) -> Answer
    ensures { result ≡ on_text (read_as false (offered input.now length)) file.now moves.now }
{
    let mut kinds = [0u8; Formula::UNKNOWNS];
    let mut literals = [0i32; Formula::ENTRIES];
    let mut names = [0u16; Formula::UNKNOWNS];
    match text::read_offered(input, length, false, &mut kinds, &mut literals, &mut names) {
        Err(refusal) => Answer::Refused {
            number: refusal.cause.number(),
            line: refusal.line as u32,
        },
        Ok(
            Taken {
                unknowns,
                entries,
                ..
            },
        ) => on_formula(&kinds[..unknowns], &literals[..entries], file, moves),
    }
}

// The file over a formula.
fn on_formula(kinds: &[u8], literals: &[i32], file: &[u8], moves: &[u8]) -> Answer
    ensures { result ≡ on_formula kinds.now literals.now file.now moves.now }
{
    match witness::read(file) {
        Ok(record) => on_record(kinds, literals, file, record, moves),
        Err(cause) => Answer::Refused {
            number: cause.number(),
            line: 0,
        },
    }
}

// A file that is read: without a claim there is nobody to reply.
fn on_record(kinds: &[u8], literals: &[i32], file: &[u8], record: Record, moves: &[u8]) -> Answer
    ensures { result ≡ on_record kinds.now literals.now file.now moves.now «record» }
{
    if record.map % 2 != 1 {
        return Answer::Refused { number: 7, line: 0 };
    }
    let claim = record.claim;
    on_claim(kinds, literals, file, claim, moves)
}

// The claim and the rows of its side.
fn on_claim(kinds: &[u8], literals: &[i32], file: &[u8], claim: u8, moves: &[u8]) -> Answer
    ensures { result ≡ on_claim kinds.now literals.now file.now moves.now claim }
{
    let rows = witness::rows(file, claim == 0);
    match reply::next_move(kinds, literals, claim, rows, rows.len() / 16, moves) {
        Ok(Next::Value(value)) => Answer::Replied(value),
        Ok(Next::OthersTurn) => Answer::OthersTurn,
        Ok(Next::Done) => Answer::Done,
        Ok(Next::NotBorneOut) => Answer::NotBorneOut,
        Err(cause) => Answer::Refused {
            number: cause.number(),
            line: 0,
        },
    }
}
