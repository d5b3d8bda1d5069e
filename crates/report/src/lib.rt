// The lines that the programs print, as bytes in a lent buffer: two for a result, three for a study's, one for a refusal, one for a study's record, four
// for a season's page. Each writer promises, for all
// numbers and buffers, the definition's bytes at the start of the buffer, the bytes past them as found, and how many were written; a
// buffer that is too short is left as found.
#![tactic(auto)]

ghost use Rattle.std.specs.Prelude.{◌≡◌, ◌++◌, ◌+◌, ◌≤◌, length, take, drop};
ghost use Rattle.report.specs.Report.{ascii, decimal, truth as Report·truth, line_one, line_two, result_lines, pair_line, refusal_line, put, put_count};
ghost use Rattle.report.specs.Studied.{setting_line, study_lines};
ghost use Rattle.report.specs.Record.{record_line};
ghost use Rattle.report.specs.Page.{answers_line, most_line, page_lines};

// The two lines of a result: the answer's number and the text's V and C, then the rounds and the counts of A and S.
pub fn result(
    out: &mut [u8],
    answer: u32,
    variables: u32,
    clauses: u32,
    rounds: u32,
    universal: u32,
    existential: u32,
) -> usize
    ensures value { result ≡ put_count (result_lines answer variables clauses rounds universal existential) out.old }
    ensures out_after { out.new ≡ put (result_lines answer variables clauses rounds universal existential) out.old }
{
    let mut text = [0u8; 160];
    let one = line_one(&mut text, answer, variables, clauses);
    let two = line_two(&mut text, one, rounds, universal, existential);
    deliver(out, &text[..two])
}

// The three lines of a study's result: the setting stands between the two lines of its run.
pub fn study_result(
    out: &mut [u8],
    answer: u32,
    variables: u32,
    clauses: u32,
    setting: u32,
    rounds: u32,
    universal: u32,
    existential: u32,
) -> usize
    ensures value { result ≡ put_count (study_lines answer variables clauses setting rounds universal existential) out.old }
    ensures out_after { out.new ≡ put (study_lines answer variables clauses setting rounds universal existential) out.old }
{
    let mut text = [0u8; 192];
    let one = line_one(&mut text, answer, variables, clauses);
    let two = line_setting(&mut text, one, setting);
    let three = line_two(&mut text, two, rounds, universal, existential);
    deliver(out, &text[..three])
}

// The line of a refusal: its number and the text's line.
pub fn refusal(out: &mut [u8], number: u32, line: u32) -> usize
    ensures value { result ≡ put_count (refusal_line number line) out.old }
    ensures out_after { out.new ≡ put (refusal_line number line) out.old }
{
    let mut text = [0u8; 64];
    let end = pair(&mut text, 0, b"c refused ", number as u64, line as u64);
    deliver(out, &text[..end])
}

// The record of a study, which a season's sheet reads: the answer's number, the rounds and the fee.
pub fn study_record(out: &mut [u8], answer: u32, rounds: u32, cents: u64) -> usize
    ensures value { result ≡ put_count (record_line answer rounds cents) out.old }
    ensures out_after { out.new ≡ put (record_line answer rounds cents) out.old }
{
    let mut text = [0u8; 64];
    let next = field(&mut text, 0, b"", answer as u64);
    let end = pair(&mut text, next, b" ", rounds as u64, cents);
    deliver(out, &text[..end])
}

// The four lines of a season's page: the studies by answer, the sum of rounds and the studies, the most rounds and the first study that
// has them, the sum of fees.
pub fn page(
    out: &mut [u8],
    answer_0: u32,
    answer_1: u32,
    answer_2: u32,
    answer_3: u32,
    answer_4: u32,
    rounds: u64,
    studies: u32,
    most: u32,
    first: u32,
    fees: u64,
) -> usize
    ensures value { result ≡ put_count (page_lines answer_0 answer_1 answer_2 answer_3 answer_4 rounds studies most first fees) out.old }
    ensures out_after { out.new ≡ put (page_lines answer_0 answer_1 answer_2 answer_3 answer_4 rounds studies most first fees) out.old }
{
    let mut text = [0u8; 256];
    let a = answers(&mut text, answer_0, answer_1, answer_2, answer_3, answer_4);
    let b = pair(&mut text, a, b"rounds ", rounds, studies as u64);
    let c = most_rounds(&mut text, b, studies, most, first);
    let d = field(&mut text, c, b"fees ", fees);
    let end = append(&mut text, d, b"\n");
    deliver(out, &text[..end])
}

// The studies by answer at the start of `text`: how many bytes they take, never over 113.
fn answers(
    text: &mut [u8],
    answer_0: u32,
    answer_1: u32,
    answer_2: u32,
    answer_3: u32,
    answer_4: u32,
) -> usize
    requires { 113 ≤ length text.old }
    ensures upper_bound { result ≤ 113 }
    ensures text_after { take result text.new ≡ answers_line answer_0 answer_1 answer_2 answer_3 answer_4 }
{
    let a = field(text, 0, b"answers ", answer_0 as u64);
    let b = field(text, a, b" ", answer_1 as u64);
    let c = field(text, b, b" ", answer_2 as u64);
    let d = field(text, c, b" ", answer_3 as u64);
    let e = field(text, d, b" ", answer_4 as u64);
    append(text, e, b"\n")
}

// The most rounds, never over 47 bytes, behind the first `at` bytes.
fn most_rounds(text: &mut [u8], at: usize, studies: u32, most: u32, first: u32) -> usize
    requires { at + 47 ≤ length text.old }
    ensures upper_bound { result ≤ at + 47 }
    ensures text_after { take result text.new ≡ take at text.old ++ most_line studies most first }
{
    if studies == 0 {
        return append(text, at, b"most none\n");
    }
    pair(text, at, b"most ", most as u64, first as u64)
}

// Line one at the start of `text`: how many bytes it takes, never over 64.
fn line_one(text: &mut [u8], answer: u32, variables: u32, clauses: u32) -> usize
    requires { 64 ≤ length text.old }
    ensures upper_bound { result ≤ 64 }
    ensures text_after { take result text.new ≡ line_one answer variables clauses }
{
    let a = append(text, 0, b"s cnf ");
    let b = truth(text, a, answer);
    let c = field(text, b, b" ", variables as u64);
    let d = field(text, c, b" ", clauses as u64);
    append(text, d, b"\n")
}

// Line two, never over 96 bytes, behind the first `at` bytes of `text`: how many stand there then.
fn line_two(text: &mut [u8], at: usize, rounds: u32, universal: u32, existential: u32) -> usize
    requires { at + 96 ≤ length text.old }
    ensures upper_bound { result ≤ at + 96 }
    ensures text_after { take result text.new ≡ take at text.old ++ line_two rounds universal existential }
{
    let a = field(text, at, b"c rounds ", rounds as u64);
    let b = field(text, a, b" universal ", universal as u64);
    let c = field(text, b, b" existential ", existential as u64);
    append(text, c, b"\n")
}

// The line of a setting, never over 31 bytes, behind the first `at` bytes.
fn line_setting(text: &mut [u8], at: usize, setting: u32) -> usize
    requires { at + 31 ≤ length text.old }
    ensures upper_bound { result ≤ at + 31 }
    ensures text_after { take result text.new ≡ take at text.old ++ setting_line setting }
{
    let a = field(text, at, b"c setting ", setting as u64);
    append(text, a, b"\n")
}

// T behind the first `at` bytes.
fn truth(text: &mut [u8], at: usize, answer: u32) -> usize
    requires { at + 2 ≤ length text.old }
    ensures upper_bound { result ≤ at + 2 }
    ensures text_after { take result text.new ≡ take at text.old ++ ascii (Report·truth answer) }
{
    if answer == 0 {
        return append(text, at, b"0");
    }
    if answer == 1 {
        return append(text, at, b"1");
    }
    append(text, at, b"-1")
}

// A label and two numbers, with an LF, behind the first `at` bytes.
fn pair(text: &mut [u8], at: usize, label: &[u8], first: u64, second: u64) -> usize
    requires { at + length label.now + 42 ≤ length text.old }
    ensures upper_bound { result ≤ at + length label.now + 42 }
    ensures text_after { take result text.new ≡ take at text.old ++ pair_line label.now first second }
{
    let a = field(text, at, label, first);
    let b = field(text, a, b" ", second);
    append(text, b, b"\n")
}

// A label and a number in decimal, never over twenty digits, behind the first `at` bytes.
fn field(text: &mut [u8], at: usize, label: &[u8], number: u64) -> usize
    requires { at + length label.now + 20 ≤ length text.old }
    ensures upper_bound { result ≤ at + length label.now + 20 }
    ensures text_after { take result text.new ≡ take at text.old ++ label.now ++ decimal number }
{
    let mut digits = [0u8; 20];
    let count = io::decimal(number, &mut digits);
    let next = append(text, at, label);
    append(text, next, &digits[..count])
}

// The text at the start of `out` if it fits, else nothing.
fn deliver(out: &mut [u8], text: &[u8]) -> usize
    ensures value { result ≡ put_count text.now out.old }
    ensures out_after { out.new ≡ put text.now out.old }
{
    if out.len() < text.len() {
        return 0;
    }
    append(out, 0, text)
}

// All of `part` into `out` from `at` on, where it fits: the place behind it.
fn append(out: &mut [u8], at: usize, part: &[u8]) -> usize
    requires { at + length part.now ≤ length out.old }
    ensures value { result ≡ at + length part.now }
    ensures out_after { out.new ≡ take at out.old ++ part.now ++ drop result out.old }
    ensures out_after_2 { take result out.new ≡ take at out.old ++ part.now }
{
    buffer::append(out, at, part)
}
