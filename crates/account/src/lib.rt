// The account of a decision: from a text's bytes, or a gate list's, to lines that say all that the run found. 01's two lines, the answer's number, the
// prefix as it was read, 02's opening, and each row of both tables with the round that it came in and how often it came back.
// `account` and `account_of_gates` promise, for every input and buffer, the bytes that the definition (specs/Account.antt) gives; what the lines say of the
// formula is stated in specs/AccountRight.antt.
// Reading belongs to `text`, the run to `run`, 01's lines to `report`; here what one returns is handed to the next, and the other lines are written.
#![tactic(auto)]

ghost use Rattle.std.specs.Prelude.{◌+◌, ◌*◌, ◌≤◌, ◌≡◌, ◌++◌, map, length, take, Ok};
ghost use Rattle.rows.specs.Row.{row_of};
ghost use Rattle.rows.specs.Table.{row_at, rows_of};
ghost use Rattle.engine.specs.Outcome.{number_of};
ghost use Rattle.formula.specs.Formula.{max_unknowns, max_rows, universal, prefix};
ghost use Rattle.formula.specs.Causes.{count, checked, sizes};
ghost use Rattle.report.specs.Report.{decimal};
ghost use Rattle.text.specs.Reading.{read_as};
ghost use Rattle.text.specs.Offered.{offered};
ghost use Rattle.account.specs.Account.{each, digit, name_line, prefix_line, value_line, row_line, row_lines, head_lines, lines, facts, shown, account as account_lines, account_of_gates, Delivered};
ghost use Rattle.account.specs.AccountRight.{AccountRight, GatesAccountRight};
ghost use Rattle.account.specs.Private.Steps.{joined, told, Tables, Accepts, Side};

use engine::run::Outcome;
use formula::Formula;
use text::Taken;

// Room for every account.
pub const LONGEST: usize = 106_496;

const ROUNDS: u32 = 1_000;

// Puts the lines of a text at the start of `out`, if they fit: how many bytes they are. A buffer of `LONGEST` bytes is long enough for every text.
pub fn account(input: &[u8], length: usize, out: &mut [u8]) -> usize
    ensures delivered { Delivered (account_lines (offered input.now length)) out.old result out.new }
    ensures proved { AccountRight (offered input.now length) }
{
    account_as(input, length, false, out)
}

// The same of a gate list.
pub fn account_of_gates(input: &[u8], length: usize, out: &mut [u8]) -> usize
    ensures delivered { Delivered (account_of_gates (offered input.now length)) out.old result out.new }
    ensures proved { GatesAccountRight (offered input.now length) }
{
    account_as(input, length, true, out)
}

// The lines of a text of clauses or of gates.
fn account_as(input: &[u8], length: usize, gates: bool, out: &mut [u8]) -> usize
    ensures { Delivered (shown (read_as gates (offered input.now length))) out.old result out.new }
{
    let mut kinds = [0u8; Formula::UNKNOWNS];
    let mut literals = [0i32; Formula::ENTRIES];
    let mut names = [0u16; Formula::UNKNOWNS];
    match text::read_offered(input, length, gates, &mut kinds, &mut literals, &mut names) {
        Err(refusal) => report::refusal(out, refusal.cause.number(), refusal.line as u32),
        Ok(
            Taken {
                unknowns,
                entries,
                variables,
                clauses,
            },
        ) => decided(
            &kinds[..unknowns],
            &literals[..entries],
            &names[..unknowns],
            variables as u32,
            clauses as u32,
            out,
        ),
    }
}

// A formula that is accepted.
fn decided(
    kinds: &[u8],
    literals: &[i32],
    names: &[u16],
    variables: u32,
    clauses: u32,
    out: &mut [u8],
) -> usize
    requires { Accepts kinds.now literals.now names.now }
    ensures { Delivered (lines (facts kinds.now literals.now names.now variables clauses)) out.old result out.new }
{
    let universals = universal_unknowns(kinds, literals);
    let none = [0u8; 0];
    let mut universal = [0u8; 16 * Formula::ROWS];
    let mut universal_marks = [0u16; Formula::ROWS];
    let mut universal_counts = [0u32; Formula::ROWS];
    let mut existential = [0u8; 16 * Formula::ROWS];
    let mut existential_marks = [0u16; Formula::ROWS];
    let mut existential_counts = [0u32; Formula::ROWS];
    let mut work = [0u8; Formula::WORK];
    let end = engine::run::run(
        kinds,
        literals,
        &none,
        &mut universal,
        &mut universal_marks,
        &mut universal_counts,
        &mut existential,
        &mut existential_marks,
        &mut existential_counts,
        &mut work,
        ROUNDS,
        0,
    );
    tell(
        kinds,
        names,
        universals,
        variables,
        clauses,
        end,
        &universal,
        &universal_marks,
        &universal_counts,
        &existential,
        &existential_marks,
        &existential_counts,
        out,
    )
}

// How many unknowns of an accepted formula are universal.
fn universal_unknowns(kinds: &[u8], literals: &[i32]) -> usize
    requires { checked kinds.now literals.now ≡ Ok (sizes kinds.now literals.now) }
    ensures { result ≡ count universal (prefix kinds.now) }
{
    match Formula::check(kinds, literals) {
        Ok(sizes) => sizes.universals,
        Err(_) => 0,
    }
}

// The lines of what a run returned and left.
fn tell(
    kinds: &[u8],
    names: &[u16],
    universals: usize,
    variables: u32,
    clauses: u32,
    end: Outcome,
    universal: &[u8],
    universal_marks: &[u16],
    universal_counts: &[u32],
    existential: &[u8],
    existential_marks: &[u16],
    existential_counts: &[u32],
    out: &mut [u8],
) -> usize
    requires { Tables kinds.now names.now universals end universal.now universal_marks.now universal_counts.now existential.now existential_marks.now existential_counts.now }
    ensures { Delivered (lines (told kinds.now names.now universals variables clauses end universal.now universal_marks.now universal_counts.now existential.now existential_marks.now existential_counts.now)) out.old result out.new }
{
    let mut text = [0u8; LONGEST];
    let u = end.universal;
    let e = end.existential;
    let front = front_lines(&mut text, kinds, names, variables, clauses, end);
    let half = side(
        &mut text,
        front,
        b"universal ",
        universals,
        universal,
        &universal_marks[..u],
        &universal_counts[..u],
    );
    let whole = side(
        &mut text,
        half,
        b"existential ",
        kinds.len() - universals,
        existential,
        &existential_marks[..e],
        &existential_counts[..e],
    );
    buffer::append(out, 0, &text[..whole])
}

// All lines before the rows, at the start of `text`: never over 6,848 bytes.
fn front_lines(
    text: &mut [u8],
    kinds: &[u8],
    names: &[u16],
    variables: u32,
    clauses: u32,
    end: Outcome,
) -> usize
    requires { (length names.now ≡ length kinds.now) × (length kinds.now ≤ max_unknowns) × (end.block ≤ length kinds.now) × (end.universal ≤ max_rows) × (end.existential ≤ max_rows) × (6848 ≤ length text.old) }
    ensures upper_bound { result ≤ 6848 }
    ensures text_after { take result text.new ≡ head_lines (number_of end.answer) variables clauses end.round end.universal end.existential ++ each prefix_line kinds.now names.now ++ each value_line (row_of end.block (row_at end.opening 0)) names.now }
{
    let answer = end.answer;
    let number = engine::run::number(answer);
    let row = end.opening;
    let head = results(
        text,
        number,
        variables,
        clauses,
        end.round,
        end.universal as u32,
        end.existential as u32,
    );
    let named = prefix(text, head, kinds, names);
    opening(text, named, &row, end.block, names)
}

// 01's two lines and the answer's number at the start of `text`: how many bytes they take, never over 192.
fn results(
    text: &mut [u8],
    answer: u32,
    variables: u32,
    clauses: u32,
    rounds: u32,
    universal: u32,
    existential: u32,
) -> usize
    requires { 192 ≤ length text.old }
    ensures upper_bound { result ≤ 192 }
    ensures text_after { take result text.new ≡ head_lines answer variables clauses rounds universal existential }
{
    let two = report::result(
        text,
        answer,
        variables,
        clauses,
        rounds,
        universal,
        existential,
    );
    let next = field(text, two, b"c answer ", answer as u64);
    append(text, next, b"\n")
}

// The prefix, a line for each unknown, behind the first `at` bytes.
fn prefix(text: &mut [u8], at: usize, kinds: &[u8], names: &[u16]) -> usize
    requires { (length names.now ≡ length kinds.now) × (at + 26 * length kinds.now ≤ length text.old) }
    ensures upper_bound { result ≤ at + 26 * length kinds.now }
    ensures text_after { take result text.new ≡ take at text.old ++ each prefix_line kinds.now names.now }
{
    let mut end = at;
    for (kind, name) in kinds.iter().zip(names) {
        end = kind_line(text, end, *kind, *name);
    }
    end
}

// The opening, a line for each unknown of the first block, behind the first `at` bytes.
fn opening(text: &mut [u8], at: usize, row: &[u8], block: usize, names: &[u16]) -> usize
    requires { (block ≤ length names.now) × (at + 26 * block ≤ length text.old) }
    ensures upper_bound { result ≤ at + 26 * block }
    ensures text_after { take result text.new ≡ take at text.old ++ each value_line (row_of block (row_at row.now 0)) names.now }
{
    let mut end = at;
    for (k, name) in names[..block].iter().enumerate() {
        end = value_line(text, end, rows::bit(row, 0, k), *name);
    }
    end
}

// A side's rows, a line each, behind the first `at` bytes.
fn side(
    text: &mut [u8],
    at: usize,
    label: &[u8],
    m: usize,
    rows: &[u8],
    marks: &[u16],
    counts: &[u32],
) -> usize
    requires { Side text.old at label.now m rows.now marks.now counts.now }
    ensures upper_bound { result ≤ at + 192 * length marks.now }
    ensures text_after { take result text.new ≡ take at text.old ++ row_lines label.now (joined (rows_of m (length marks.now) rows.now) marks.now) counts.now }
{
    let mut end = at;
    for (i, mark) in marks.iter().enumerate() {
        end = row_line(text, end, label, *mark, counts[i], m, rows, i);
    }
    end
}

// The line of row i: its mark, its count, its values.
fn row_line(
    text: &mut [u8],
    at: usize,
    label: &[u8],
    mark: u16,
    count: u32,
    m: usize,
    rows: &[u8],
    i: usize,
) -> usize
    requires { (length label.now ≤ 12) × (m ≤ max_unknowns) × (at + 192 ≤ length text.old) }
    ensures upper_bound { result ≤ at + 192 }
    ensures text_after { take result text.new ≡ take at text.old ++ row_line label.now mark count (row_of m (row_at rows.now i)) }
{
    let a = field(text, at, label, mark as u64);
    let b = field(text, a, b" ", count as u64);
    let c = append(text, b, b" ");
    let d = values(text, c, m, rows, i);
    append(text, d, b"\n")
}

// The values of row i, a digit each, behind the first `at` bytes.
fn values(text: &mut [u8], at: usize, m: usize, rows: &[u8], i: usize) -> usize
    requires { at + m ≤ length text.old }
    ensures value { result ≡ at + m }
    ensures text_after { take result text.new ≡ take at text.old ++ map digit (row_of m (row_at rows.now i)) }
{
    for k in 0..m {
        text[at + k] = digit_of(rows::bit(rows, i, k));
    }
    at + m
}

// A value as a digit.
fn digit_of(value: bool) -> u8
    ensures { result ≡ digit value }
{
    if value {
        return 49;
    }
    48
}

// The line of an unknown in the prefix.
fn kind_line(text: &mut [u8], at: usize, kind: u8, name: u16) -> usize
    requires { at + 26 ≤ length text.old }
    ensures upper_bound { result ≤ at + 26 }
    ensures text_after { take result text.new ≡ take at text.old ++ prefix_line kind name }
{
    if kind == 0 {
        return name_line(text, at, b"e ", name);
    }
    name_line(text, at, b"a ", name)
}

// The line of an unknown in the opening.
fn value_line(text: &mut [u8], at: usize, value: bool, name: u16) -> usize
    requires { at + 26 ≤ length text.old }
    ensures upper_bound { result ≤ at + 26 }
    ensures text_after { take result text.new ≡ take at text.old ++ value_line value name }
{
    if value {
        return name_line(text, at, b"V ", name);
    }
    name_line(text, at, b"V -", name)
}

// A label, a name and a closing 0.
fn name_line(text: &mut [u8], at: usize, label: &[u8], name: u16) -> usize
    requires { (length label.now ≤ 3) × (at + 26 ≤ length text.old) }
    ensures upper_bound { result ≤ at + 26 }
    ensures text_after { take result text.new ≡ take at text.old ++ name_line label.now name }
{
    let next = field(text, at, label, name as u64);
    append(text, next, b" 0\n")
}

// A label and a number in decimal, never over twenty digits, behind the first `at` bytes.
fn field(text: &mut [u8], at: usize, label: &[u8], number: u64) -> usize
    requires { at + length label.now + 20 ≤ length text.old }
    ensures upper_bound { result ≤ at + length label.now + 20 }
    ensures text_after { take result text.new ≡ take at text.old ++ label.now ++ decimal number }
{
    let mut digits = [0u8; 20];
    let count = io::decimal(number, &mut digits);
    let next = append(text, at, label);
    append(text, next, &digits[..count])
}

// All of `part` into `text` from `at` on, where it fits: the place behind it.
fn append(text: &mut [u8], at: usize, part: &[u8]) -> usize
    requires { at + length part.now ≤ length text.old }
    ensures value { result ≡ at + length part.now }
    ensures text_after { take result text.new ≡ take at text.old ++ part.now }
{
    buffer::append(text, at, part)
}
