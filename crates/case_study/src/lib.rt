// The study by cases: a study, and where none of its settings answers, the formula decided by cases of its first unknowns, each by a run under one setting
// more. With no bound on these runs there is an answer for every accepted formula.
// `decide` promises, for all that is lent, the outcome and every lent byte that the definition (specs/Decided.antt) gives, and what specs/CasesRight.antt
// says of it. Runs belong to `engine`, the study to `study`, setting unknowns to `restriction`, judging rows to `judge`.
#![tactic(auto)]

ghost use Rattle.std.specs.Prelude.{◌+◌, ◌-◌, ◌/◌, ◌≤◌, ◌<◌, ◌≡◌, cond, ◌||◌, false, eqb, length, take, drop, get_or};
ghost use Rattle.formula.specs.Formula.{max_entries};
ghost use Rattle.trimming_rules.specs.Trimming.{trimmed};
ghost use Rattle.case_rules.specs.Restricted.{IsAccepted, restricted};
ghost use Rattle.restriction.specs.Outcome.{value_of, values_of, wrong_values};
ghost use Rattle.engine.specs.Outcome.{areas};
ghost use Rattle.study.specs.Study.{formula_of};
ghost use Rattle.case_study.specs.Cases.{state, most_runs, most_rounds, up_to, larger as larger_of, counted as counted_so, asked, reply_of, is_reached as reached};
ghost use Rattle.case_study.specs.Cases.{run_of, allowed_run, is_accepted, reply_to};
ghost use Rattle.case_study.specs.Private.Path.{step, formula_at, nearer as nearer_of, unnamed as unnamed_in, Laid, Known, Placed, Descended, Climbed};
ghost use Rattle.case_study.specs.Private.Path.{replied, asking_by, shares, shared_work};

use cause::Cause;
use engine::run::{Answer, Outcome};
use judge::Judgement;
use study::Setting;

// What the runs made so far have come to: the rows of the last one, how many were made, the sum of their rounds, and the most unknowns that were set.
#[derive(Clone, Copy)]
pub struct Progress {
    pub universal: usize,
    pub existential: usize,
    pub runs: u32,
    pub rounds: u32,
    pub depth: usize,
}

// The outcome, the setting that gave it, from 0, or the number of settings where the cases did; the runs made by cases, and the most unknowns set there.
#[derive(Clone, Copy)]
pub struct Decided {
    pub outcome: Outcome,
    pub setting: usize,
    pub runs: u32,
    pub depth: usize,
}

// ---- the formula of a place

// The lent formula with the values set one after the other, trimmed on the way if the setting trims: how many entries of the table it takes.
fn make(
    kinds: &[u8],
    literals: &[i32],
    setting: Setting,
    values: &[u8],
    table: &mut [i32],
    left: &mut [i32],
) -> usize
    requires { IsAccepted kinds.now literals.now × Known values.now × (length values.now ≤ length kinds.now) × (length table.old ≡ max_entries) × (length left.old ≡ max_entries) }
    ensures { Laid (formula_at setting kinds.now (formula_of setting.trim kinds.now literals.now) (values_of values.now)) table.new result }
{
    let trim = setting.trim;
    let mut entries = settle(kinds, literals, trim, table);
    for i in 0..values.len() {
        entries = narrow(&kinds[i..], setting, &values[i..], entries, table, left);
    }
    entries
}

// One unknown more is set. Where no clause names it nothing is to be trimmed.
fn narrow(
    kinds: &[u8],
    setting: Setting,
    values: &[u8],
    entries: usize,
    table: &mut [i32],
    left: &mut [i32],
) -> usize
    requires { IsAccepted kinds.now (take entries table.old) × (entries ≤ length table.old) × (1 ≤ length kinds.now) × (1 ≤ length values.now) × (get_or values.now 0 0 ≤ 1) × (length table.old ≡ max_entries) × (length left.old ≡ max_entries) }
    ensures { Laid (step setting (drop 1 kinds.now) (take entries table.old) (value_of (get_or values.now 0 0))) table.new result }
{
    let passed = unnamed(&table[0..entries], 1);
    let trim = trim_at(setting.trim, passed);
    let used = restrict(kinds, &table[0..entries], &values[0..1], left);
    settle(&kinds[1..], &left[0..used], trim, table)
}

fn trim_at(trim: u32, passed: usize) -> u32
    ensures { result ≡ cond (eqb passed 0) trim 0 }
{
    if passed == 0 {
        return trim;
    }
    0
}

// The formula trimmed, or as it is.
fn settle(kinds: &[u8], literals: &[i32], trim: u32, output: &mut [i32]) -> usize
    requires { IsAccepted kinds.now literals.now × (length literals.now ≤ length output.old) }
    ensures { Laid (formula_of trim kinds.now literals.now) output.new result }
{
    if trim == 0 {
        return restrict(kinds, literals, b"", output);
    }
    trim_into(kinds, literals, output)
}

fn restrict(kinds: &[u8], literals: &[i32], values: &[u8], output: &mut [i32]) -> usize
    requires { IsAccepted kinds.now literals.now × (length literals.now ≤ length output.old) × (wrong_values (length kinds.now) values.now ≡ false) }
    ensures { Laid (restricted (values_of values.now) literals.now) output.new result }
{
    restriction::set_first(kinds, literals, values, output).unwrap_or(0)
}

fn trim_into(kinds: &[u8], literals: &[i32], output: &mut [i32]) -> usize
    requires { IsAccepted kinds.now literals.now × (length literals.now ≤ length output.old) }
    ensures { Laid (trimmed kinds.now literals.now) output.new result }
{
    trimming::trim(kinds, literals, output).unwrap_or(0)
}

// How many unknowns in front no clause names, at most `most`.
fn unnamed(literals: &[i32], most: usize) -> usize
    ensures { result ≡ unnamed_in most literals.now }
{
    let mut nearest = most;
    for literal in literals {
        nearest = nearer(nearest, literal.unsigned_abs() as usize);
    }
    nearest
}

fn nearer(most: usize, name: usize) -> usize
    ensures { result ≡ nearer_of most name }
{
    if name == 0 {
        return most;
    }
    let before = name - 1;
    if before < most {
        return before;
    }
    most
}

// ---- the way down and up

// Behind a formula that is not decided: the unknowns that no clause names have their second value already, the next one gets its first.
fn descend(kinds: &[u8], literals: &[i32], depth: usize, values: &mut [u8]) -> usize
    requires { Placed kinds.now values.old depth × Known kinds.now }
    ensures { Descended kinds.now literals.now values.old depth values.new result }
{
    let level = depth + unnamed(literals, kinds.len() - depth);
    if level < kinds.len() {
        values[level] = 1 - kinds[level];
        return level + 1;
    }
    level
}

// Up from a formula with a verdict, past levels in their second case and those for which it is enough: where the second case is next, one behind its level,
// or 0.
fn climb(kinds: &[u8], depth: usize, verdict: u8, values: &mut [u8]) -> usize
    requires { Placed kinds.now values.old depth × Known kinds.now × (verdict ≤ 1) }
    ensures { Climbed kinds.now values.old depth (value_of verdict) values.new result }
{
    for level in (0..depth).rev() {
        let kind = kinds[level];
        if values[level] != kind {
            values[level] = kind;
            if verdict == kind {
                return level + 1;
            }
        }
    }
    0
}

// ---- a formula asked

// What a formula is found to be: a verdict, undecided, or nothing, since no further run is allowed.
#[derive(Clone, Copy)]
enum Reply {
    Is(bool),
    Undecided,
    Stopped,
}

#[derive(Clone, Copy)]
struct Replied {
    reply: Reply,
    made: Progress,
}

// Asks a formula with its first `depth` unknowns set: for a claim, which is the first case's verdict, first by the rows that settled that case, then by a run.
fn ask(
    kinds: &[u8],
    literals: &[i32],
    setting: Setting,
    claim: Option<bool>,
    bound: u32,
    depth: usize,
    made: Progress,
    universal_rows: &mut [u8],
    universal_marks: &mut [u16],
    universal_counts: &mut [u32],
    existential_rows: &mut [u8],
    existential_marks: &mut [u16],
    existential_counts: &mut [u32],
    work: &mut [u8],
) -> Replied
    ensures { asked (replied result.reply)
        (state (areas universal_rows.new universal_marks.new universal_counts.new existential_rows.new existential_marks.new existential_counts.new work.new) result.made)
        ≡ reply_to (asking_by claim) setting bound depth kinds.now literals.now
        (state (areas universal_rows.old universal_marks.old universal_counts.old existential_rows.old existential_marks.old existential_counts.old work.old) made) }
{
    if let Some(verdict) = claim {
        if serves(
            kinds,
            literals,
            verdict,
            made,
            universal_rows,
            existential_rows,
            work,
        ) {
            return Replied {
                reply: Reply::Is(verdict),
                made,
            };
        }
    }
    allowed(
        kinds,
        literals,
        setting,
        bound,
        depth,
        made,
        universal_rows,
        universal_marks,
        universal_counts,
        existential_rows,
        existential_marks,
        existential_counts,
        work,
    )
}

// The run, if a further one is allowed.
fn allowed(
    kinds: &[u8],
    literals: &[i32],
    setting: Setting,
    bound: u32,
    depth: usize,
    made: Progress,
    universal_rows: &mut [u8],
    universal_marks: &mut [u16],
    universal_counts: &mut [u32],
    existential_rows: &mut [u8],
    existential_marks: &mut [u16],
    existential_counts: &mut [u32],
    work: &mut [u8],
) -> Replied
    ensures { asked (replied result.reply)
        (state (areas universal_rows.new universal_marks.new universal_counts.new existential_rows.new existential_marks.new existential_counts.new work.new) result.made)
        ≡ allowed_run setting bound depth kinds.now literals.now
        (state (areas universal_rows.old universal_marks.old universal_counts.old existential_rows.old existential_marks.old existential_counts.old work.old) made) }
{
    if is_reached(bound, made.runs) {
        return Replied {
            reply: Reply::Stopped,
            made,
        };
    }
    run_case(
        kinds,
        literals,
        setting,
        depth,
        made,
        universal_rows,
        universal_marks,
        universal_counts,
        existential_rows,
        existential_marks,
        existential_counts,
        work,
    )
}

fn is_reached(bound: u32, runs: u32) -> bool
    ensures { result ≡ reached bound runs }
{
    if bound == 0 {
        return false;
    }
    if bound <= runs {
        return true;
    }
    false
}

// Whether the rows of the last run bear out the claim for this formula, too.
fn serves(
    kinds: &[u8],
    literals: &[i32],
    claim: bool,
    made: Progress,
    universal_rows: &[u8],
    existential_rows: &[u8],
    work: &mut [u8],
) -> bool
    ensures value { result ≡ shares claim kinds.now literals.now universal_rows.now existential_rows.now made work.old }
    ensures work_after { work.new ≡ shared_work claim kinds.now literals.now universal_rows.now existential_rows.now made work.old }
{
    let universal = made.universal;
    let existential = made.existential;
    if claim {
        return is_accepted(judge::judge(kinds, literals, 1, existential_rows, existential, work));
    }
    is_accepted(judge::judge(kinds, literals, 0, universal_rows, universal, work))
}

fn is_accepted(judgement: Result<Judgement, Cause>) -> bool
    ensures { result ≡ is_accepted judgement }
{
    matches!(judgement, Ok(Judgement::Accepted))
}

// The run of the cases' setting.
fn run_case(
    kinds: &[u8],
    literals: &[i32],
    setting: Setting,
    depth: usize,
    made: Progress,
    universal_rows: &mut [u8],
    universal_marks: &mut [u16],
    universal_counts: &mut [u32],
    existential_rows: &mut [u8],
    existential_marks: &mut [u16],
    existential_counts: &mut [u32],
    work: &mut [u8],
) -> Replied
    ensures { asked (replied result.reply)
        (state (areas universal_rows.new universal_marks.new universal_counts.new existential_rows.new existential_marks.new existential_counts.new work.new) result.made)
        ≡ run_of setting depth kinds.now literals.now
        (state (areas universal_rows.old universal_marks.old universal_counts.old existential_rows.old existential_marks.old existential_counts.old work.old) made) }
{
    let limit = setting.limit;
    let clearing = setting.clearing;
    let preference = setting.preference;
    let byte = [study::byte_of(preference); 1];
    let lent = study::lent_of(preference);
    let outcome = engine::run::run(
        kinds,
        literals,
        &byte[0..lent],
        universal_rows,
        universal_marks,
        universal_counts,
        existential_rows,
        existential_marks,
        existential_counts,
        work,
        limit,
        clearing,
    );
    let answer = outcome.answer;
    Replied {
        reply: reply_of(answer),
        made: counted(depth, outcome, made),
    }
}

fn reply_of(answer: Answer) -> Reply
    ensures { replied result ≡ reply_of answer }
{
    match answer {
        Answer::False => Reply::Is(false),
        Answer::True => Reply::Is(true),
        Answer::Spent => Reply::Undecided,
        Answer::NoRoomUniversal => Reply::Undecided,
        Answer::NoRoomExistential => Reply::Undecided,
        Answer::Refused(_) => Reply::Undecided,
    }
}

fn counted(depth: usize, outcome: Outcome, made: Progress) -> Progress
    ensures { result ≡ counted_so depth outcome made }
{
    Progress {
        universal: outcome.universal,
        existential: outcome.existential,
        runs: one_more(made.runs),
        rounds: together(made.rounds, outcome.round),
        depth: larger(made.depth, depth),
    }
}

fn one_more(runs: u32) -> u32
    ensures { result ≡ up_to most_runs (runs + 1) }
{
    if runs < MOST_RUNS {
        return runs + 1;
    }
    MOST_RUNS
}

fn together(rounds: u32, round: u32) -> u32
    ensures { result ≡ up_to most_rounds (rounds + round) }
{
    let sum = rounds as u64 + round as u64;
    if sum <= MOST_ROUNDS {
        return sum as u32;
    }
    999_999_999
}

fn larger(a: usize, b: usize) -> usize
    ensures { result ≡ larger_of a b }
{
    if a < b {
        return b;
    }
    a
}

const MOST_RUNS: u32 = 4_294_967_295;

const MOST_ROUNDS: u64 = 999_999_999;
