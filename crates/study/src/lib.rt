// The study: runs of one formula under a list of settings, one after the other, until one of them gives a verdict. Where one run has no room or no
// round left, another may: over the trimmed formula, with other preferences, or with the universal table cleared.
// `study` promises, for all that is lent, the outcome, the setting that gave it and every lent byte that the definition (specs/Study.antt) gives, that
// its answer is the verdict whatever the settings, and all that is promised of the last run (specs/StudyRight.antt).
// The run belongs to `run`, trimming to `trimming`. A study costs its runs, and if a setting trims one trimming and one test of the formula more.
#![tactic(auto)]

ghost use Rattle.std.specs.Prelude.{◌*◌, ◌/◌, ◌≤◌, ◌<◌, ◌≡◌, ◌||◌, cond, ◌∷◌, [], eqb, length, get_or, take, Err};
ghost use Rattle.cause.specs.Cause.{unless_cause};
ghost use Rattle.trimming.specs.Outcome.{outcome, output_after, used};
ghost use Rattle.engine.specs.Outcome.{areas, refusal};
ghost use Rattle.engine.specs.Ended.{Ended};
ghost use Rattle.study.specs.Study.{settings_of, preferences_of, given_of, unknown, trims, list_cause};
ghost use Rattle.study.specs.StudyRight.{Studies};
ghost use Rattle.study.specs.Private.Turns.{at_once, setting_at, formula_from, is_end, numbered, Tells, Holds, Ready};

use cause::Cause;
use engine::run::{Answer, Outcome};
use formula::Formula;

// How a run of a study is made: over the trimmed formula (1) or the lent one (0), with a preference byte or `HOUSE`, the universal table cleared in
// each round that `clearing` divides, and never if it is 0, within the limit of rounds.
#[derive(Clone, Copy)]
pub struct Setting {
    pub trim: u32,
    pub preference: u32,
    pub clearing: u32,
    pub limit: u32,
}

// The outcome of the last run, and the number of its setting, from 0.
#[derive(Clone, Copy)]
pub struct Studied {
    pub outcome: Outcome,
    pub setting: usize,
}

// The numbers of a setting in a table of settings, in the order of its fields.
pub const FIELDS: usize = 4;

// The most settings of a study.
pub const SETTINGS: usize = 8;

const ENTRIES: usize = SETTINGS * FIELDS;

// The preference for which no byte is lent.
pub const HOUSE: u32 = 256;

// Runs the formula under the settings of the table in turn. Every cause is tested before the first run. If no setting trims, the first run tests
// those that do not depend on a setting.
pub fn study(
    kinds: &[u8],
    literals: &[i32],
    settings: &[u32],
    universal_rows: &mut [u8],
    universal_marks: &mut [u16],
    universal_counts: &mut [u32],
    existential_rows: &mut [u8],
    existential_marks: &mut [u16],
    existential_counts: &mut [u32],
    work: &mut [u8],
) -> Studied
    ensures { Studies
        kinds.now literals.now settings.now
        (areas universal_rows.old universal_marks.old universal_counts.old existential_rows.old existential_marks.old existential_counts.old work.old)
        result
        (areas universal_rows.new universal_marks.new universal_counts.new existential_rows.new existential_marks.new existential_counts.new work.new) }
{
    if runs_at_once(settings) {
        let none = [0i32; 0];
        return in_turn(
            kinds,
            literals,
            &none,
            0,
            settings,
            universal_rows,
            universal_marks,
            universal_counts,
            existential_rows,
            existential_marks,
            existential_counts,
            work,
        );
    }
    after_test(
        kinds,
        literals,
        settings,
        universal_rows,
        universal_marks,
        universal_counts,
        existential_rows,
        existential_marks,
        existential_counts,
        work,
    )
}

// Whether the list has no cause and no setting trims.
fn runs_at_once(settings: &[u32]) -> bool
    ensures { result ≡ at_once settings.now }
{
    if list_cause(settings).is_err() {
        return false;
    }
    !any_setting(settings, |setting| setting.trim != 0)
}

// The study of a list with a cause, or with a setting that trims. A run with the limit 0 tests all causes that do not depend on a setting, and
// changes nothing.
fn after_test(
    kinds: &[u8],
    literals: &[i32],
    settings: &[u32],
    universal_rows: &mut [u8],
    universal_marks: &mut [u16],
    universal_counts: &mut [u32],
    existential_rows: &mut [u8],
    existential_marks: &mut [u16],
    existential_counts: &mut [u32],
    work: &mut [u8],
) -> Studied
    ensures { Studies
        kinds.now literals.now settings.now
        (areas universal_rows.old universal_marks.old universal_counts.old existential_rows.old existential_marks.old existential_counts.old work.old)
        result
        (areas universal_rows.new universal_marks.new universal_counts.new existential_rows.new existential_marks.new existential_counts.new work.new) }
{
    let none = [0u8; 0];
    let tested = engine::run::run(
        kinds,
        literals,
        &none,
        universal_rows,
        universal_marks,
        universal_counts,
        existential_rows,
        existential_marks,
        existential_counts,
        work,
        0,
        0,
    );
    let answer = tested.answer;
    if let Err(cause) = first_cause(engine::run::number(answer), settings) {
        return refused(cause);
    }
    let mut table = [0i32; Formula::ENTRIES];
    let entries = trim_into(kinds, literals, &mut table);
    in_turn(
        kinds,
        literals,
        &table,
        entries,
        settings,
        universal_rows,
        universal_marks,
        universal_counts,
        existential_rows,
        existential_marks,
        existential_counts,
        work,
    )
}

fn refused(cause: u32) -> Studied
    ensures { (result.outcome ≡ refusal cause) × (result.setting ≡ 0) }
{
    let outcome = Outcome {
        answer: Answer::Refused(cause),
        round: 0,
        universal: 0,
        existential: 0,
        opening: [0u8; 16],
        block: 0,
    };
    Studied {
        outcome,
        setting: 0,
    }
}

// The number of the cause that a run with the limit 0 gives, or where it is that limit the list's. Kept: a number, as `Answer::Refused` holds one.
fn first_cause(of_run: u32, settings: &[u32]) -> Result<(), u32>
    ensures { result ≡ cond (eqb of_run 6) (numbered (list_cause settings.now)) (Err of_run) }
{
    if of_run != Cause::Limit.number() {
        return Err(of_run);
    }
    list_cause(settings).map_err(Cause::number)
}

// The list's cause, `Settings` or `Limit`.
fn list_cause(settings: &[u32]) -> Result<(), Cause>
    ensures { result ≡ unless_cause (list_cause settings.now) tt }
{
    if settings.is_empty() {
        return Err(Cause::Settings);
    }
    if settings.len() > ENTRIES {
        return Err(Cause::Settings);
    }
    if settings.len() % FIELDS != 0 {
        return Err(Cause::Settings);
    }
    if any_setting(settings, is_unknown) {
        return Err(Cause::Settings);
    }
    if any_setting(settings, |setting| setting.limit == 0) {
        return Err(Cause::Limit);
    }
    Ok(())
}

// Whether a setting passes the test.
fn any_setting<F: Fn(Setting) -> bool>(settings: &[u32], test: F) -> bool
    requires { F.IsAlwaysCallable test }
    ensures { Tells (F.post test) (settings_of settings.now) result }
{
    for at in 0..settings.len() / FIELDS {
        if test(setting_at(settings, at)) {
            return true;
        }
    }
    false
}

fn is_unknown(setting: Setting) -> bool
    ensures { result ≡ unknown setting }
{
    if setting.trim > 1 {
        return true;
    }
    setting.preference > HOUSE
}

fn setting_at(settings: &[u32], at: usize) -> Setting
    requires { at < length settings.now / 4 }
    ensures { result ≡ setting_at settings.now at }
{
    let place = FIELDS * at;
    Setting {
        trim: settings[place],
        preference: settings[place + 1],
        clearing: settings[place + 2],
        limit: settings[place + 3],
    }
}

// The entries of the trimmed literals, at the start of the table; none if the formula is refused.
fn trim_into(kinds: &[u8], literals: &[i32], table: &mut [i32]) -> usize
    ensures value { result ≡ used (outcome kinds.now literals.now table.old) }
    ensures table_after { table.new ≡ output_after kinds.now literals.now table.old }
{
    trimming::trim(kinds, literals, table).unwrap_or(0)
}

// One run after the other, each over what the one before it has left.
fn in_turn<'a>(
    kinds: &[u8],
    literals: &'a [i32],
    table: &'a [i32],
    entries: usize,
    settings: &[u32],
    universal_rows: &mut [u8],
    universal_marks: &mut [u16],
    universal_counts: &mut [u32],
    existential_rows: &mut [u8],
    existential_marks: &mut [u16],
    existential_counts: &mut [u32],
    work: &mut [u8],
) -> Studied
    requires { Ready
        kinds.now literals.now settings.now
        (areas universal_rows.old universal_marks.old universal_counts.old existential_rows.old existential_marks.old existential_counts.old work.old)
        table.now entries }
    ensures { Studies
        kinds.now literals.now settings.now
        (areas universal_rows.old universal_marks.old universal_counts.old existential_rows.old existential_marks.old existential_counts.old work.old)
        result
        (areas universal_rows.new universal_marks.new universal_counts.new existential_rows.new existential_marks.new existential_counts.new work.new) }
{
    for at in 0..settings.len() / FIELDS {
        let setting = setting_at(settings, at);
        let outcome = with_setting(
            kinds,
            literals,
            table,
            entries,
            setting,
            universal_rows,
            universal_marks,
            universal_counts,
            existential_rows,
            existential_marks,
            existential_counts,
            work,
        );
        let answer = outcome.answer;
        let next = at + 1;
        if is_over(answer, next, settings.len()) {
            return Studied {
                outcome,
                setting: at,
            };
        }
    }
    unreachable!()
}

// Whether no run follows this answer: it is a verdict, or a refusal, or no setting is left.
fn is_over(answer: Answer, next: usize, length: usize) -> bool
    ensures { result ≡ (is_end answer || eqb «next» (length / 4)) }
{
    let last = next == length / FIELDS;
    match answer {
        Answer::False => true,
        Answer::True => true,
        Answer::Spent => last,
        Answer::NoRoomUniversal => last,
        Answer::NoRoomExistential => last,
        Answer::Refused(_) => true,
    }
}

// The run of one setting.
fn with_setting<'a>(
    kinds: &[u8],
    literals: &'a [i32],
    table: &'a [i32],
    entries: usize,
    setting: Setting,
    universal_rows: &mut [u8],
    universal_marks: &mut [u16],
    universal_counts: &mut [u32],
    existential_rows: &mut [u8],
    existential_marks: &mut [u16],
    existential_counts: &mut [u32],
    work: &mut [u8],
) -> Outcome
    requires { Holds (trims setting) kinds.now literals.now table.now entries }
    ensures { Ended
        (given_of kinds.now literals.now setting
        (areas universal_rows.old universal_marks.old universal_counts.old existential_rows.old existential_marks.old existential_counts.old work.old))
        result
        (areas universal_rows.new universal_marks.new universal_counts.new existential_rows.new existential_marks.new existential_counts.new work.new) }
{
    let limit = setting.limit;
    let clearing = setting.clearing;
    let preference = setting.preference;
    let byte = [byte_of(preference); 1];
    let lent = lent_of(preference);
    let formula = chosen(setting.trim, literals, table, entries);
    engine::run::run(
        kinds,
        formula,
        &byte[0..lent],
        universal_rows,
        universal_marks,
        universal_counts,
        existential_rows,
        existential_marks,
        existential_counts,
        work,
        limit,
        clearing,
    )
}

// The lent literals, or the first entries of the table.
fn chosen<'a>(trim: u32, literals: &'a [i32], table: &'a [i32], entries: usize) -> &'a [i32]
    requires { entries ≤ length table.now }
    ensures { result.now ≡ formula_from trim literals.now (take entries table.now) }
{
    if trim == 0 {
        return literals;
    }
    &table[0..entries]
}

// The preference byte, and how many are lent: one, or none for house preferences.
pub fn byte_of(preference: u32) -> u8
    ensures value { result ≡ get_or (preferences_of preference) 0 0 }
    ensures lent { preference < 256 → result ≡ preference }
{
    u8::try_from(preference).unwrap_or(0)
}

pub fn lent_of(preference: u32) -> usize
    ensures { result ≡ length (preferences_of preference) }
{
    if preference < HOUSE {
        return 1;
    }
    0
}
