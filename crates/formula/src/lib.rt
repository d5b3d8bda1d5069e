// A quantified formula as it is lent: the limits, the test of causes 1 to 3, and the literals read at an index.
// `Formula::check` promises the first cause that applies, or the sizes of an accepted formula, for every input; the other functions
// answer for every input too. What a formula means is in specs/; rows and the run belong to other crates.
#![tactic(auto)]

ghost use Rattle.std.specs.Prelude.{◌≡◌, ◌^◌, ◌≤◌, ◌<◌, false, nat_abs, length};
ghost use Rattle.formula.specs.Formula.{universal, prefix, max_entries};
ghost use Rattle.formula.specs.Causes.{any, other_kind, zeros, ended, beyond, count, checked, number};
ghost use Rattle.formula.specs.FirstCause.{first_cause};
ghost use Rattle.formula.specs.Literal.{magnitude_at, negative_at};
ghost use Rattle.formula.specs.Progress.{fresh};

use cause::Cause;

// The sizes of an accepted formula.
#[derive(Clone, Copy)]
pub struct Formula {
    pub unknowns: usize,
    pub universals: usize,
    pub clauses: usize,
    pub entries: usize,
}

// The round that a run has reached and the counts of its two row tables.
#[derive(Clone, Copy)]
pub struct Progress {
    pub round: u32,
    pub universal: usize,
    pub existential: usize,
}

impl Formula {
    pub const UNKNOWNS: usize = 128;

    pub const CLAUSES: usize = 2_048;

    pub const ENTRIES: usize = 8_192;

    pub const ROWS: usize = 256;

    // The bytes of a work area.
    pub const WORK: usize = 65_536;

    // The state of a run before its first round.
    pub fn start() -> Progress
        ensures { result ≡ fresh }
    {
        Progress {
            round: 0,
            universal: 1,
            existential: 0,
        }
    }

    // The first of causes 1 to 3 that applies, or the sizes.
    pub fn check(kinds: &[u8], literals: &[i32]) -> Result<Formula, Cause>
        ensures value { result ≡ checked kinds.now literals.now }
        ensures numbered { number result ≡ first_cause kinds.now literals.now }
    {
        let unknowns = kinds.len();
        if unknowns > Formula::UNKNOWNS {
            return Err(Cause::Kinds);
        }
        if has_other_kind(kinds) {
            return Err(Cause::Kinds);
        }
        let entries = literals.len();
        if entries > Formula::ENTRIES {
            return Err(Cause::Literals);
        }
        let clauses = count_zeros(literals) as usize;
        if clauses > Formula::CLAUSES {
            return Err(Cause::Literals);
        }
        if !is_ended(literals) {
            return Err(Cause::Literals);
        }
        if has_lowest(literals) {
            return Err(Cause::Beyond);
        }
        if has_beyond(literals, unknowns as u32) {
            return Err(Cause::Beyond);
        }
        Ok(Formula {
            unknowns,
            universals: count_universals(kinds),
            clauses,
            entries,
        })
    }
}

// The one number of its type that has no opposite there.
pub const LOWEST: i32 = -2_147_483_648;

// The magnitude of a literal: the name of its unknown.
pub fn magnitude(literal: i32) -> u32
    ensures { result ≡ nat_abs literal }
{
    if literal == LOWEST {
        return 2_147_483_648;
    }
    absolute(literal)
}

// The magnitude of the literal at i, and 0 past the last one.
pub fn magnitude_at(literals: &[i32], i: usize) -> u32
    ensures { result ≡ magnitude_at literals.now i }
{
    if i < literals.len() {
        magnitude(literals[i])
    } else {
        0
    }
}

// Whether the literal at i is negative; none is past the last one.
pub fn negative_at(literals: &[i32], i: usize) -> bool
    ensures { result ≡ negative_at literals.now i }
{
    if i < literals.len() {
        literals[i] < 0
    } else {
        false
    }
}

// The lowest number is ruled out before any is negated.
fn absolute(literal: i32) -> u32
    requires { nat_abs literal < 2 ^ 31 }
    ensures { result ≡ nat_abs literal }
{
    if literal < 0 {
        let opposite = -literal;
        opposite as u32
    } else {
        literal as u32
    }
}

fn has_other_kind(kinds: &[u8]) -> bool
    ensures { result ≡ any other_kind kinds.now }
{
    let mut found = false;
    for kind in kinds {
        if *kind > 1 {
            found = true;
        }
    }
    found
}

fn count_universals(kinds: &[u8]) -> usize
    ensures { result ≡ count universal (prefix kinds.now) }
{
    let mut universals: usize = 0;
    for kind in kinds {
        if *kind != 0 {
            universals += 1;
        }
    }
    universals
}

// A count of 32 bits, so that the compiler looks at more entries at once than for one of 64.
fn count_zeros(literals: &[i32]) -> u32
    requires { length literals.now ≤ max_entries }
    ensures { result ≡ zeros literals.now }
{
    let mut count: u32 = 0;
    for literal in literals {
        if *literal == 0 {
            count += 1;
        }
    }
    count
}

fn is_ended(literals: &[i32]) -> bool
    ensures { result ≡ ended literals.now }
{
    let entries = literals.len();
    if entries == 0 {
        return true;
    }
    literals[entries - 1] == 0
}

// The lowest number is the one beyond 2,147,483,647. Here too the loop has one way out.
pub fn has_lowest(literals: &[i32]) -> bool
    ensures { result ≡ any (beyond 2147483647) literals.now }
{
    let mut found = false;
    for literal in literals {
        if *literal == LOWEST {
            found = true;
        }
    }
    found
}

// A loop with one way out, so that the compiler looks at several entries at once.
fn has_beyond(literals: &[i32], unknowns: u32) -> bool
    requires { any (beyond 2147483647) literals.now ≡ false }
    ensures { result ≡ any (beyond unknowns) literals.now }
{
    let mut found = false;
    for literal in literals {
        if absolute(*literal) > unknowns {
            found = true;
        }
    }
    found
}
