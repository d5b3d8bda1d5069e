// The clauses of one gate, put into a table of entries. `put` promises, for every function, literal, inputs, table and place, the definition's
// entries and the place behind them; clauses that do not fit leave the table as found. It knows no text and no names: what a gate list means,
// and what is refused of one, is left to others.
#![tactic(auto)]

ghost use Rattle.std.specs.Prelude.{◌≡◌, false, not, [], ◌∷◌, ◌+◌, ◌*◌, ◌^◌, ◌≤◌, ◌<◌, nat_abs, length};
ghost use Rattle.std.proofs.lemmas.List.Edits.{sets};
ghost use Rattle.formula.specs.Causes.{any, beyond};
ghost use Rattle.gates.specs.Put.{entries_of, place_behind, laid};
ghost use Rattle.gates.specs.Private.Steps.{turn, pair_entries, long_entries, gathered_entries, triple_entries, parity_entries};

// What a gate computes: `&`, `|` and `^`.
#[derive(Clone, Copy)]
pub enum Function {
    And,
    Or,
    Xor,
}

// The gate's clauses into `entries` from `at` on, if they fit: the place behind them. `literal` is the gate's own.
pub fn put(
    function: Function,
    literal: i32,
    inputs: &[i32],
    entries: &mut [i32],
    at: usize,
) -> usize
    ensures value { result ≡ place_behind (length entries.old) at (entries_of function literal inputs.now) }
    ensures entries_after { entries.new ≡ laid entries.old at (entries_of function literal inputs.now) }
{
    if literal == formula::LOWEST {
        return at;
    }
    if formula::has_lowest(inputs) {
        return at;
    }
    match function {
        Function::And => gather(-literal, literal, inputs, false, entries, at),
        Function::Or => gather(literal, -literal, inputs, true, entries, at),
        Function::Xor => differ(literal, inputs, entries, at),
    }
}

// `near` with each input, then `far` with all of them, the inputs of the one or of the other turned to their opposites.
fn gather(
    near: i32,
    far: i32,
    inputs: &[i32],
    turned: bool,
    entries: &mut [i32],
    at: usize,
) -> usize
    requires { any (beyond 2147483647) inputs.now ≡ false }
    ensures value { result ≡ place_behind (length entries.old) at (gathered_entries near far turned inputs.now) }
    ensures entries_after { entries.new ≡ laid entries.old at (gathered_entries near far turned inputs.now) }
{
    let size = 4 * inputs.len() + 2;
    if entries.len() < size {
        return at;
    }
    if entries.len() - size < at {
        return at;
    }
    put_pairs(near, inputs, turned, entries, at);
    put_long(far, inputs, !turned, entries, at + 3 * inputs.len());
    at + size
}

// A clause of two literals for each input.
fn put_pairs(first: i32, inputs: &[i32], turned: bool, entries: &mut [i32], at: usize)
    requires { (any (beyond 2147483647) inputs.now ≡ false) × (at + 3 * length inputs.now ≤ length entries.old) }
    ensures { entries.new ≡ sets entries.old at (pair_entries first turned inputs.now) }
{
    let mut to = at;
    for input in inputs {
        let input = turn_if(*input, turned);
        entries[to] = first;
        entries[to + 1] = input;
        entries[to + 2] = 0;
        to += 3;
    }
}

// A clause of all the inputs.
fn put_long(first: i32, inputs: &[i32], turned: bool, entries: &mut [i32], at: usize)
    requires { (any (beyond 2147483647) inputs.now ≡ false) × (at + length inputs.now + 2 ≤ length entries.old) }
    ensures { entries.new ≡ sets entries.old at (long_entries first turned inputs.now) }
{
    entries[at] = first;
    let mut to = at + 1;
    for input in inputs {
        entries[to] = turn_if(*input, turned);
        to += 1;
    }
    entries[to] = 0;
}

// The literal, or its opposite.
fn turn_if(literal: i32, turned: bool) -> i32
    requires { nat_abs literal < 2 ^ 31 }
    ensures { result ≡ turn turned literal }
{
    if turned { -literal } else { literal }
}

// The four clauses of `^`, if it has two inputs.
fn differ(literal: i32, inputs: &[i32], entries: &mut [i32], at: usize) -> usize
    requires { (nat_abs literal < 2 ^ 31) × (any (beyond 2147483647) inputs.now ≡ false) }
    ensures value { result ≡ place_behind (length entries.old) at (parity_entries literal inputs.now) }
    ensures entries_after { entries.new ≡ laid entries.old at (parity_entries literal inputs.now) }
{
    if inputs.len() != 2 {
        return at;
    }
    if entries.len() < 16 {
        return at;
    }
    if entries.len() - 16 < at {
        return at;
    }
    put_four(literal, inputs[0], inputs[1], entries, at);
    at + 16
}

fn put_four(g: i32, s: i32, t: i32, entries: &mut [i32], at: usize)
    requires { (nat_abs g < 2 ^ 31) × (nat_abs s < 2 ^ 31) × (nat_abs t < 2 ^ 31) × (at + 16 ≤ length entries.old) }
    ensures { entries.new ≡ sets entries.old at (parity_entries g (s ∷ t ∷ [])) }
{
    let not_g = -g;
    let not_s = -s;
    let not_t = -t;
    put_triple(not_g, s, t, entries, at);
    put_triple(not_g, not_s, not_t, entries, at + 4);
    put_triple(g, not_s, t, entries, at + 8);
    put_triple(g, s, not_t, entries, at + 12);
}

fn put_triple(a: i32, b: i32, c: i32, entries: &mut [i32], at: usize)
    requires { at + 4 ≤ length entries.old }
    ensures { entries.new ≡ sets entries.old at (triple_entries a b c) }
{
    entries[at] = a;
    entries[at + 1] = b;
    entries[at + 2] = c;
    entries[at + 3] = 0;
}
