// The lines of a row in the expansion of a formula over a witness's rows, as DIMACS text.
// `cause` and `part` promise, for all that is lent, the number and the bytes that the definitions give (specs/Output.antt, over those of
// `cnf_rules`), put at the start of the buffer if they fit. The text is its parts one after the other, and unsatisfiable exactly if the judge accepts
// the claim (`cnf_rules`' theorems). A row needs the rows up to its own, and a buffer of its own lines.
#![tactic(auto)]

ghost use Rattle.std.specs.Prelude.{ℕ, ◌+◌, ◌-◌, ◌*◌, ◌<◌, ◌≤◌, ◌≡◌, cond, [], ◌∷◌, ◌++◌, eqb, pos, length, get_or, take, drop};
ghost use Rattle.formula.specs.Private.Accepted.{Accepted as AcceptedFormula};
ghost use Rattle.formula.specs.Causes.{zeros};
ghost use Rattle.rows.specs.Table.{room};
ghost use Rattle.report.specs.Report.{ascii, decimal, put, put_count};
ghost use Rattle.writer.specs.Private.Steps.{Put};
ghost use Rattle.cnf_text.specs.Output.{cause as cause_so, part_of};
ghost use Rattle.cnf_text.specs.Private.Walk.{width_of, later_cause, part_bytes, same_front, FirstLike, PlaceBy, PlacesBelow, Low, true_so, kept_from, literal_bytes, end_bytes, copy_bytes, entry_bytes, kept_behind, walked, row_bytes, Known};

use formula::Formula;

// Room for the lines of every row: 18 bytes for an entry, and 2.
pub const LONGEST: usize = 18 * Formula::ENTRIES + 2;

// A row's bytes.
const BYTES: usize = 16;

pub fn cause(kinds: &[u8], literals: &[i32], claim: u8, rows: &[u8]) -> u32
    ensures { result ≡ cause_so kinds.now literals.now claim rows.now }
{
    match Formula::check(kinds, literals) {
        Err(cause) => cause.number(),
        Ok(sizes) => rows_cause(sizes.unknowns, sizes.universals, claim, rows),
    }
}

fn rows_cause(unknowns: usize, universals: usize, claim: u8, rows: &[u8]) -> u32
    requires { universals ≤ unknowns }
    ensures { result ≡ later_cause (width_of unknowns universals claim) claim rows.now }
{
    if rows::table_fits(rows) {} else {
        return 4;
    }
    if claim > 1 {
        return 7;
    }
    let width = width(unknowns, universals, claim);
    if rows::stray_bit(rows, rows.len() / BYTES, width) {
        return 8;
    }
    0
}

fn width(unknowns: usize, universals: usize, claim: u8) -> usize
    requires { universals ≤ unknowns }
    ensures { result ≡ width_of unknowns universals claim }
{
    if claim == 0 {
        return universals;
    }
    unknowns - universals
}

pub fn part(
    kinds: &[u8],
    literals: &[i32],
    claim: u8,
    rows: &[u8],
    i: usize,
    out: &mut [u8],
) -> usize
    ensures counted { result ≡ put_count (part_of kinds.now literals.now claim rows.now i) out.old }
    ensures written { out.new ≡ put (part_of kinds.now literals.now claim rows.now i) out.old }
{
    match Formula::check(kinds, literals) {
        Err(_) => 0,
        Ok(sizes) => {
            let number = rows_cause(sizes.unknowns, sizes.universals, claim, rows);
            if number != 0 {
                return 0;
            }
            if rows.len() / BYTES <= i {
                return 0;
            }
            let mut text = [0u8; LONGEST];
            let end = put_part(&mut text, kinds, literals, sizes.clauses, claim, rows, i);
            buffer::append(out, 0, &text[..end])
        }
    }
}

fn put_part(
    text: &mut [u8],
    kinds: &[u8],
    literals: &[i32],
    clauses: usize,
    claim: u8,
    rows: &[u8],
    i: usize,
) -> usize
    requires { AcceptedFormula kinds.now literals.now × (clauses ≡ zeros literals.now) × (claim ≤ 1) × (i < room rows.now) × (room rows.now ≤ 256) × (147458 ≤ length text.old) }
    ensures { Put (part_bytes kinds.now literals.now claim rows.now i) 0 text.old result text.new }
{
    let mut places = [0u16; Formula::UNKNOWNS];
    place(kinds, claim, rows, i, &mut places);
    let first = Formula::UNKNOWNS * (rows.len() / BYTES) + clauses * i;
    put_lines(text, literals, &places, claim, first)
}

fn put_lines(text: &mut [u8], literals: &[i32], places: &[u16], claim: u8, first: usize) -> usize
    requires { Known (length places.now) literals.now × Low places.now × (first ≤ 557056) × (18 * length literals.now + 2 ≤ length text.old) × (length literals.now ≤ 8192) }
    ensures { Put (row_bytes places.now claim first literals.now) 0 text.old result text.new }
{
    if claim == 0 {
        return put_entries(text, 0, literals, places, 0, first);
    }
    let a = put_entries(text, 0, literals, places, 1, first);
    let b = put_entries(text, a, literals, places, 2, first);
    append(text, b, b"0\n")
}

fn put_entries(
    text: &mut [u8],
    at: usize,
    literals: &[i32],
    places: &[u16],
    style: u8,
    first: usize,
) -> usize
    requires { Known (length places.now) literals.now × Low places.now × (style ≤ 2) × (first ≤ 557056) × (length literals.now ≤ 8192) × (at + length (walked places.now style first literals.now) ≤ length text.old) }
    ensures { Put (walked places.now style first literals.now) at text.old result text.new }
{
    let mut end = at;
    let mut kept = is_kept(literals, 0, places);
    let mut t = first;
    for (i, literal) in literals.iter().enumerate() {
        let name = literal.unsigned_abs() as usize;
        end = put_entry(text, end, places, style, kept, t, *literal < 0, name);
        kept = is_kept_behind(literals, i, places, kept);
        t = number_behind(t, name);
    }
    end
}

fn number_behind(t: usize, name: usize) -> usize
    requires { t ≤ 1000000 }
    ensures { result ≡ cond (eqb name 0) (t + 1) t }
{
    if name == 0 {
        return t + 1;
    }
    t
}

fn put_entry(
    text: &mut [u8],
    at: usize,
    places: &[u16],
    style: u8,
    kept: bool,
    t: usize,
    negative: bool,
    name: usize,
) -> usize
    requires { (name ≤ length places.now) × Low places.now × (style ≤ 2) × (t ≤ 1000000) × (at + length (entry_bytes places.now style kept t negative name) ≤ length text.old) }
    ensures { Put (entry_bytes places.now style kept t negative name) at text.old result text.new }
{
    if kept {} else {
        return at;
    }
    if name == 0 {
        return put_end(text, at, style, t);
    }
    let place = places[name - 1];
    if place < 2 {
        return at;
    }
    put_copy(text, at, style, t, negative, place as usize - 1)
}

fn put_end(text: &mut [u8], at: usize, style: u8, t: usize) -> usize
    requires { (t ≤ 1000000) × (at + length (end_bytes style t) ≤ length text.old) }
    ensures { Put (end_bytes style t) at text.old result text.new }
{
    if style == 0 {
        return append(text, at, b"0\n");
    }
    if style == 1 {
        return at;
    }
    put_literal(text, at, false, t + 1)
}

fn put_copy(text: &mut [u8], at: usize, style: u8, t: usize, negative: bool, v: usize) -> usize
    requires { (t ≤ 1000000) × (at + length (copy_bytes style t negative v) ≤ length text.old) }
    ensures { Put (copy_bytes style t negative v) at text.old result text.new }
{
    if style == 0 {
        return put_literal(text, at, negative, v);
    }
    if style == 1 {
        let a = put_literal(text, at, true, t + 1);
        let b = put_literal(text, a, !negative, v);
        return append(text, b, b"0\n");
    }
    at
}

fn put_literal(text: &mut [u8], at: usize, negative: bool, v: usize) -> usize
    requires { at + length (literal_bytes negative v) ≤ length text.old }
    ensures { Put (literal_bytes negative v) at text.old result text.new }
{
    if negative {
        let a = append(text, at, b"-");
        return put_spaced(text, a, v);
    }
    put_spaced(text, at, v)
}

fn put_spaced(text: &mut [u8], at: usize, v: usize) -> usize
    requires { at + length (decimal v ++ ascii " ") ≤ length text.old }
    ensures { Put (decimal v ++ ascii " ") at text.old result text.new }
{
    let a = put_number(text, at, v as u64);
    append(text, a, b" ")
}

fn put_number(text: &mut [u8], at: usize, number: u64) -> usize
    requires { at + length (decimal number) ≤ length text.old }
    ensures { Put (decimal number) at text.old result text.new }
{
    let mut digits = [0u8; 20];
    let count = io::decimal(number, &mut digits);
    append(text, at, &digits[..count])
}

fn append(text: &mut [u8], at: usize, bytes: &[u8]) -> usize
    requires { at + length bytes.now ≤ length text.old }
    ensures { Put bytes.now at text.old result text.new }
{
    buffer::append(text, at, bytes)
}

fn is_kept(literals: &[i32], start: usize, places: &[u16]) -> bool
    requires { Known (length places.now) literals.now }
    ensures { result ≡ kept_from places.now (drop start literals.now) }
{
    for i in start..literals.len() {
        let name = formula::magnitude_at(literals, i) as usize;
        if name == 0 {
            return true;
        }
        if is_true(places[name - 1], formula::negative_at(literals, i)) {
            return false;
        }
    }
    true
}

fn is_true(place: u16, negative: bool) -> bool
    ensures { result ≡ true_so negative place }
{
    if negative {
        return place == 0;
    }
    place == 1
}

fn is_kept_behind(literals: &[i32], i: usize, places: &[u16], kept: bool) -> bool
    requires { Known (length places.now) literals.now × (i < length literals.now) }
    ensures { result ≡ kept_behind places.now kept (get_or literals.now i (pos 0)) (drop (i + 1) literals.now) }
{
    if formula::magnitude_at(literals, i) == 0 {
        return is_kept(literals, i + 1, places);
    }
    kept
}

fn place(kinds: &[u8], claim: u8, rows: &[u8], i: usize, places: &mut [u16; Formula::UNKNOWNS])
    requires { (length kinds.now ≤ 128) × (length places.old ≡ 128) × Low places.old × (i < 256) }
    ensures { PlacesBelow kinds.now claim rows.now i (length kinds.now) places.new × (length places.new ≡ 128) × Low places.new }
{
    let mut others = 0usize;
    for (k, kind) in kinds.iter().enumerate() {
        let own = *kind == claim;
        places[k] = place_at(rows, i, others, k, own);
        others = others_behind(others, own);
    }
}

fn place_at(rows: &[u8], i: usize, others: usize, k: usize, own: bool) -> u16
    requires { (i < 256) × (k < 128) }
    ensures { PlaceBy rows.now i others k own result }
{
    if own {
        return (2 + Formula::UNKNOWNS * first_like(rows, i, others) + k) as u16;
    }
    if rows::bit(rows, i, others) {
        return 1;
    }
    0
}

fn others_behind(others: usize, own: bool) -> usize
    requires { others ≤ 128 }
    ensures { result ≡ cond own others (others + 1) }
{
    if own {
        return others;
    }
    others + 1
}

fn first_like(rows: &[u8], i: usize, count: usize) -> usize
    ensures { FirstLike rows.now i count result }
{
    for j in 0..i {
        if is_same_front(rows, j, i, count) {
            return j;
        }
    }
    i
}

fn is_same_front(rows: &[u8], j: usize, i: usize, count: usize) -> bool
    ensures { result ≡ same_front rows.now j i count }
{
    for k in 0..count {
        if rows::bit(rows, j, k) != rows::bit(rows, i, k) {
            return false;
        }
    }
    true
}
