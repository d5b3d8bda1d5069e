// 01's 'Runs worked by hand', K1 to K15, played through the public functions: what each returns, its rows and marks, and what it leaves.
// Before each, every table that is lent to be written is filled with values of its own, so that a byte that changes past the counts, or on
// a refusal, shows. A row is printed as a hexadecimal number, bit k of weight 2^k. The stored output is worked out from 01.
#![tactic(auto)]

ghost use Rattle.std.specs.Prelude.{◌*◌, ◌≤◌, length};
ghost use Rattle.formula.specs.Formula.{max_rows};

use cause::Cause;
use engine::run::{Answer, Outcome};
use formula::Formula;
use judge::Judgement;
use std::io;
use std::io::Write;

// The first of each table's values. The bytes are 10 to 98, of which no row of these runs has any, and the marks are over the limit.
const UNIVERSAL_ROWS: u8 = 10;

const EXISTENTIAL_ROWS: u8 = 40;

const WORK: u8 = 70;

const UNIVERSAL_MARKS: u16 = 1_000;

const EXISTENTIAL_MARKS: u16 = 2_000;

const AMPLE: usize = Formula::ROWS;

const LIMIT: u32 = 9;

// The formula of K1: `a 1 0`, `e 2 0`, `1 2 0`, `-1 -2 0`.
const KINDS_1: [u8; 2] = [1, 0];

const LITERALS_1: [i32; 6] = [1, 2, 0, -1, -2, 0];

fn main(rt: HostRuntime) -> io::Result<()> {
    k1_to_k6(&rt)?;
    k7_to_k10(&rt)?;
    k11(&rt)?;
    k12_and_k13(&rt)?;
    k14(&rt)?;
    k15(&rt)
}

fn k1_to_k6(rt: &HostRuntime) -> io::Result<()> {
    play_usual(rt, b"K1", &KINDS_1, &LITERALS_1)?;
    // The unknown that the text names 2 is now the first.
    play_usual(rt, b"K2", &[0, 1], &[2, 1, 0, -2, -1, 0])?;
    play_usual(rt, b"K3", b"", &[0; 0])?;
    play_usual(rt, b"K4", b"", &[0])?;
    play_usual(rt, b"K5", &[1], &[1, 0])?;
    play_run(rt, b"K6", &[1], &[1, 0], &[1], AMPLE, AMPLE, LIMIT)
}

fn k7_to_k10(rt: &HostRuntime) -> io::Result<()> {
    play_run(rt, b"K7", &KINDS_1, &LITERALS_1, b"", AMPLE, AMPLE, 1)?;
    play_run(rt, b"K8", &KINDS_1, &LITERALS_1, b"", AMPLE, AMPLE, 0)?;
    play_run(rt, b"K9", &KINDS_1, &LITERALS_1, b"", 1, 1, LIMIT)?;
    play_run(rt, b"K10", &KINDS_1, &LITERALS_1, b"", 2, 1, LIMIT)
}

fn k11(rt: &HostRuntime) -> io::Result<()> {
    let mut rows = [0u8; 32];
    rows[16] = 1;
    play_judge(rt, b"K11, rows 0 and 1", &KINDS_1, &LITERALS_1, &rows, 2)?;
    play_judge(
        rt,
        b"K11, row 1 alone",
        &KINDS_1,
        &LITERALS_1,
        &rows[16..],
        1,
    )
}

fn k12_and_k13(rt: &HostRuntime) -> io::Result<()> {
    let literals = [1, 2, 4, 0, -1, -2, 4, 0, 3, -4, 0];
    play_usual(rt, b"K12", &[1, 0, 1, 0], &literals)?;
    play_usual(rt, b"K13", &[1], &[1, -1, 0])
}

fn k14(rt: &HostRuntime) -> io::Result<()> {
    let kinds = [0];
    let literals = [-2_147_483_648, 0];
    play_usual(rt, b"K14", &kinds, &literals)?;
    play_judge(rt, b"K14, judge", &kinds, &literals, &[0; 16], 1)?;
    play_check(rt, b"K14, check", &kinds, &literals)
}

fn k15(rt: &HostRuntime) -> io::Result<()> {
    let existential = [0u8; 129];
    let universal = [1u8; 128];
    let none = [0i32; 0];
    play_usual(rt, b"K15, 128 existential", &existential[..128], &none)?;
    play_usual(rt, b"K15, 128 universal", &universal, &none)?;
    play_judge(rt, b"K15, 128, judge", &universal, &none, &[0; 16], 1)?;
    play_check(rt, b"K15, 128, check", &universal, &none)?;
    play_usual(rt, b"K15, 129", &existential, &none)?;
    play_judge(rt, b"K15, 129, judge", &existential, &none, &[0; 16], 1)?;
    play_check(rt, b"K15, 129, check", &existential, &none)
}

// 'House preferences, ample rows, limit 9, unless said.'
fn play_usual(rt: &HostRuntime, name: &[u8], kinds: &[u8], literals: &[i32]) -> io::Result<()> {
    play_run(rt, name, kinds, literals, b"", AMPLE, AMPLE, LIMIT)
}

// Plays a run with so many rows lent on each side, and prints what it returns and leaves. The tables go on past what is lent, and all of
// them is looked at.
fn play_run(
    rt: &HostRuntime,
    name: &[u8],
    kinds: &[u8],
    literals: &[i32],
    preferences: &[u8],
    universal_room: usize,
    existential_room: usize,
    limit: u32,
) -> io::Result<()>
    requires { (universal_room ≤ max_rows) × (existential_room ≤ max_rows) }
{
    let mut universal_rows = [0u8; 16 * Formula::ROWS];
    let mut universal_marks = [0u16; Formula::ROWS];
    let mut universal_counts = [0u32; Formula::ROWS];
    let mut existential_rows = [0u8; 16 * Formula::ROWS];
    let mut existential_marks = [0u16; Formula::ROWS];
    let mut existential_counts = [0u32; Formula::ROWS];
    let mut work = [0u8; Formula::WORK];
    fill(&mut universal_rows, UNIVERSAL_ROWS);
    fill_marks(&mut universal_marks, UNIVERSAL_MARKS);
    fill(&mut existential_rows, EXISTENTIAL_ROWS);
    fill_marks(&mut existential_marks, EXISTENTIAL_MARKS);
    fill(&mut work, WORK);
    let end = lend(
        kinds,
        literals,
        preferences,
        &mut universal_rows,
        &mut universal_marks,
        &mut universal_counts,
        &mut existential_rows,
        &mut existential_marks,
        &mut existential_counts,
        &mut work,
        universal_room,
        existential_room,
        limit,
    );
    print(rt, name)?;
    print_run(
        rt,
        end,
        &universal_rows,
        &universal_marks,
        &existential_rows,
        &existential_marks,
        &work,
    )
}

// The run over the first rows of each side's tables.
fn lend(
    kinds: &[u8],
    literals: &[i32],
    preferences: &[u8],
    universal_rows: &mut [u8],
    universal_marks: &mut [u16],
    universal_counts: &mut [u32],
    existential_rows: &mut [u8],
    existential_marks: &mut [u16],
    existential_counts: &mut [u32],
    work: &mut [u8],
    universal_room: usize,
    existential_room: usize,
    limit: u32,
) -> Outcome
    requires universal_room_in_bounds { (16 * universal_room ≤ length universal_rows.old) × (universal_room ≤ length universal_marks.old) × (universal_room ≤ length universal_counts.old) }
    requires existential_room_in_bounds { (16 * existential_room ≤ length existential_rows.old) × (existential_room ≤ length existential_marks.old) × (existential_room ≤ length existential_counts.old) }
{
    engine::run::run(
        kinds,
        literals,
        preferences,
        &mut universal_rows[0..16 * universal_room],
        &mut universal_marks[0..universal_room],
        &mut universal_counts[0..universal_room],
        &mut existential_rows[0..16 * existential_room],
        &mut existential_marks[0..existential_room],
        &mut existential_counts[0..existential_room],
        work,
        limit,
        0,
    )
}

fn print_run(
    rt: &HostRuntime,
    end: Outcome,
    universal_rows: &[u8],
    universal_marks: &[u16],
    existential_rows: &[u8],
    existential_marks: &[u16],
    work: &[u8],
) -> io::Result<()> {
    let universal = end.universal.min(AMPLE);
    let existential = end.existential.min(AMPLE);
    if print_outcome(rt, end)? {
        print_side(
            rt,
            b"  universal rows",
            universal_rows,
            universal_marks,
            universal,
        )?;
        print_side(
            rt,
            b"  existential rows",
            existential_rows,
            existential_marks,
            existential,
        )?;
        print(rt, b"  past the counts")?;
        print_found(
            rt,
            universal_kept(universal_rows, universal_marks, universal)
                && existential_kept(existential_rows, existential_marks, existential),
        )?;
        print(rt, b", work area")?;
        print_zero(rt, work)?;
    } else {
        print(rt, b"  all")?;
        print_found(
            rt,
            universal_kept(universal_rows, universal_marks, 0)
                && existential_kept(existential_rows, existential_marks, 0)
                && as_found(work, WORK, 0),
        )?;
    }
    print(rt, b"\n")
}

// Prints what a run returns. Whether it is an answer.
fn print_outcome(rt: &HostRuntime, end: Outcome) -> io::Result<bool> {
    let answer = end.answer;
    match answer {
        Answer::False => print(rt, b": false")?,
        Answer::True => print(rt, b": true")?,
        Answer::Spent => print(rt, b": spent")?,
        Answer::NoRoomUniversal => print(rt, b": no room universal")?,
        Answer::NoRoomExistential => print(rt, b": no room existential")?,
        Answer::Refused(cause) => {
            print_refusal(rt, cause)?;
            return Ok(false);
        }
    }
    print_number(rt, b", round ", u64::from(end.round))?;
    print_number(rt, b", universal ", end.universal as u64)?;
    print_number(rt, b", existential ", end.existential as u64)?;
    print(rt, b"\n")?;
    Ok(true)
}

// Plays the judge on claim 1, and prints what it returns and leaves.
fn play_judge(
    rt: &HostRuntime,
    name: &[u8],
    kinds: &[u8],
    literals: &[i32],
    rows: &[u8],
    count: usize,
) -> io::Result<()> {
    let mut work = [0u8; Formula::WORK];
    fill(&mut work, WORK);
    let judgement = judge::judge(kinds, literals, 1, rows, count, &mut work);
    print(rt, name)?;
    let answered = print_judgement(rt, judgement)?;
    print(rt, b"  work area")?;
    if answered {
        print_zero(rt, &work)?;
    } else {
        print_found(rt, as_found(&work, WORK, 0))?;
    }
    print(rt, b"\n")
}

// Prints what the judge returns. Whether it is an answer.
fn print_judgement(rt: &HostRuntime, judgement: Result<Judgement, Cause>) -> io::Result<bool> {
    match judgement {
        Ok(Judgement::NotBorneOut) => print(rt, b": not borne out\n")?,
        Ok(Judgement::Accepted) => print(rt, b": accepted\n")?,
        Err(cause) => {
            print_refusal(rt, cause.number())?;
            return Ok(false);
        }
    }
    Ok(true)
}

// Plays the check of a formula, which is lent nothing that it could change.
fn play_check(rt: &HostRuntime, name: &[u8], kinds: &[u8], literals: &[i32]) -> io::Result<()> {
    print(rt, name)?;
    match Formula::check(kinds, literals) {
        Ok(_) => print(rt, b": accepted\n"),
        Err(cause) => print_refusal(rt, cause.number()),
    }
}

// Fills a table with its own values: those of neighbours differ, and those of two tables too.
fn fill(table: &mut [u8], first: u8) {
    for (i, byte) in table.iter_mut().enumerate() {
        *byte = value(first, i);
    }
}

fn fill_marks(marks: &mut [u16], first: u16) {
    for (i, mark) in marks.iter_mut().enumerate() {
        *mark = mark_value(first, i);
    }
}

fn value(first: u8, i: usize) -> u8 {
    first.wrapping_add((i % 29) as u8)
}

fn mark_value(first: u16, i: usize) -> u16 {
    first.wrapping_add((i % 256) as u16)
}

// Whether the table has its own values from an index on.
fn as_found(table: &[u8], first: u8, from: usize) -> bool {
    for i in from..table.len() {
        if table[i] != value(first, i) {
            return false;
        }
    }
    true
}

fn marks_as_found(marks: &[u16], first: u16, from: usize) -> bool {
    for i in from..marks.len() {
        if marks[i] != mark_value(first, i) {
            return false;
        }
    }
    true
}

// Whether both tables of a side are as found past a count.
fn universal_kept(rows: &[u8], marks: &[u16], count: usize) -> bool
    requires { count ≤ max_rows }
{
    as_found(rows, UNIVERSAL_ROWS, 16 * count) && marks_as_found(marks, UNIVERSAL_MARKS, count)
}

fn existential_kept(rows: &[u8], marks: &[u16], count: usize) -> bool
    requires { count ≤ max_rows }
{
    as_found(rows, EXISTENTIAL_ROWS, 16 * count) && marks_as_found(marks, EXISTENTIAL_MARKS, count)
}

fn is_zero(table: &[u8]) -> bool {
    table.iter().all(|byte| *byte == 0)
}

fn print_side(
    rt: &HostRuntime,
    name: &[u8],
    rows: &[u8],
    marks: &[u16],
    count: usize,
) -> io::Result<()> {
    print(rt, name)?;
    if count == 0 {
        return print(rt, b" none\n");
    }
    print_rows(rt, rows, count)?;
    print(rt, b", marks")?;
    print_marks(rt, marks, count)?;
    print(rt, b"\n")
}

fn print_rows(rt: &HostRuntime, rows: &[u8], count: usize) -> io::Result<()> {
    for i in 0..count {
        print_row(rt, rows::row(rows, count, i))?;
    }
    Ok(())
}

// A space and the row's number, without leading zeros.
fn print_row(rt: &HostRuntime, row: &[u8]) -> io::Result<()> {
    print(rt, b" ")?;
    let mut digits = 1;
    for left in (0..row.len()).rev() {
        digits = print_byte(rt, row[left], digits, left)?;
    }
    Ok(())
}

// Prints a byte in so many digits, but none of the zeros before the first one; how many digits the next byte has.
fn print_byte(rt: &HostRuntime, byte: u8, digits: usize, left: usize) -> io::Result<usize> {
    if byte == 0 && digits == 1 && left > 0 {
        return Ok(1);
    }
    if digits == 1 {
        print!(rt; "{byte:x}")?;
    } else {
        print!(rt; "{byte:02x}")?;
    }
    Ok(2)
}

fn print_marks(rt: &HostRuntime, marks: &[u16], count: usize) -> io::Result<()> {
    for mark in marks.iter().take(count) {
        print_mark(rt, *mark)?;
    }
    Ok(())
}

fn print_mark(rt: &HostRuntime, mark: u16) -> io::Result<()> {
    print_number(rt, b" ", u64::from(mark))
}

fn print_refusal(rt: &HostRuntime, cause: u32) -> io::Result<()> {
    print_number(rt, b": refused ", u64::from(cause))?;
    print(rt, b"\n")
}

fn print_found(rt: &HostRuntime, holds: bool) -> io::Result<()> {
    if holds {
        print(rt, b" as found")
    } else {
        print(rt, b" changed")
    }
}

fn print_zero(rt: &HostRuntime, work: &[u8]) -> io::Result<()> {
    if is_zero(work) {
        print(rt, b" zero")
    } else {
        print(rt, b" not zero")
    }
}

fn print_number(rt: &HostRuntime, label: &[u8], number: u64) -> io::Result<()> {
    print(rt, label)?;
    print!(rt; "{number}")
}

fn print(rt: &HostRuntime, text: &[u8]) -> io::Result<()> {
    rt.stdout().write_all(text)
}
