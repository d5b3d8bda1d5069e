// Malformed tables, and the number that each gets, a line each: formulas (causes 1 to 3, 0 if accepted), row tables (4 if refused, 0 if not),
// studies that are to be charged (1 for the kinds, 21 and 22 for lent bands, 0 if charged).
#![tactic(auto)]

use cause::Cause;
use formula::Formula;
use std::io;

fn main(rt: HostRuntime) -> io::Result<()> {
    formulas(&rt)?;
    tables(&rt)?;
    fees(&rt)
}

// Prints the number and a line end.
fn print(rt: &HostRuntime, number: u32) -> io::Result<()> {
    println!(rt; "{number}")
}

fn number(kinds: &[u8], literals: &[i32]) -> u32 {
    match Formula::check(kinds, literals) {
        Err(cause) => cause.number(),
        Ok(_) => 0,
    }
}

fn formulas(rt: &HostRuntime) -> io::Result<()> {
    let kinds = [0u8; 129];
    let none = [0i32; 0];
    // 128 kinds pass, 129 do not.
    print(rt, number(&kinds[..128], &none))?;
    print(rt, number(&kinds, &none))?;
    // A kind of 2.
    print(rt, number(&[0, 2, 1], &none))?;
    // 8,193 entries, and 2,049 clauses.
    let literals = [1i32; 8_193];
    print(rt, number(&kinds[..1], &literals))?;
    let zeros = [0i32; 2_049];
    print(rt, number(&kinds[..1], &zeros[..2_048]))?;
    print(rt, number(&kinds[..1], &zeros))?;
    // A last entry other than 0.
    print(rt, number(&kinds[..2], &[1, -2, 0, 2]))?;
    // Literals n + 1, -(n + 1) and the lowest.
    print(rt, number(&kinds[..2], &[3, 0]))?;
    print(rt, number(&kinds[..2], &[-3, 0]))?;
    print(rt, number(&kinds[..2], &[-2147483648, 0]))?;
    print(rt, number(&kinds[..2], &[-2, 2, 0, 0]))
}

fn table(rows: &[u8]) -> u32 {
    if rows::table_fits(rows) { 0 } else { 4 }
}

fn tables(rt: &HostRuntime) -> io::Result<()> {
    let bytes = [0u8; 4_112];
    print(rt, table(&bytes[..0]))?;
    print(rt, table(&bytes[..15]))?;
    print(rt, table(&bytes[..16]))?;
    print(rt, table(&bytes[..17]))?;
    print(rt, table(&bytes[..4_096]))?;
    print(rt, table(&bytes))
}

fn charge_number(charge: Result<u64, Cause>) -> u32 {
    match charge {
        Err(cause) => cause.number(),
        Ok(_) => 0,
    }
}

fn charge(rounds: u32, kinds: &[u8]) -> u32 {
    charge_number(fee::fee(rounds, kinds))
}

fn charge_with(firsts: &[u32], prices: &[u32], kinds: &[u8]) -> u32 {
    charge_number(fee::fee_with(firsts, prices, 9, kinds))
}

fn fees(rt: &HostRuntime) -> io::Result<()> {
    print(rt, charge(9, &[0, 1, 0]))?;
    // A kind of 2, also where no round was made.
    print(rt, charge(9, &[0, 2, 0]))?;
    print(rt, charge(0, &[2]))?;
    bands(rt)
}

fn bands(rt: &HostRuntime) -> io::Result<()> {
    print(rt, charge_with(&[1, 9, 65], &[400, 250, 120], &[0, 1, 0]))?;
    // Columns of unlike length, no band, 17 bands, a first band that begins at round 2.
    print(rt, charge_with(&[1, 9], &[400], &[0, 1, 0]))?;
    let none = [0u32; 0];
    print(rt, charge_with(&none, &none, &[0, 1, 0]))?;
    let many = [1u32; 17];
    print(rt, charge_with(&many, &many, &[0, 1, 0]))?;
    print(rt, charge_with(&[2, 9], &[400, 250], &[0, 1, 0]))?;
    // First rounds that don't rise, and a price over 100,000 cents.
    print(rt, charge_with(&[1, 9, 9], &[400, 250, 120], &[0, 1, 0]))?;
    print(rt, charge_with(&[1, 9], &[400, 100_001], &[0, 1, 0]))?;
    // 21 comes before 22, and 22 before the kinds' 1.
    print(rt, charge_with(&[2, 2], &[400, 100_001], &[2]))?;
    print(rt, charge_with(&[1, 1], &[400, 250], &[2]))?;
    print(rt, charge_with(&[1, 9], &[400, 250], &[2]))
}
