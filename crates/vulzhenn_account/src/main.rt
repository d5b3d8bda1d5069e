// The program: a formula in narrowed QDIMACS on standard input, or a gate list if descriptor 3 has a byte; the account of its decision on standard
// output. What is printed for which bytes is proved in `account`; here they are read and written.
#![tactic(auto)]

ghost use Rattle.std.specs.Prelude.{◌≤◌, length};

use formula::Formula;
use std::io;
use std::io::Write;

const FORM_FILENO: i32 = 3;

fn main(rt: HostRuntime) -> io::Result<()> {
    let mut input = [0u8; Formula::WORK];
    let length = streams::read_text(&mut rt.stdin(), &mut input)?;
    let mut form = [0u8; 1];
    let gates = streams::read_descriptor(FORM_FILENO, &mut form);
    let mut out = [0u8; account::LONGEST];
    let count = tell(gates, &input, length, &mut out);
    rt.stdout().write_all(&out[..count])
}

// The account of a text, or of a gate list.
fn tell(gates: usize, input: &[u8], size: usize, out: &mut [u8]) -> usize
    ensures { result ≤ length out.new }
{
    if gates == 0 {
        return account::account(input, size, out);
    }
    account::account_of_gates(input, size, out)
}
