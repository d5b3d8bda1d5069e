// The program: a season's records as text on standard input, its page or its refusal on standard output.
// What is read, added up and printed is proved in `season`; here only buffers are made and handed on.
#![tactic(auto)]

use std::io;
use std::io::Write;

fn main(rt: HostRuntime) -> io::Result<()> {
    // one byte more than a text may have, so that a longer one is seen
    let mut input = [0u8; season::BYTES + 1];
    let length = streams::read_full(&mut rt.stdin(), &mut input)?;
    print(&rt, &input[..length])
}

fn print(rt: &HostRuntime, text: &[u8]) -> io::Result<()> {
    let mut out = [0u8; season::LONGEST];
    let length = season::print(text, &mut out);
    rt.stdout().write_all(&out[..length.min(season::LONGEST)])
}
