// The program: a formula in narrowed QDIMACS on standard input, its trimmed text on standard output, or 01's refusal line on standard error.
// What is written for which bytes is proved in `trimmed_text`; here they are read and written.
#![tactic(auto)]

use formula::Formula;
use std::io;
use std::io::Write;

fn main(rt: HostRuntime) -> io::Result<()> {
    let mut input = [0u8; Formula::WORK];
    let length = streams::read_text(&mut rt.stdin(), &mut input)?;
    let mut out = [0u8; trimmed_text::TEXT];
    let mut lines = [0u8; trimmed_text::LINES];
    let counts = trimmed_text::trim_text(&input, length, &mut out, &mut lines);
    rt.stdout().write_all(&out[..counts.text])?;
    rt.stderr().write_all(&lines[..counts.lines])
}
