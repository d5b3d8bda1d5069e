// The program: a formula in narrowed QDIMACS on standard input, the witness file of the side that settled it on standard output, or 01's lines on
// standard error. What is written for which bytes is proved in `certificate`; here they are read and written.
#![tactic(auto)]

use formula::Formula;
use std::io;
use std::io::Write;

fn main(rt: HostRuntime) -> io::Result<()> {
    let mut input = [0u8; Formula::WORK];
    let length = streams::read_text(&mut rt.stdin(), &mut input)?;
    let mut file = [0u8; certificate::FILE];
    let mut lines = [0u8; certificate::LINES];
    let mut work = [0u8; Formula::WORK];
    let counts = certificate::certify_offered(&input, length, &mut file, &mut lines, &mut work);
    rt.stdout().write_all(&file[..counts.file])?;
    rt.stderr().write_all(&lines[..counts.lines])
}
