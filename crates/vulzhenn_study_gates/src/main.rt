// The program: a gate list on standard input, the result of its study or its refusal on standard output.
// What is printed for which bytes is proved in `study_answer`; here they are read and written.
#![tactic(auto)]

use formula::Formula;
use std::io;
use std::io::Write;

fn main(rt: HostRuntime) -> io::Result<()> {
    let mut input = [0u8; Formula::WORK];
    let length = streams::read_text(&mut rt.stdin(), &mut input)?;
    let mut out = [0u8; study_answer::LONGEST];
    let count = study_answer::answer_gates(&input, length, &mut out);
    rt.stdout().write_all(&out[..count])
}
