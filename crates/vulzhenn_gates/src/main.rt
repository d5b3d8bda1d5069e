// The program: a gate list on standard input, the result of its circuit or its refusal on standard output.
// What is printed for which bytes is proved in `answer`; here they are read and written.
#![tactic(auto)]

use formula::Formula;
use std::io;
use std::io::Write;

fn main(rt: HostRuntime) -> io::Result<()> {
    // The text, and once it is read the run's work area: one array less on the stack, whose every page costs time at the start.
    let mut area = [0u8; Formula::WORK];
    let length = streams::read_text(&mut rt.stdin(), &mut area)?;
    let mut out = [0u8; answer::LONGEST];
    let count = answer::answer_gates_within(&mut area, length, &mut out);
    rt.stdout().write_all(&out[..count])
}
