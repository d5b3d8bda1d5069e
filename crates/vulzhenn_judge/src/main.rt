// The program: a byte that tells the form of the text (`text::form_told`), and behind it the text, on standard input; a witness file on descriptor 3;
// the judge's finding on standard output. What is printed for which bytes is proved in `judgement`; here they are read and written.
#![tactic(auto)]

ghost use Rattle.std.specs.Prelude.{◌≡◌};
ghost use Rattle.report.specs.Report.{put, put_count};
ghost use Rattle.text.specs.Form.{form_told};
ghost use Rattle.text.specs.Offered.{offered};
ghost use Rattle.judgement.specs.Finding.{printed};

use formula::Formula;
use std::io;
use std::io::Write;

const FILE_FILENO: i32 = 3;

fn main(rt: HostRuntime) -> io::Result<()> {
    let mut told = [0u8; 1];
    streams::read_full(&mut rt.stdin(), &mut told)?;
    let byte = told[0];
    let mut input = [0u8; Formula::WORK];
    let size = streams::read_text(&mut rt.stdin(), &mut input)?;
    let mut file = [0u8; judgement::FILE];
    print_finding(&rt, byte, &input, size, &mut file)
}

// Reads the file into the buffer, and prints the finding.
fn print_finding(
    rt: &HostRuntime,
    told: u8,
    input: &[u8],
    size: usize,
    file: &mut [u8],
) -> io::Result<()> {
    let length = streams::read_descriptor(FILE_FILENO, file);
    let mut out = [0u8; judgement::LONGEST];
    let count = put_finding(told, input, size, &file[..length], &mut out);
    rt.stdout().write_all(&out[..count])
}

// What is written for a first byte, a text and a file.
fn put_finding(told: u8, input: &[u8], size: usize, file: &[u8], out: &mut [u8]) -> usize
    ensures value { result ≡ put_count (printed (form_told told) (offered input.now size) file.now) out.old }
    ensures out_after { out.new ≡ put (printed (form_told told) (offered input.now size) file.now) out.old }
{
    let form = text::form_told(told);
    judgement::print(input, size, form, file, out)
}
