// What C calls of `door`: each export calls the function of its name there, and promises what that promises.
#![tactic(auto)]

ghost use Rattle.std.specs.Prelude.{◌≡◌};
ghost use Rattle.door.specs.Door.{answer, work_after};
ghost use Rattle.door.specs.Numbers.{NumbersRight};
ghost use Rattle.report.specs.Report.{put, put_count};
ghost use Rattle.judgement.specs.Finding.{left as judge_left};
ghost use Rattle.certificate.specs.Certificate.{output, left as witness_left};
ghost use Rattle.certificate.specs.CertificateRight.{CertificateRight};
ghost use Rattle.door.specs.Witness.{version, judged, JudgedRight};
ghost use Rattle.door.specs.Study.{study_answer, study_work, StudyNumbersRight};

#[unsafe(no_mangle)]
pub extern "C" fn vulzhenn_version() -> u32
    ensures { result ≡ version }
{
    door::vulzhenn_version()
}

// 1 for an accepted claim, 0 for one not borne out, 2 for a file of another formula, or 100 plus the number of the refusal.
#[unsafe(no_mangle)]
pub extern "C" fn vulzhenn_judge(text: &[u8], witness: &[u8], work: &mut [u8]) -> u32
    ensures answered { result ≡ judged text.now witness.now work.old }
    ensures left { work.new ≡ judge_left text.now witness.now work.old }
    ensures right { JudgedRight text.now witness.now work.old }
{
    door::vulzhenn_judge(text, witness, work)
}

// The length of the text's witness file, which is put at the start of `out`; 0 if it does not fit, or there is none.
#[unsafe(no_mangle)]
pub extern "C" fn vulzhenn_witness(text: &[u8], out: &mut [u8], work: &mut [u8]) -> usize
    ensures counted { result ≡ put_count (output text.now work.old).file out.old }
    ensures written { out.new ≡ put (output text.now work.old).file out.old }
    ensures left { work.new ≡ witness_left text.now work.old }
    ensures right { CertificateRight text.now }
{
    door::vulzhenn_witness(text, out, work)
}

// The answer's number, or 100 plus the number of the refusal.
#[unsafe(no_mangle)]
pub extern "C" fn vulzhenn_decide(text: &[u8], work: &mut [u8], limit: u32) -> u32
    ensures answered { result ≡ answer text.now work.old limit }
    ensures left { work.new ≡ work_after text.now work.old limit }
    ensures right { NumbersRight text.now work.old limit }
{
    door::vulzhenn_decide(text, work, limit)
}

// The number of the study's answer, or 100 plus the number of the refusal.
#[unsafe(no_mangle)]
pub extern "C" fn vulzhenn_study(text: &[u8], work: &mut [u8]) -> u32
    ensures answered { result ≡ study_answer text.now work.old }
    ensures left { work.new ≡ study_work text.now work.old }
    ensures right { StudyNumbersRight text.now work.old }
{
    door::vulzhenn_study(text, work)
}
