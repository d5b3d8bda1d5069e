// What the tests call of `probe::study_runs` from outside.
ghost use Rattle.std.specs.Prelude.{◌≡◌};
ghost use Rattle.engine.specs.Outcome.{areas};
ghost use Rattle.study.specs.Study.{studied};
ghost use Rattle.probe.specs.Numbers.{Reported};

use rows::Row;

#[unsafe(no_mangle)]
pub extern "C" fn probe_study(
    kinds: &[u8],
    literals: &[i32],
    settings: &[u32],
    universal_rows: &mut [u8],
    universal_marks: &mut [u16],
    universal_counts: &mut [u32],
    existential_rows: &mut [u8],
    existential_marks: &mut [u16],
    existential_counts: &mut [u32],
    work: &mut [u8],
    round: &mut u32,
    universal: &mut usize,
    existential: &mut usize,
    opening: &mut Row,
    block: &mut usize,
    setting: &mut usize,
) -> u64
    ensures reported { Reported (studied kinds.now literals.now settings.now
        (areas universal_rows.old universal_marks.old universal_counts.old existential_rows.old existential_marks.old existential_counts.old
        work.old)).result.outcome result round.new universal.new existential.new opening.new block.new }
    ensures setting { setting.new ≡ (studied kinds.now literals.now settings.now
        (areas universal_rows.old universal_marks.old universal_counts.old existential_rows.old existential_marks.old existential_counts.old
        work.old)).result.setting }
    ensures left { areas universal_rows.new universal_marks.new universal_counts.new existential_rows.new existential_marks.new
        existential_counts.new work.new ≡ (studied kinds.now literals.now settings.now
        (areas universal_rows.old universal_marks.old universal_counts.old existential_rows.old existential_marks.old existential_counts.old
        work.old)).areas_left }
{
    probe::study_runs::probe_study(
        kinds,
        literals,
        settings,
        universal_rows,
        universal_marks,
        universal_counts,
        existential_rows,
        existential_marks,
        existential_counts,
        work,
        round,
        universal,
        existential,
        opening,
        block,
        setting,
    )
}
