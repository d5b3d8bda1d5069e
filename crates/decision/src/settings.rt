// The settings under which programs, commands and C functions decide, four numbers a setting: whether the formula is trimmed first, the preference byte
// (256 for house preferences), how often the universal table is cleared, the limit of rounds.

// The limit of rounds.
pub const ROUNDS: u32 = 1_000;

// 01's run: as lent, house preferences, never cleared.
pub const RUN: [u32; 4] = [0, 256, 0, ROUNDS];

// A study.
pub const STUDY: [u32; 16] = [
    1, // trimmed, house preferences, the universal table cleared in every round
    256, 1, ROUNDS, 1, // trimmed, every preference 0, never cleared
    0, 0, ROUNDS, 0, // as lent, every preference 1, cleared in every round
    1, 1, ROUNDS, 0, // 01's run
    256, 0, ROUNDS,
];

// A study whose rows bear out the verdict of the formula as lent: no setting trims.
pub const WITNESS: [u32; 16] = [
    0, // house preferences, the universal table cleared in every round
    256, 1, ROUNDS, 0, // every preference 0, never cleared
    0, 0, ROUNDS, 0, // every preference 1, cleared in every round
    1, 1, ROUNDS, 0, // 01's run
    256, 0, ROUNDS,
];
