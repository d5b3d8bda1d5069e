#![tactic(auto)]

// Cases as definitions (specs/), and the theorems on them: a formula with its first unknowns set to values is a formula again; it has a verdict by the
// verdicts of both cases of its first unknown; so a study that does not always answer decides every formula by cases; and the rows of the cases, put
// together, are rows for the whole. There is no code here. `restriction` is proved equal to the definition of a formula with unknowns set.
