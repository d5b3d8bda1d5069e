#![tactic(auto)]

// The two-set expansion: rows, copies, models and the first model as definitions (specs/), and the theorems on them (proofs/).
// There is no code here. The search and the run are proved equal to these definitions.
