// The expansion of a formula over a witness's rows as plain clauses, and as a DIMACS text that every SAT solver reads: definitions (specs/), and
// what they are worth (proofs/): unsatisfiable exactly if the judge accepts the claim. There is no code here; `cnf_text` writes this text.
#![tactic(auto)]
