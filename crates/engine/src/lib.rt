// The engine: the model search (01, 'Copies and models') and the run over it (01, 'The run'). Public are `search::first_model`, which the judge asks too,
// and `run::run` with the numbers of its answers; each is promised, for all that is lent, by 01's own definitions (specs/Search.antt, specs/Outcome.antt,
// specs/Ended.antt). All else is private: what the search's parts promise each other stands in specs/Private and is for reading the proofs alone.
#![tactic(auto)]

pub mod run;
pub mod search;
