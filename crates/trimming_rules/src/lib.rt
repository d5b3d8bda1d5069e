#![tactic(auto)]

// Trimming as a definition (specs/Trimming.antt), and the theorems on it: the verdict stays, trimming twice is trimming once, what a run
// and a judge say of the trimmed formula holds of the lent one, the trimmings worked by hand. There is no code here. `trimming` is proved
// equal to the definition.
