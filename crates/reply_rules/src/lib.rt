// Replies as definitions (specs/), and the theorems on them: the rows of a witness say what the winner is to answer, whatever the other side chooses, and
// whoever answers so ends with the claim. There is no code here. `reply` is proved equal to these definitions.
#![tactic(auto)]
