// The text of a formula as a definition (specs/Writing.antt), and the theorem that it is read as that formula (specs/WritingRight.antt).
// There is no code here. `writer` is proved to write it.
#![tactic(auto)]
