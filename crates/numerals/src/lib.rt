// Numbers, words and lines as they are written and read again: laws between the definitions of `report`, which writes, and `lines`, which reads. There is
// no code here.
#![tactic(auto)]
