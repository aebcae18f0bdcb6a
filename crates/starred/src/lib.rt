// The starred cases of document 01 in one list, in specs/, and the theorem over it, in proofs/. There is no code.
#![tactic(auto)]
