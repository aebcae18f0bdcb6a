// The helpers that stand by while one object is led (R-12, R-13), in specs/, and their theory, in proofs/. There is no code.
#![tactic(auto)]
