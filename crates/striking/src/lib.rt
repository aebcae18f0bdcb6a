// Lines to strike, document 02's R-8 and R-10: what the answers mean, in specs/, and the theory over it, in proofs/. There is no code.
#![tactic(auto)]
