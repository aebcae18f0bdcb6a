// What acceptance of a text guarantees, in specs/, and its proof, in proofs/. There is no code.
#![tactic(auto)]
