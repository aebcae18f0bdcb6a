// Two runs at one desk: what a shuffle of two runs is, in specs/, and that it is a run which leaves the objects of both as their own runs do, in proofs/. There is no code.
#![tactic(auto)]
