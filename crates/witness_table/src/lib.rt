// The run table while a run is found from its end, its places written the last first, in specs/, and its laws, in proofs/. There is no code.
#![tactic(auto)]
