// The bracket text that a desk for Asbestos labels writes: its forms and bytes, in specs/, and that it is read as the model of crate asbestos, in proofs/. There is no code.
#![tactic(auto)]
