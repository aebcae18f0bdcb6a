// The bracket text: its lines, forms and answers, in specs/, and their laws, in proofs/. There is no code.
#![tactic(auto)]
