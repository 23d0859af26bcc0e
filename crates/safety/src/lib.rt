// The theory of commits, recovery and whole runs (demand 3) over the definitions in `model`: it stands in proofs/. No code stands here.
#![tactic(auto)]
