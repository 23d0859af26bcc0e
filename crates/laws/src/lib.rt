// Laws of the definitions in `model`, for the code's proofs and for the theory alike: they stand in proofs/. No code stands here.
#![tactic(auto)]
