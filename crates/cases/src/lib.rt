// The cases that document 01 marks P, as one table in specs/Cases.antt and one proof in proofs/Computed.antt. No code stands here.
#![tactic(auto)]
