// The checker's test holds exactly where a table is right. Theorems in proofs/. No code stands here.
#![tactic(auto)]
