// First fit is right: proofs alone, in proofs/. No code stands here.
#![tactic(auto)]
