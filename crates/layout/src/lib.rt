// First fit as document 01 says it, without bytes and limits: definitions in specs/, theorems in proofs/. No code stands here.
#![tactic(auto)]
