// What the customer's three demands say, as theorems about the promises of the calls, in proofs/. No code stands here.
#![tactic(auto)]
