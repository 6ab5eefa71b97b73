// What an accepted table does: levels and looks by the pattern list alone. Theorems in proofs/. No code stands here.
#![tactic(auto)]
