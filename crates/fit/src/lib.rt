// The first-fit table for a list: definitions alone, in specs/. No code stands here.
#![tactic(auto)]
