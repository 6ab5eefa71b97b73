// Liang's method as definitions alone, in specs/: the patterns of a text, the levels, and the breaks. No code stands here.
#![tactic(auto)]
