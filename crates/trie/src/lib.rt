// The trie that a packed table holds: its paths, the chains of their outputs, and what they reach. Definitions alone, in specs/.
// No code stands here.
#![tactic(auto)]
