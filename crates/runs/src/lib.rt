// Definitions and theorems alone: the words of a running text.
#![tactic(auto)]
