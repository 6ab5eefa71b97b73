// When a table is right for a list, as document 01 says it and as the checker computes it: what the checker keeps on its way.
#![tactic(auto)]

// Where a path ends: its base, and whether it is a leaf, from which nothing goes on. A flag and no Option of the base, since the definitions
// `linked` and `root_at` give each node both (specs/Test.antt).
#[derive(Clone, Copy)]
pub struct Node {
    pub leaf: bool,
    pub base: u16,
}

// What a pattern has in common with its neighbours: how many symbols with the pattern above, with which symbol that one goes on
// behind them (0 where it ends there), and how many symbols with the pattern below. `low` is no Option, since 0 stands below every symbol:
// `none_between`, which asks the symbols above it (specs/Test.antt, passed_over and besides), begins with the first one in that case.
#[derive(Clone, Copy)]
pub struct Beside {
    pub known: usize,
    pub low: u8,
    pub kept: usize,
}
