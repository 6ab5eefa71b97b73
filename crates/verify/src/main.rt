// Checks a table with a pattern list. Its arguments are the pattern file and the table file. It writes "accepted", or "!", number
// and place; what the system refused, and how it is called, it tells on standard error.
#![tactic(auto)]

use console::Stream;

// How many files the arguments name.
const FILES: usize = 2;

// What the checker says.
fn print_check(rt: &HostRuntime, patterns: &[u8], table: &[u8]) {
    if let Err(g) = checker::check(patterns, table) {
        console::print_refusal(rt, b"verify", Stream::Output, g);
        return;
    }
    console::print(rt, b"verify", Stream::Output, b"accepted\n");
}

// Each file is read with room for one byte more than its limit, so that a longer one is told from one that has just as many.
fn check_files(rt: &HostRuntime) {
    let mut patterns = [0u8; base::PATTERN_TEXT + 1];
    let mut table = [0u8; base::PACK_ROOM + 1];
    let first = console::read_argument(rt, Some(b"verify"), 1, &mut patterns);
    let second = console::read_argument(rt, Some(b"verify"), 2, &mut table);
    let (Some(p), Some(t)) = (first, second) else {
        console::print_undone(rt, b"verify", Stream::Output);
        return;
    };
    print_check(rt, &patterns[..p], &table[..t]);
}

fn main(rt: HostRuntime) {
    let given = console::has_exactly(&rt, FILES);
    if !given || console::is_option(&rt, 1) || console::is_option(&rt, 2) {
        console::complain(&rt, b"usage: verify LIST TABLE\n");
        console::print_undone(&rt, b"verify", Stream::Output);
        return;
    }
    check_files(&rt);
}
