// The checker: whether a table is right for a pattern list.
#![tactic(auto)]

ghost use Rattle.std.specs.Prelude.{◌≡◌, [], ◌≤◌, ◌<◌, length};
ghost use Rattle.base.specs.Grounds.{Finds, says, first_of};
ghost use Rattle.base.specs.Limits.{pattern_limit};
ghost use Rattle.words.specs.Symbols.{symbols_of};
ghost use Rattle.liang.specs.Patterns.{levels_from, patterns_of};
ghost use Rattle.table.specs.Table.{cell_size};
ghost use Rattle.trie.specs.Sound.{sound};
ghost use Rattle.rightness.specs.Test.{kinds_from, kinds_test, exact_test, none_between, passed_over, follow, root_at, paths_test, check_grounds};
ghost use Rattle.checker.specs.Post.{same_levels};

use base::Ground;
use lists::PatternList;
use rightness::{Beside, Node};
use table::{Cell, Entry};

// The kinds of so many records that stand size bytes apart.
#[tactic(auto, using(crate::proofs::Laws::kinds_turns))]
fn are_kinds(bytes: &[u8], size: usize, kind: u8, count: u16) -> bool
    requires { size ≤ cell_size }
    ensures { result ≡ kinds_from size kind bytes.now 0 count }
{
    for n in 0..count as usize {
        if bytes.get(size * n).copied().unwrap_or(0) != kind {
            return false;
        }
    }
    true
}

// Do a table's cells and entries have their kinds?
#[tactic(auto, unfolding(rightness::specs::Test::kinds_test))]
fn has_kinds(cells: &[u8], entries: &[u8], c: u16, e: u16) -> bool
    ensures { result ≡ kinds_test cells.now entries.now c e }
{
    are_kinds(cells, table::CELL_SIZE, table::CELL_KIND, c)
        && are_kinds(entries, table::ENTRY_SIZE, table::ENTRY_KIND, e)
}

// A chain without a fault, for a path of m symbols. The number falls at each call, the last thing done, which takes no stack.
fn is_sound(entries: &&[u8], k: u16, m: usize) -> bool
    ensures { result ≡ sound entries.now.now m k }
{
    if k == 0 {
        return true;
    }
    let Some(
        Entry {
            distance,
            level,
            next,
        },
    ) = table::entry_at(*entries, k)
    else {
        return false;
    };
    if level < 1 {
        return false;
    }
    if base::LEVEL_LIMIT < level {
        return false;
    }
    if m < distance as usize {
        return false;
    }
    if k <= next {
        return false;
    }
    is_sound(entries, next, m)
}

// Do the levels of a chain, in a room as walk::chain_levels leaves it, agree with a line's?
#[tactic(auto, using(crate::proofs::Laws::level_turns))]
fn are_levels(line: &[u8], room: &[u8; base::ROOM_SIZE]) -> bool
    requires { length (symbols_of line.now) ≤ pattern_limit }
    ensures { result ≡ same_levels room.now 0 (levels_from 0 line.now) }
{
    let mut gap: usize = 0;
    let mut level: u8 = 0;
    for b in line {
        if words::is_digit(*b) {
            level = patterns::digit_value(*b);
            continue;
        }
        if words::symbol_of(*b) == 0 {
            continue;
        }
        gap += 1;
        if room[gap] != level {
            return false;
        }
        level = 0;
    }
    room[gap + 1] == level
}

// Is an output exact for a pattern line of m symbols?
#[tactic(auto, using(crate::proofs::Laws::exact_levels, crate::proofs::Laws::exact_faulty))]
fn is_exact(entries: &[u8], line: &[u8], m: usize, output: u16) -> bool
    requires { (m ≡ length (symbols_of line.now)) × (m ≤ pattern_limit) }
    ensures { result ≡ exact_test entries.now (levels_from 0 line.now) m output }
{
    if !is_sound(&entries, output, m) {
        return false;
    }
    let mut room = [0u8; base::ROOM_SIZE];
    walk::chain_levels(entries, output, m as u8, &mut room);
    are_levels(line, &room)
}

// Does the table go on from a node with no symbol between two others?
#[tactic(auto, using(crate::proofs::Laws::none_turns))]
fn is_none_between(cells: &[u8], node: Node, low: u8, high: u8) -> bool
    ensures { result ≡ none_between cells.now node low high }
{
    if node.leaf {
        return true;
    }
    for symbol in low as u16 + 1..high as u16 {
        if table::look_at(cells, node.base, symbol as u8).is_some() {
            return false; // a path that the list hasn't
        }
    }
    true // nothing matches
}

// Does the table go on with none of the symbols that the list passes over at the node of m symbols of a line that goes on with s?
// Below s they begin behind the symbol with which the line above left the node, or with the first where it hasn't the node. Above s
// they are passed over where the line below hasn't the node.
fn is_passed_over(cells: &[u8], beside: Beside, node: Node, m: usize, s: u8) -> bool
    ensures { result ≡ passed_over cells.now beside node m s }
{
    if m == beside.known && !is_none_between(cells, node, beside.low, s) {
        return false;
    }
    if beside.known < m && !is_none_between(cells, node, 0, s) {
        return false;
    }
    m <= beside.kept || is_none_between(cells, node, s, base::SYMBOL_LIMIT + 1)
}

// A pattern line followed through the table, between what it shares with its neighbours. The output of a beginning that the line
// above hasn't is 0, and that of the whole line exact.
fn is_followed(cells: &[u8], entries: &[u8], root: u16, own: &[u8], beside: Beside) -> bool
    requires { length (symbols_of own.now) ≤ pattern_limit }
    ensures { result ≡ follow cells.now entries.now (levels_from 0 own.now) beside (root_at root) 0 0 (symbols_of own.now) }
{
    let mut node = Node {
        leaf: false,
        base: root,
    };
    let mut output: u16 = 0;
    let mut m: usize = 0;
    for b in own {
        let symbol = words::symbol_of(*b);
        if symbol == 0 {
            continue;
        }
        if beside.known < m && output != 0 {
            return false;
        }
        if !is_passed_over(cells, beside, node, m, symbol) {
            return false;
        }
        if node.leaf {
            return false;
        }
        let Some(cell) = table::look_at(cells, node.base, symbol) else {
            return false;
        };
        node = Node {
            leaf: cell.link == 0,
            base: cell.link,
        };
        output = cell.output;
        m += 1;
    }
    if !is_exact(entries, own, m, output) {
        return false;
    }
    if base::PATTERN_LIMIT <= m {
        return true;
    }
    is_passed_over(cells, beside, node, m, 0)
}

// Are a table's paths from a root right for a good list? Every line is followed through the table; behind the last one, the root
// goes on with no further symbol.
fn is_right(list: &PatternList, cells: &[u8], entries: &[u8], root: u16) -> bool
    ensures { result ≡ paths_test (patterns_of list.now.text.now) cells.now entries.now root }
{
    let mut known: usize = 0;
    let mut low: u8 = 0;
    let mut lines = list.text.split_inclusive(|b| *b == words::LINE_FEED);
    let mut next = lines.next();
    while let Some(own) = next {
        next = lines.next();
        let below = patterns::part_lines(own, next.unwrap_or(&[]));
        let beside = Beside {
            known,
            low,
            kept: below.shared,
        };
        if !is_followed(cells, entries, root, own, beside) {
            return false;
        }
        known = below.shared;
        low = below.symbol;
    }
    let node = Node {
        leaf: false,
        base: root,
    };
    is_none_between(cells, node, low, base::SYMBOL_LIMIT + 1)
}

// The checker: 8, 7, 9, 12; it accepts where nothing is refused.
pub fn check(text: &[u8], table: &[u8]) -> Result<(), Ground>
    ensures { says result ≡ first_of (Finds []) (check_grounds text.now table.now) }
{
    lists::judge_patterns(text)?;
    table::judge_table(table)?;
    let cells = table::cells_of(table);
    let entries = table::entries_of(table);
    if !has_kinds(
        cells,
        entries,
        table::cell_count(table),
        table::entry_count(table),
    ) {
        return Err(Ground::NotRight); // a record of another kind
    }
    if !is_right(&PatternList { text }, cells, entries, table::ROOT_BASE) {
        return Err(Ground::NotRight); // other paths than the list's
    }
    Ok(())
}
