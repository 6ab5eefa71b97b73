// The walks over a word's row: levels raised in a room, and the count of looks.
#![tactic(auto)]

ghost use Rattle.std.specs.Prelude.{◌≡◌, ◌+◌, ◌≤◌, max, length, take, replicate};
ghost use Rattle.base.specs.Limits.{word_limit, row_limit, room_size, pattern_limit};
ghost use Rattle.words.specs.Words.{judge_word, row_of};
ghost use Rattle.walk.specs.Chain.{setting, chain};
ghost use Rattle.walk.specs.Walk.{looks};
ghost use Rattle.walk.specs.Raise.{raise, raise_all};
ghost use Rattle.walk.specs.Post.{Walked};

use table::{Cell, Entry, Trie};
use words::Word;

// One level at the gap with so many symbols before it, where it is an inner one. It is always stored: whether a level raises
// another can't be foreseen, and a store costs less than a branch.
#[tactic(auto, using(crate::proofs::Laws::raise_low, crate::proofs::Laws::raise_high, crate::proofs::Laws::raise_highest))]
fn raise_to(room: &mut [u8; base::ROOM_SIZE], n: usize, before: usize, level: u8)
    requires { n ≤ room_size }
    ensures { room.new ≡ raise n (record { before = before; level = level }) room.old }
{
    if before < 2 {
        return;
    }
    if n < before {
        return;
    }
    let gap = before - 1;
    room[gap] = room[gap].max(level);
}

// One entry of a chain, for a path of m symbols that ends after so many symbols of the row.
#[tactic(auto, using(crate::proofs::Laws::entry_low, crate::proofs::Laws::entry_high, crate::proofs::Laws::entry_far, crate::proofs::Laws::entry_sets))]
fn apply_entry(
    room: &mut [u8; base::ROOM_SIZE],
    n: usize,
    m: usize,
    end: usize,
    distance: u8,
    level: u8,
)
    requires { (m ≤ end) × (n ≤ room_size) }
    ensures { room.new ≡ raise_all n (setting m end distance level) room.old }
{
    if level < 1 {
        return;
    }
    if base::LEVEL_LIMIT < level {
        return;
    }
    if m < distance as usize {
        return;
    }
    raise_to(room, n, end - distance as usize, level);
}

// The chain of entries from number k on. The number falls at each call, so a circle ends. The entries are lent by reference, and
// the room is an array: both are then one address, and the call, the last thing done, is compiled to a jump that takes no stack. For the same
// reason n, m and end stay three numbers: a struct of them would go by a copy on the stack.
fn apply_chain(
    entries: &&[u8],
    k: u16,
    room: &mut [u8; base::ROOM_SIZE],
    n: usize,
    m: usize,
    end: usize,
)
    requires { (m ≤ end) × (n ≤ room_size) }
    ensures { room.new ≡ raise_all n (chain entries.now.now m end k) room.old }
{
    if let Some(
        Entry {
            distance,
            level,
            next,
        },
    ) = table::entry_at(*entries, k)
    {
        apply_entry(room, n, m, end, distance, level);
        if next < k {
            apply_chain(entries, next, room, n, m, end);
        }
    }
}

// The walks from every place of a row of n letters and two edges. The first mismatch ends a walk; each look counts one.
fn walk_row(trie: &Trie, row: &[u8], n: usize, room: &mut [u8; base::ROOM_SIZE]) -> usize
    requires { (length row.now ≤ row_limit) × (n ≤ room_size) }
    ensures { Walked trie.now.cells.now trie.now.entries.now trie.now.root n row.now room.old result room.new }
{
    let Trie {
        cells,
        entries,
        root,
    } = *trie;
    let mut looks: usize = 0;
    for place in 0..row.len() {
        let mut base = root;
        let mut m: usize = 0;
        let mut end = place;
        // It has four ends, and two of them are numbers of turns. As a `for` over `row[place..].iter().take(base::PATTERN_LIMIT)`, or over
        // the range of m, with the looks counted in the turn, the walk took 21 % and 13 % more instructions (callgrind, a transcript in Rust).
        let walked = 'walk: loop {
            let symbol = row[end];
            let Some(Cell { link, output }) = table::look_at(cells, base, symbol) else {
                break 'walk m + 1;
            };
            m += 1;
            end += 1;
            apply_chain(&entries, output, room, n, m, end);
            if link == 0 {
                break 'walk m;
            }
            if row.len() <= end {
                break 'walk m;
            }
            if base::PATTERN_LIMIT <= m {
                break 'walk m;
            }
            base = link;
        };
        looks += walked;
    }
    looks
}

// The row of a judged word: its symbols between two edges. The edges have their places by number, and so have the symbols: zipped with
// `row[1..].iter_mut()` they would need no number, but a second account of which bytes of the row are written.
fn fill_row(word: &Word, row: &mut [u8])
    requires { length word.now.bytes.now + 2 ≤ length row.old }
    ensures { take (length word.now.bytes.now + 2) row.new ≡ row_of word.now.bytes.now }
{
    row[0] = base::EDGE;
    for (i, b) in word.bytes.iter().enumerate() {
        row[i + 1] = words::word_symbol(*b);
    }
    row[word.bytes.len() + 1] = base::EDGE;
}

// The walks over a judged word, from the root base: its levels, whatever the room held, and the count of looks. They are raised in an
// array of its own, which takes no register of the walk.
pub fn walk_word(trie: &Trie, word: &Word, room: &mut [u8; base::ROOM_SIZE]) -> usize
    ensures { Walked trie.now.cells.now trie.now.entries.now trie.now.root (length word.now.bytes.now) (row_of word.now.bytes.now) (replicate room_size 0) result room.new }
{
    let mut row = [0u8; base::ROW_LIMIT];
    fill_row(word, &mut row);
    let n = word.bytes.len();
    let end = n + 2;
    let mut levels = [0u8; base::ROOM_SIZE];
    let looks = walk_row(trie, &row[..end], n, &mut levels);
    *room = levels;
    looks
}

// The chain from number k on, for a path of m symbols, in a room whose byte g + 1 is for the gap with g of the symbols before it.
pub fn chain_levels(entries: &[u8], k: u16, m: u8, room: &mut [u8; base::ROOM_SIZE])
    requires { m ≤ pattern_limit }
    ensures { room.new ≡ raise_all (m + 2) (chain entries.now m (m + 2) k) room.old }
{
    let length = m as usize;
    apply_chain(&entries, k, room, length + 2, length, length + 2);
}
