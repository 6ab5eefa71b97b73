// The lookup of a word's exception line.
#![tactic(auto)]

ghost use Rattle.std.specs.Prelude.{◌+◌, ◌*◌, ◌≤◌, not, ◌&&◌, cond, [], ◌≡◌, eqb, leb, length, get_or, drop};
ghost use Rattle.std.specs.Int.Bits.{bit_or};
ghost use Rattle.base.specs.Grounds.{Finds, says, first_of};
ghost use Rattle.words.specs.Symbols.{small, lower, symbol_of, symbols_of};
ghost use Rattle.words.specs.Words.{word_symbols};
ghost use Rattle.base.specs.Tests.{same_list};
ghost use Rattle.lookup.specs.Find.{find, find_either};
ghost use Rattle.lookup.specs.Lookup.{lookup_grounds, line_said, lookup_said, locate, line_of, place_of};

use base::Ground;

// Where a line stands in a list, without its line feed.
#[derive(Clone, Copy)]
pub struct Span {
    pub start: usize,
    pub end: usize,
}

// Where a word's line stands in the two lists. An Option of the first two would have the reader look twice for the third answer.
// The two places stand in each, as the definitions have them (`find_either`, `line_of`, `place_of`).
#[derive(Clone, Copy)]
pub enum Located {
    Customer { start: usize, end: usize },
    House { start: usize, end: usize },
    Nowhere,
}

// The bit that a small letter has and its capital lacks.
const SMALL_BIT: u8 = 32;

// A number past every byte.
const PAST_BYTES: u32 = 256;

// A byte of the word as it is held against a small letter, which it meets exactly if it is that letter or its capital.
fn folded(a: u8) -> u8
    ensures { result ≡ bit_or a 32 }
{
    a | SMALL_BIT
}

// How far a byte of the line is moved that the word's byte meets: out of the letters' reach.
fn met_by(a: u8, b: u8) -> u32
    ensures { result ≡ cond (eqb (bit_or a 32) b) 256 0 }
{
    if folded(a) == b {
        return PAST_BYTES;
    }
    0
}

// Is b, a byte of the line, a letter that the word's byte a isn't? Two tests would be two branches, one of them decided by where the
// hyphens stand, which no processor foresees; a test of one number is one.
fn parts(a: u8, b: u8) -> bool
    ensures { result ≡ (small b && not (eqb (lower a) b)) }
{
    let left = b as u32 + met_by(a, b);
    if left < b'a' as u32 {
        return false;
    }
    left <= b'z' as u32
}

// Is this a symbol that is no letter? In a good line it is an apostrophe.
fn is_other(b: u8) -> bool
    ensures { result ≡ (not (small b) && not (eqb (symbol_of b) 0)) }
{
    if words::is_small(b) {
        return false;
    }
    words::symbol_of(b) != 0
}

// How many letters a byte of a line is: one or none.
fn letters_in(b: u8) -> usize
    ensures { result ≡ cond (small b) 1 0 }
{
    usize::from(words::is_small(b))
}

// Has the line, from a place on, the symbols of the word from its place on? This serves every line.
fn same_symbols(word: &[u8], line: &[u8], from: usize, at: usize) -> bool
    requires { (from ≤ length word.now) × (at ≤ length line.now) }
    ensures { result ≡ same_list (word_symbols (drop from word.now)) (symbols_of (drop at line.now)) }
{
    let letters = word[from..]
        .iter()
        .map(|b| words::symbol_of(words::lower_of(*b)));
    let symbols = line[at..]
        .iter()
        .map(|b| words::symbol_of(*b))
        .filter(|s| *s != 0);
    letters.cmp(symbols).is_eq()
}

// The same from one place of both on, and quicker while the line has letters and hyphens and the word isn't used up.
fn same_letters(word: &[u8], line: &[u8], start: usize) -> bool
    requires { (start ≤ length word.now) × (start ≤ length line.now) }
    ensures { result ≡ same_list (word_symbols (drop start word.now)) (symbols_of (drop start line.now)) }
{
    let mut i = start;
    let mut j = start;
    // Word and line go on at their own pace, with no branch at a hyphen, and where this stops both places are handed on: no iterator does so.
    while i < word.len() {
        if line.len() <= j {
            return false;
        }
        if is_other(line[j]) {
            return same_symbols(word, line, i, j);
        }
        if parts(word[i], line[j]) {
            return false;
        }
        i += letters_in(line[j]);
        j += 1;
    }
    same_symbols(word, line, i, j)
}

// Two bytes in one number, the first one low: by hand, so that the compiler reads both from memory at once.
fn pair_of(a: u8, b: u8) -> u32
    ensures { result ≡ a + b * 256 }
{
    a as u32 + b as u32 * PAST_BYTES
}

// Do two bytes of the word meet two of the line? They are compared at once, for speed: two tests would be two branches in every line.
fn meet_both(a: u8, b: u8, c: u8, d: u8) -> bool
    ensures { result ≡ (eqb (bit_or a 32) c && eqb (bit_or b 32) d) }
{
    pair_of(folded(a), folded(b)) == pair_of(c, d)
}

// Has the word two bytes, and does the line begin with two letters?
fn has_pairs(word: &[u8], line: &[u8]) -> bool
    ensures { result ≡ (leb 2 (length word.now) && (leb 2 (length line.now) && (small (get_or line.now 0 0) && small (get_or line.now 1 0)))) }
{
    if word.len() < 2 {
        return false;
    }
    if line.len() < 2 {
        return false;
    }
    if !words::is_small(line[0]) {
        return false;
    }
    words::is_small(line[1])
}

// Has this line the word's letters, whatever their case? Most lines part from a word in its first two letters, so these come first.
pub fn is_line_of(word: &[u8], line: &[u8]) -> bool
    ensures { result ≡ same_list (word_symbols word.now) (symbols_of line.now) }
{
    if !has_pairs(word, line) {
        return same_letters(word, line, 0);
    }
    if !meet_both(word[0], word[1], line[0], line[1]) {
        return false;
    }
    same_letters(word, line, 2)
}

// The word's line in a list.
pub fn find_line(word: &[u8], text: &[u8]) -> Option<Span>
    ensures { result ≡ find word.now text.now }
{
    // The place is the answer, and the library's lines don't tell theirs: so it is summed.
    let mut start = 0;
    for line in text.split_inclusive(|b| *b == words::LINE_FEED) {
        let end = start + line.len();
        if is_line_of(word, line) {
            return Some(Span {
                start,
                end: end - 1,
            });
        }
        start = end;
    }
    None
}

// The word's line in lists that are known to be good: the customer's before the house's.
pub fn find_either(word: &[u8], customer: &[u8], house: &[u8]) -> Located
    ensures { result ≡ find_either word.now customer.now house.now }
{
    if let Some(Span { start, end }) = find_line(word, customer) {
        return Located::Customer { start, end };
    }
    if let Some(Span { start, end }) = find_line(word, house) {
        return Located::House { start, end };
    }
    Located::Nowhere
}

// Grounds 2, 4, 3, 8 and 6.
pub fn judge_lookup(word: &[u8], customer: &[u8], house: &[u8]) -> Result<(), Ground>
    ensures { says result ≡ first_of (Finds []) (lookup_grounds word.now customer.now house.now) }
{
    words::judge_word(word, base::WORD_LIMIT)?;
    lists::judge_lists(customer, house)
}

// Where the lookup finds the word's line; nowhere on a refusal.
pub fn locate_line(word: &[u8], customer: &[u8], house: &[u8]) -> Located
    ensures { line_said result ≡ lookup_said word.now customer.now house.now }
{
    match judge_lookup(word, customer, house) {
        Ok(()) => find_either(word, customer, house),
        Err(_) => Located::Nowhere,
    }
}

// The lookup: the word's line without its line feed, as a part of the list that held it. No Option: where there is none, or on a refusal, the part
// is empty, as `line_of` and `place_of` have it.
pub fn lookup<'a>(word: &[u8], customer: &'a [u8], house: &'a [u8]) -> &'a [u8]
    ensures line { result.now ≡ line_of customer.now house.now (locate word.now customer.now house.now) }
    ensures place { result.ref_ptr ≡ place_of customer.entry.ref_ptr house.entry.ref_ptr (locate word.now customer.now house.now) }
{
    let at = locate_line(word, customer, house);
    match at {
        Located::Customer { start, end } => &customer[start..end],
        Located::House { start, end } => &house[start..end],
        Located::Nowhere => &customer[..0],
    }
}
