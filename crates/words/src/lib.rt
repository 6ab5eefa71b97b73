// Letters, symbols and the judgement of a word.
#![tactic(auto)]

ghost use Rattle.std.specs.Prelude.{ℕ, ◌≡◌, true, Ok, [], ◌+◌, ◌<◌, length, get_or, drop};
ghost use Rattle.base.specs.Grounds.{Finds, says, first_of};
ghost use Rattle.words.specs.Symbols.{small, capital, letter, lower, digit, symbol_of};
ghost use Rattle.base.specs.Limits.{word_limit};
ghost use Rattle.words.specs.Words.{Rule, Extends, judge_word, is_between, letter_before, grounds_by, word_grounds, letter_grounds, judge_length, word_byte};

use base::Ground;

// A word that was judged: of at most `word_limit` bytes, letters with apostrophes between them. Whoever makes one has judged it.
#[derive(Clone, Copy)]
pub struct Word<'a> {
    pub bytes: &'a [u8],

    pub ghost judged: { judge_word word_limit bytes.now ≡ Ok tt },
}

// The bytes that the texts name (specs/Symbols.antt: line_feed, hyphen, dot, apostrophe).
pub const LINE_FEED: u8 = 10;

pub const HYPHEN: u8 = 45;

pub const DOT: u8 = 46;

pub const APOSTROPHE: u8 = 39;

#[tactic(auto, unfolding(crate::specs::Symbols::small))]
pub fn is_small(b: u8) -> bool
    ensures { result ≡ small b }
{
    b.is_ascii_lowercase()
}

#[tactic(auto, unfolding(crate::specs::Symbols::capital))]
pub fn is_capital(b: u8) -> bool
    ensures { result ≡ capital b }
{
    b.is_ascii_uppercase()
}

#[tactic(auto, unfolding(crate::specs::Symbols::letter, crate::specs::Symbols::small, crate::specs::Symbols::capital))]
pub fn is_letter(b: u8) -> bool
    ensures { result ≡ letter b }
{
    b.is_ascii_alphabetic()
}

// A digit of a pattern, 1 to 9.
#[tactic(auto, unfolding(crate::specs::Symbols::digit))]
pub fn is_digit(b: u8) -> bool
    ensures { result ≡ digit b }
{
    matches!(b, b'1'..=b'9')
}

#[tactic(auto, unfolding(crate::specs::Symbols::lower, crate::specs::Symbols::capital))]
pub fn lower_of(b: u8) -> u8
    ensures { result ≡ lower b }
{
    b.to_ascii_lowercase()
}

// The symbol that a byte of a text stands for, 0 for none and no Option: the definition has 0, and every list of symbols is filtered by it.
#[tactic(auto, unfolding(crate::specs::Symbols::symbol_of, crate::specs::Symbols::small))]
pub fn symbol_of(b: u8) -> u8
    ensures { result ≡ symbol_of b }
{
    if is_small(b) {
        return b - (b'a' - 1); // a letter's number, from 1
    }
    if b == DOT {
        return base::EDGE;
    }
    if b == APOSTROPHE {
        return base::APOSTROPHE_SYMBOL; // the last one
    }
    0
}

// A letter's symbol, whatever its case: both cases have the same last five bits, and these number the alphabet.
#[tactic(auto, using(crate::proofs::Theorems::letter_bits))]
pub fn letter_symbol(b: u8) -> u8
    requires { letter b ≡ true }
    ensures { result ≡ symbol_of (lower b) }
{
    b % 32
}

// The symbol of a byte of a judged word.
#[tactic(auto, using(crate::proofs::Laws::byte_letter, crate::proofs::Laws::apostrophe_lower))]
pub fn word_symbol(b: u8) -> u8
    requires { word_byte b ≡ true }
    ensures { result ≡ symbol_of (lower b) }
{
    if b == APOSTROPHE {
        return base::APOSTROPHE_SYMBOL; // its five bits are those of a letter
    }
    letter_symbol(b)
}

// Grounds 2 and 4 of a word of this size and at most limit bytes.
#[tactic(auto, unfolding(crate::specs::Words::judge_length))]
fn judge_length(size: usize, limit: usize) -> Result<(), Ground>
    ensures { result ≡ judge_length limit size }
{
    if size == 0 {
        return Err(Ground::WordEmpty);
    }
    if limit < size {
        return Err(Ground::WordLong);
    }
    Ok(())
}

// Grounds 2, 4 and 3 of a word of at most limit bytes. A byte that is no letter is good where `fits` says so of its place; so letters pass
// with one test each.
fn judge_bytes<F: Fn(usize) -> bool>(word: &[u8], limit: usize, fits: F) -> Result<(), Ground>
    requires { (i : ℕ) → i < length word.now → F.pre fits i }
    ensures { (rule : Rule) → Extends rule word.now (λ i r. F.post fits i r) → says result ≡ first_of (Finds []) (grounds_by rule limit word.now) }
{
    judge_length(word.len(), limit)?;
    for (i, b) in word.iter().enumerate() {
        if is_letter(*b) {
            continue;
        }
        if !fits(i) {
            return Err(Ground::NotLetter(i)); // at its own place
        }
    }
    Ok(())
}

// The judgement of a word that may have letters alone, as the machine of 1980 judges it.
pub fn judge_letters(word: &[u8], limit: usize) -> Result<(), Ground>
    ensures { says result ≡ first_of (Finds []) (letter_grounds limit word.now) }
{
    judge_bytes(word, limit, |_| false)
}

// Is the byte at i an apostrophe between two letters?
fn is_between(word: &[u8], i: usize) -> bool
    requires { i < length word.now }
    ensures { result ≡ is_between (letter_before word.now i) (get_or word.now i 0) (drop (i + 1) word.now) }
{
    if word[i] != APOSTROPHE {
        return false;
    }
    if i == 0 {
        return false; // nothing stands before it
    }
    if !is_letter(word[i - 1]) {
        return false;
    }
    if word.len() <= i + 1 {
        return false; // nothing stands behind it
    }
    is_letter(word[i + 1])
}

// The judgement of a word that may have apostrophes between letters.
pub fn judge_word(word: &[u8], limit: usize) -> Result<(), Ground>
    ensures { says result ≡ first_of (Finds []) (word_grounds limit word.now) }
{
    judge_bytes(word, limit, |i| is_between(word, i))
}
