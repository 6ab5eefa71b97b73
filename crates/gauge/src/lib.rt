// Which break fits the strip: a word's letters and its hyphen measured against a line. CR 2.
#![tactic(auto)]

ghost use Rattle.std.specs.Prelude.{◌≡◌, true, not, ◌&&◌, cond, [], ◌≤◌, eqb, length, Some};
ghost use Rattle.base.specs.Limits.{room_size, word_limit, width_count};
ghost use Rattle.base.specs.Grounds.{Finds, says, first_of};
ghost use Rattle.words.specs.Words.{judge_word, word_byte};
ghost use Rattle.gauge.specs.Widths.{bad_width, any_bad, letter_width, fits_in};
ghost use Rattle.gauge.specs.Fit.{given, fit_values, fit_grounds, fit_said, fit_answer};

use base::Ground;
use words::Word;

// The widths of a hyphen and of a line, in millimetres. The letters' widths stand beside it, and go with it from call to call: they are the
// caller's own array (CR 2), and what is promised names the two apart.
#[derive(Clone, Copy)]
pub struct Gauge {
    pub hyphen: f64,
    pub line: f64,
}

// What the call finds: the whole word fits, the last break that fits with its hyphen, told by the letters before it, or none fits.
#[derive(Clone, Copy)]
pub enum Fitting {
    Whole,
    Break(usize),
    Nowhere,
}

// What came out, by its number (specs/Fit.antt): the bits of the C interface tell it.
pub const WHOLE_OUTCOME: usize = 1;

pub const BREAK_OUTCOME: usize = 2;

pub const NONE_OUTCOME: usize = 3;

// The ends of the range of a width (specs/Widths.antt: zero_width, width_limit).
const ZERO_WIDTH: f64 = 0.0;

const WIDTH_LIMIT: f64 = 1000.0;

// Is a width outside its range, or not a number?
fn is_bad_width(width: f64) -> bool
    ensures { result ≡ bad_width width }
{
    if width < ZERO_WIDTH {
        return true;
    }
    if WIDTH_LIMIT < width {
        return true;
    }
    width.is_nan()
}

fn any_bad(widths: &[f64]) -> bool
    ensures { result ≡ any_bad widths.now }
{
    widths.iter().any(|w| is_bad_width(*w))
}

// Is one of all given widths bad?
fn are_bad_widths(gauge: Gauge, widths: &[f64]) -> bool
    ensures { result ≡ any_bad (given gauge widths.now) }
{
    if is_bad_width(gauge.hyphen) {
        return true;
    }
    if is_bad_width(gauge.line) {
        return true;
    }
    any_bad(widths)
}

// The grounds of the call for a room of this size: 5, 2, 4, 3, 13. All but the last are those of `hyphenation::judge_word_alone`, which this crate
// does without: it stands beside hyphenation, on the judged word alone.
pub fn judge_fit(
    gauge: Gauge,
    widths: &[f64; base::WIDTH_COUNT],
    word: &[u8],
    size: usize,
) -> Result<(), Ground>
    ensures { says result ≡ first_of (Finds []) (fit_grounds gauge widths.now word.now size) }
{
    if size < base::ROOM_SIZE {
        return Err(Ground::RoomShort);
    }
    words::judge_word(word, base::WORD_LIMIT)?;
    if are_bad_widths(gauge, &widths[..]) {
        return Err(Ground::BadWidth);
    }
    Ok(())
}

// The width of a letter of either case, or of an apostrophe, whose width stands behind the letters'. Here and in `find_fit` the widths are a
// slice and its length a clause: of an array, whose length its type has, no fact says so where what is promised reads it at another default.
#[tactic(auto, using(crate::proofs::Laws::apostrophe_is, crate::proofs::Laws::letter_number, crate::proofs::Laws::letter_is, words::proofs::Laws::byte_letter))]
fn letter_width(widths: &[f64], b: u8) -> f64
    requires { (length widths.now ≡ width_count) × (word_byte b ≡ true) }
    ensures { result ≡ letter_width widths.now b }
{
    if b == words::APOSTROPHE {
        return widths[base::LETTER_LIMIT as usize];
    }
    let number = words::letter_symbol(b) as usize;
    widths[number - 1]
}

fn fits_in(line: f64, width: f64) -> bool
    ensures { result ≡ fits_in line width }
{
    !(line < width)
}

// The last break so far: gap i, where it is marked and fits, else the one before.
#[tactic(auto, using(crate::proofs::Laws::break_unmarked, crate::proofs::Laws::break_fits_lem, crate::proofs::Laws::break_misfits))]
fn last_break(mark: u8, fits: bool, i: usize, before: Option<usize>) -> Option<usize>
    ensures { result ≡ cond (not (eqb mark 0) && fits) (Some i) before }
{
    if mark == 0 {
        return before;
    }
    if fits {
        return Some(i);
    }
    before
}

// What is found of a judged word in a judged room.
#[tactic(auto, using(words::proofs::Laws::word_some, words::proofs::Laws::word_fits, words::proofs::Laws::word_byte_lem))]
fn find_fit(gauge: Gauge, widths: &[f64], word: &Word, room: &[u8]) -> Fitting
    requires { (length widths.now ≡ width_count) × (room_size ≤ length room.now) }
    ensures { fit_said (Ok result) ≡ Finds (fit_values gauge widths.now word.now.bytes.now room.now) }
{
    let hyphen = gauge.hyphen;
    let line = gauge.line;
    let last = word.bytes.len() - 1;
    let mut width = ZERO_WIDTH;
    let mut found = None;
    for i in 0..last {
        width = width + letter_width(widths, word.bytes[i]);
        found = last_break(room[i + 1], fits_in(line, width + hyphen), i + 1, found);
    }
    if fits_in(line, width + letter_width(widths, word.bytes[last])) {
        return Fitting::Whole;
    }
    match found {
        Some(gap) => Fitting::Break(gap),
        None => Fitting::Nowhere,
    }
}

// Which break of a word fits: the room has the word's breaks, and nothing is written.
pub fn fit_word(
    gauge: Gauge,
    widths: &[f64; base::WIDTH_COUNT],
    word: &[u8],
    room: &[u8],
) -> Result<Fitting, Ground>
    ensures { fit_said result ≡ fit_answer gauge widths.now word.now room.now }
{
    judge_fit(gauge, widths, word, room.len())?;
    Ok(find_fit(gauge, &widths[..], &Word { bytes: word }, room))
}
