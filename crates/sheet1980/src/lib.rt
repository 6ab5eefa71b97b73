// The sheet that a word is written on for the 1980 machine. CR 4. It is lent as bytes with the number n of its letters beside it, and a phase
// requires `Sheet n sheet`: the definitions `phase2` and `phase4` take both, and a struct of a lent sheet and n is no plainer, since each
// promise would have to say in that clause's place that the sheet is still the one that was lent.
#![tactic(auto)]

ghost use Rattle.std.specs.Prelude.{◌≡◌, ◌+◌, ◌%◌, length, eqb};
ghost use Rattle.sheet1980.specs.Sheet.{sheet_of, mem, clear, vowel};

// Place k of a sheet is written U + k (specs/Sheet.antt: u).
pub const U: usize = 16;

// The codes of the letters that the phases name.
pub const LETTER_A: u8 = 1;

pub const LETTER_C: u8 = 3;

pub const LETTER_D: u8 = 4;

pub const LETTER_E: u8 = 5;

pub const LETTER_G: u8 = 7;

pub const LETTER_H: u8 = 8;

pub const LETTER_K: u8 = 11;

pub const LETTER_L: u8 = 12;

pub const LETTER_Q: u8 = 17;

pub const LETTER_R: u8 = 18;

pub const LETTER_S: u8 = 19;

pub const LETTER_T: u8 = 20;

pub const LETTER_U: u8 = 21;

// A machine that came to its end on a sheet: what is left of its budget, and what the phases behind it go on with.
#[derive(Clone, Copy)]
pub struct Stopped<T> {
    pub left: usize,
    pub next: T,
}

// The code at a place; outside the sheet 0, as `mem` has it and 004 ("reading outside gives 0"), so this is no Option. Below the sheet it
// returns at once: in one chain of Options the compiler joins both tests, and a long word took a tenth more instructions.
#[tactic(auto, unfolding(crate::specs::Sheet::mem))]
pub fn code_at(sheet: &[u8], i: usize) -> u8
    ensures { result ≡ mem sheet.now i }
{
    let Some(at) = i.checked_sub(U) else {
        return 0; // below it
    };
    sheet.get(at).copied().unwrap_or(0) // past it
}

// The code k places on, 0 outside for the same reason. A sum too large for a usize is outside the sheet as well.
#[tactic(auto, unfolding(crate::specs::Sheet::mem))]
pub fn code_ahead(sheet: &[u8], i: usize, k: usize) -> u8
    ensures { result ≡ mem sheet.now (i + k) }
{
    code_at(sheet, i.saturating_add(k))
}

// Does a scan's operand name the letter at a place? Five bits are compared.
pub fn is_scanned(sheet: &[u8], i: usize, t: u16) -> bool
    ensures { result ≡ eqb (mem sheet.now i % 32) (t % 32) }
{
    code_at(sheet, i) as u16 % 32 == t % 32
}

// Clears a place; outside the sheet nothing is done. By index: `get_mut` promises nothing of what the slice ends as.
#[tactic(auto, unfolding(crate::specs::Sheet::clear))]
pub fn clear_at(sheet: &mut [u8], i: usize)
    ensures { sheet.new ≡ clear sheet.old i }
{
    if let Some(at) = i.checked_sub(U)
        && at < sheet.len()
    {
        sheet[at] = 0;
    }
}

// Is a code a vowel's, or the null code?
#[tactic(auto, unfolding(crate::specs::Sheet::vowel))]
pub fn is_vowel(c: u8) -> bool
    ensures { result ≡ vowel c }
{
    tables1980::has_bit(tables1980::vowel_word(), c)
}

// Writes a word on a sheet of its size.
pub fn write_word(word: &[u8], sheet: &mut [u8])
    requires { length sheet.old ≡ length word.now + 2 }
    ensures { sheet.new ≡ sheet_of word.now }
{
    sheet[0] = 0;
    for (i, letter) in word.iter().enumerate() {
        sheet[i + 1] = *letter % 32;
    }
    sheet[word.len() + 1] = 0;
}
