// Phase 4 of the 1980 machine: the consonant pairs in the middle of a word. CR 4. Labels are 004's.
#![tactic(auto)]

ghost use Rattle.std.specs.Prelude.{◌≡◌, Some, None, cond, ◌&&◌, ◌+◌, ◌<◌, ◌≤◌, eqb};
ghost use Rattle.base.specs.Limits.{word_limit1980};
ghost use Rattle.tables1980.specs.Words.{o};
ghost use Rattle.sheet1980.specs.Sheet.{Sheet};
ghost use Rattle.middle1980.specs.Middles.{joins_h, with_h, is_pair, is_weak, liquid, doubled, ends_in_age, ends_in_est, weakly, paired, between, third, second, pair, ends_in_er, mark_at, scan_vowel, pass_vowel, onward, phase4};
ghost use Rattle.middle1980.specs.Joined.{joined, Placed};

use sheet1980::{
    LETTER_A, LETTER_C, LETTER_E, LETTER_G, LETTER_H, LETTER_K, LETTER_L, LETTER_Q, LETTER_R,
    LETTER_S, LETTER_T, LETTER_U, clear_at, code_ahead, code_at, is_vowel,
};
use tables1980::{has_bit, pair_word};

#[derive(Clone, Copy)]
pub enum Label {
    Marki,
    Phase4c,
    Vowelscan,
    Checkc,
    Phase4v,
    Phase4vc,
    Ertest,
}

// Where phase 4 goes on: the label and its registers.
#[derive(Clone, Copy)]
pub struct Goto {
    pub label: Label,
    pub i: usize,
    pub b: u8,
    pub c: u8,
}

// On to a label; None is phase 5.
pub type Step = Option<Goto>;

impl Goto {
    // On to another label and place.
    fn to(self, label: Label, i: usize) -> Step
        ensures { result ≡ Some (record { label = label; i = i; b = self.b; c = self.c }) }
    {
        Some(Goto { label, i, ..self })
    }
}

// The row of the pair table from which on the weak letters stand.
const WEAK_ROWS: u8 = 26;

// A letter joined with the h behind it; None where no h stands there or the two aren't joined.
#[tactic(auto, using(crate::proofs::Aspirates::joins_rows), unfolding(crate::specs::Middles::joins_h, crate::specs::Middles::with_h))]
fn join_h(c: u8, next: u8) -> Option<u8>
    ensures { result ≡ cond (eqb next (o "h") && joins_h c) (Some (with_h c)) None }
{
    if next != LETTER_H {
        return None; // so for most letters, and the table isn't read
    }
    let h = (pair_word(c) % 8) as u8;
    if h == 0 {
        return None;
    }
    Some(c + h - 2)
}

#[tactic(auto, unfolding(crate::specs::Middles::is_pair))]
fn is_pair(b: u8, c: u8) -> bool
    ensures { result ≡ is_pair b c }
{
    has_bit(pair_word(b), c.saturating_sub(1))
}

#[tactic(auto, unfolding(crate::specs::Middles::is_weak))]
fn is_weak(b: u8, c: u8) -> bool
    ensures { result ≡ is_weak b c }
{
    let weak = ((pair_word(b) >> 3) % 8) as u8;
    has_bit(pair_word(weak + WEAK_ROWS), c.saturating_sub(1))
}

// ll or ss.
#[tactic(auto, using(sheet1980::proofs::Sheets::on_sheet), unfolding(crate::specs::Middles::liquid))]
fn go_liquid(at: Goto, sheet: &[u8]) -> Step
    ensures { joined result sheet.now ≡ liquid at.i at.b sheet.now }
{
    let c = code_ahead(sheet, at.i, 1);
    let at = Goto { c, ..at };
    if c == 0 {
        None
    } else if is_vowel(c) {
        at.to(Label::Ertest, at.i)
    } else {
        at.to(Label::Phase4c, at.i + 2)
    }
}

// A double consonant.
#[tactic(auto, unfolding(crate::specs::Middles::doubled))]
fn go_doubled(at: Goto, sheet: &[u8]) -> Step
    ensures { joined result sheet.now ≡ doubled at.i at.b at.c sheet.now }
{
    if at.c == LETTER_L || at.c == LETTER_S {
        go_liquid(at, sheet)
    } else {
        at.to(Label::Marki, at.i)
    }
}

// Each ending is tested letter by letter, as its definition has it: a list of letters to go through would have to be unrolled again to meet it,
// and "age" ends in finale and "er" in a null code.
#[tactic(auto, using(sheet1980::proofs::Sheets::on_sheet), unfolding(crate::specs::Middles::ends_in_age))]
fn ends_in_age(finale: usize, i: usize, sheet: &[u8]) -> bool
    ensures { result ≡ ends_in_age finale i sheet.now }
{
    code_ahead(sheet, i, 1) == LETTER_A && code_ahead(sheet, i, 2) == LETTER_G && finale == i + 3
}

#[tactic(auto, unfolding(crate::specs::Middles::ends_in_est))]
fn ends_in_est(i: usize, sheet: &[u8]) -> bool
    ensures { result ≡ ends_in_est i sheet.now }
{
    code_ahead(sheet, i, 1) == LETTER_E
        && code_ahead(sheet, i, 2) == LETTER_S
        && code_ahead(sheet, i, 3) == LETTER_T
}

// A weak pair. Here and below, finale, the registers and the sheet stand one beside the other, as the definitions take them: a struct of finale
// and the sheet is no plainer, since go_onward writes the sheet and the others read it.
#[tactic(auto, unfolding(crate::specs::Middles::weakly))]
fn go_weakly(finale: usize, at: Goto, sheet: &[u8]) -> Step
    ensures { joined result sheet.now ≡ weakly finale at.i at.b at.c sheet.now }
{
    if code_ahead(sheet, at.i, 4) == 0
        && (ends_in_age(finale, at.i, sheet) || ends_in_est(at.i, sheet))
    {
        None
    } else {
        at.to(Label::Ertest, at.i)
    }
}

// The second consonant is at.c, and a vowel is wanted k places on.
#[tactic(auto, using(sheet1980::proofs::Sheets::on_sheet), unfolding(crate::specs::Middles::third, crate::specs::Middles::between, crate::specs::Middles::paired))]
fn go_third(finale: usize, at: Goto, k: usize, sheet: &[u8]) -> Step
    ensures { joined result sheet.now ≡ third finale at.i (at.i + k) at.b at.c sheet.now }
{
    let d = code_ahead(sheet, at.i, k);
    if d == 0 {
        return None;
    }
    let j = at.i + k; // a letter's place, so on the sheet
    if !is_vowel(d) {
        at.to(Label::Phase4c, j + 1)
    } else if !is_pair(at.b, at.c) {
        at.to(Label::Marki, at.i)
    } else if !is_weak(at.b, at.c) {
        at.to(Label::Phase4v, j + 1)
    } else {
        go_weakly(finale, Goto { i: j - 1, ..at }, sheet)
    }
}

// The second consonant, joined with an h or not.
#[tactic(auto, unfolding(crate::specs::Middles::second))]
fn go_second(finale: usize, at: Goto, sheet: &[u8]) -> Step
    ensures { joined result sheet.now ≡ second finale at.i at.b at.c sheet.now }
{
    match join_h(at.c, code_ahead(sheet, at.i, 1)) {
        Some(c) => go_third(finale, Goto { c, ..at }, 2, sheet),
        None => go_third(finale, at, 1, sheet),
    }
}

// A consonant b behind a vowel and the letter c behind it.
#[tactic(auto, unfolding(crate::specs::Middles::pair))]
fn go_pair(finale: usize, at: Goto, sheet: &[u8]) -> Step
    requires { at.i < usize.MAX }
    ensures { joined result sheet.now ≡ pair finale at.i at.b at.c sheet.now }
{
    if at.b == LETTER_Q && at.c == LETTER_U {
        at.to(Label::Marki, at.i.saturating_sub(1))
    } else if is_vowel(at.c) {
        at.to(Label::Checkc, at.i + 1)
    } else if at.b == at.c {
        go_doubled(at, sheet)
    } else if let Some(b) = join_h(at.b, at.c) {
        Goto { b, ..at }.to(Label::Phase4vc, at.i + 1)
    } else if at.c == LETTER_K && at.b == LETTER_C {
        at.to(Label::Marki, at.i + 1)
    } else {
        go_second(finale, at, sheet)
    }
}

#[tactic(auto, unfolding(crate::specs::Middles::ends_in_er))]
fn ends_in_er(i: usize, sheet: &[u8]) -> bool
    ensures { result ≡ ends_in_er i sheet.now }
{
    code_ahead(sheet, i, 1) == LETTER_E
        && code_ahead(sheet, i, 2) == LETTER_R
        && code_ahead(sheet, i, 3) == 0
}

// A hyphen before the letter at i.
#[tactic(auto, unfolding(crate::specs::Middles::mark_at))]
fn go_marki(at: Goto, sheet: &mut [u8]) -> Step
    ensures { joined result sheet.new ≡ mark_at at.i at.b sheet.old }
{
    if code_ahead(sheet, at.i, 1) == 0 {
        return None;
    }
    let c = code_at(sheet, at.i);
    clear_at(sheet, at.i);
    Goto { c, ..at }.to(Label::Vowelscan, at.i)
}

// From a label to the next: a match on labels, since the definition `onward` has 004's labels and no routines.
#[tactic(auto, unfolding(crate::specs::Middles::onward, crate::specs::Middles::scan_vowel, crate::specs::Middles::pass_vowel))]
fn go_onward(finale: usize, at: Goto, sheet: &mut [u8]) -> Step
    requires { at.i < usize.MAX }
    ensures { joined result sheet.new ≡ onward finale at.label at.i at.b at.c sheet.old }
{
    match at.label {
        Label::Marki => go_marki(at, sheet),
        Label::Phase4c => {
            let c = code_at(sheet, at.i);
            Goto { c, ..at }.to(Label::Vowelscan, at.i)
        }
        Label::Vowelscan if is_vowel(at.c) => at.to(Label::Checkc, at.i + 1),
        Label::Vowelscan => at.to(Label::Phase4c, at.i + 1),
        Label::Checkc if at.c == 0 => None,
        Label::Checkc => at.to(Label::Phase4v, at.i),
        Label::Phase4v => {
            let b = code_at(sheet, at.i);
            let (label, c) = if is_vowel(b) {
                (Label::Checkc, b)
            } else {
                (Label::Phase4vc, at.c)
            };
            Goto { b, c, ..at }.to(label, at.i + 1)
        }
        Label::Phase4vc => {
            let c = code_at(sheet, at.i);
            go_pair(finale, Goto { c, ..at }, sheet)
        }
        Label::Ertest if ends_in_er(at.i, sheet) => None,
        Label::Ertest => at.to(Label::Marki, at.i),
    }
}

// Marks the hyphens in the middle of a word of n letters. n is for the contract alone: the sheet has it.
pub fn mark_middle(finale: usize, n: usize, from: Step, sheet: &mut [u8])
    requires { (n ≤ word_limit1980) × Sheet n sheet.old × Placed n from }
    ensures { sheet.new ≡ phase4 n finale (joined from sheet.old) }
{
    let mut step = from;
    while let Some(at) = step {
        step = go_onward(finale, at, sheet);
    }
}
