// Phase 2 of the 1980 machine: the removal of suffixes. CR 4. Names are 004's.
#![tactic(auto)]

ghost use Rattle.std.specs.Prelude.{◌≡◌, cond, not, ◌&&◌, ◌||◌, ◌+◌, ◌-◌, ◌<◌, ◌≤◌, eqb};
ghost use Rattle.base.specs.Limits.{word_limit1980, short_word1980};
ghost use Rattle.tables1980.specs.Words.{o, ◌ε◌};
ghost use Rattle.tables1980.specs.Suffix.{suffix};
ghost use Rattle.sheet1980.specs.Sheet.{u, place_bound, mem, clear, Sheet};
ghost use Rattle.suffix1980.specs.Suffixes.{decode, final_at, restarts, marksuf, interps, phase2};
ghost use Rattle.suffix1980.specs.Joined.{joined, Branched, can_step, step_gives, told, Ready};

use sheet1980::{LETTER_D, LETTER_E, Stopped, U, clear_at, code_at, is_scanned};
use std::ops::ControlFlow::{self, Break, Continue};
use tables1980::{falsex, has_bit, opcode, operand, suffix_table, truex, word_at};
use turns1980::Machine;

// An instruction word taken apart: operand, truex and falsex, as far as its opcode uses them.
#[derive(Clone, Copy)]
pub enum Instruction {
    Scan { t: u16, truex: u16, falsex: u16 },
    Double { truex: u16, falsex: u16 },
    Table { t: u16, truex: u16, falsex: u16 },
    Check { truex: u16, falsex: u16 },
    Success { t: u16 },
    Fail,
    Repeat { t: u16 },
    Again { truex: u16 },
    Mark { t: u16, truex: u16 },
    Efail,
    Confusion,
}

// The machine's registers at a row, as 004 has them and `interps` takes them: `firsttime` is a register too, and no value's flag.
#[derive(Clone, Copy)]
pub struct Row {
    pub i: usize,
    pub pc: usize,
    pub firsttime: bool,
    pub finale: usize,
}

impl Row {
    // The same at another row.
    fn with_row(self, pc: u16) -> Row
        ensures { result ≡ record { i = self.i; pc = pc; firsttime = self.firsttime; finale = self.finale } }
    {
        Row {
            pc: pc as usize,
            ..self
        }
    }
}

// Where the machine goes: on to a row, or to phase 3 with finale.
pub type Turn = ControlFlow<usize, Row>;

// The values of finale that are no places (specs/Suffixes.antt: infinity, ed_removed). finale is a number and no enum: `final_at` has these
// two numbers, and `shows` compares finale with places, as 004 does.
const INFINITY: usize = 1000000;

const ED_REMOVED: usize = 999999;

#[tactic(auto, unfolding(crate::specs::Suffixes::decode))]
impl From<u64> for Instruction {
    ghost from_gives = { λ w x. x ≡ decode w };

    fn from(w: u64) -> Self {
        let t = operand(w);
        let truex = truex(w);
        let falsex = falsex(w);
        match opcode(w) {
            0 => Instruction::Scan { t, truex, falsex },
            1 => Instruction::Double { truex, falsex },
            2 => Instruction::Table { t, truex, falsex },
            3 => Instruction::Check { truex, falsex },
            4 => Instruction::Success { t },
            5 => Instruction::Fail,
            6 => Instruction::Repeat { t },
            7 => Instruction::Again { truex },
            8 => Instruction::Mark { t, truex },
            9 => Instruction::Efail,
            _ => Instruction::Confusion,
        }
    }
}

// A test's two ways: with a letter matched, i goes back by one.
fn branch(at: Row, matched: bool, truex: u16, falsex: u16) -> Turn
    requires { 1 ≤ at.i }
    ensures { Branched matched at.i truex falsex at.firsttime at.finale result }
{
    let (i, pc) = if matched {
        (at.i - 1, truex)
    } else {
        (at.i, falsex)
    };
    Continue(Row {
        i,
        pc: pc as usize,
        ..at
    })
}

// finale at a re-entry. It may be a place ahead of i, so that i has a bound here and in what calls this: a type of places would not be closed
// under i + 2, and would ask as much of whoever makes one.
#[tactic(auto, unfolding(crate::specs::Suffixes::final_at))]
fn final_at(i: usize, pc: usize, finale: usize) -> usize
    requires { i ≤ place_bound }
    ensures { result ≡ final_at i pc finale }
{
    if pc == LETTER_E as usize {
        i + 1
    } else if finale == ED_REMOVED {
        i + 2
    } else {
        INFINITY
    }
}

// The first time is over.
fn restart(i: usize, finale: usize, sheet: &[u8]) -> Turn
    requires { i ≤ place_bound }
    ensures { joined result sheet.now ≡ restarts i finale sheet.now }
{
    if i < U + 3 {
        Break(finale)
    } else {
        let pc = code_at(sheet, i + 1) as usize;
        Continue(Row {
            i,
            pc,
            firsttime: false,
            finale: final_at(i, pc, finale),
        })
    }
}

// A hyphen before the suffix just removed.
fn mark_suffix(i: usize, finale: usize, sheet: &mut [u8]) -> Turn
    requires { i ≤ place_bound }
    ensures { joined result sheet.new ≡ marksuf i finale sheet.old }
{
    clear_at(sheet, i + 2);
    restart(i, finale, sheet)
}

// Does the word still end in "ed"?
fn ends_in_ed(n: usize, sheet: &[u8]) -> bool
    requires { n ≤ word_limit1980 }
    ensures { result ≡ (eqb (mem sheet.now (u + n)) (o "d") && eqb (mem sheet.now (u + n - 1)) (o "e")) }
{
    code_at(sheet, U + n) == LETTER_D && code_at(sheet, U + n - 1) == LETTER_E
}

// Is the letter at a place one of the mask in a row?
#[tactic(auto, using(tables1980::proofs::Readers::suffix_word))]
fn is_in_mask(sheet: &[u8], i: usize, t: u16) -> bool
    ensures { result ≡ (mem sheet.now i ε suffix t) }
{
    has_bit(word_at(suffix_table(), t as usize), code_at(sheet, i))
}

// Is the letter at a place like the one before it?
fn is_double(sheet: &[u8], i: usize) -> bool
    requires { 1 ≤ i }
    ensures { result ≡ eqb (mem sheet.now i) (mem sheet.now (i - 1)) }
{
    code_at(sheet, i) == code_at(sheet, i - 1)
}

// The hyphen of a mark, with operand 0 the first time only.
fn mark_letter(t: u16, firsttime: bool, i: usize, sheet: &mut [u8])
    requires { i ≤ place_bound }
    ensures { sheet.new ≡ cond (not (eqb t 0) || firsttime) (clear sheet.old (i + t + 1)) sheet.old }
{
    if t != 0 || firsttime {
        clear_at(sheet, i + t as usize + 1);
    }
}

// One instruction.
#[tactic(auto, unfolding(crate::specs::Suffixes::interps))]
fn interpret(n: usize, at: Row, sheet: &mut [u8], x: Instruction) -> Turn
    requires { can_step n at }
    ensures { joined result sheet.new ≡ interps n at.i at.firsttime at.finale sheet.old x }
{
    match x {
        Instruction::Scan { t, truex, falsex } => {
            let matched = is_scanned(sheet, at.i, t);
            branch(at, matched, truex, falsex)
        }
        Instruction::Double { truex, falsex } => {
            let matched = is_double(sheet, at.i);
            branch(at, matched, truex, falsex)
        }
        Instruction::Table { t, truex, falsex } => {
            let matched = is_in_mask(sheet, at.i, t);
            branch(at, matched, truex, falsex)
        }
        Instruction::Check { truex, falsex } => {
            let pc = if at.i <= U + 3 { falsex } else { truex };
            Continue(at.with_row(pc))
        }
        Instruction::Success { t } => {
            clear_at(sheet, at.i + t as usize + 1);
            Break(at.finale)
        }
        Instruction::Fail => Break(at.finale),
        Instruction::Repeat { t } => mark_suffix(at.i + t as usize - 1, at.finale, sheet),
        Instruction::Again { .. } if at.firsttime => restart(U + n - 2, at.finale, sheet),
        Instruction::Again { truex } => Continue(at.with_row(truex)),
        Instruction::Mark { t, truex } => {
            mark_letter(t, at.firsttime, at.i, sheet);
            Continue(at.with_row(truex))
        }
        Instruction::Efail if ends_in_ed(n, sheet) => mark_suffix(U + n - 3, ED_REMOVED, sheet),
        Instruction::Efail => Break(at.finale),
        Instruction::Confusion => Break(at.finale),
    }
}

// Phase 2 on the sheet of a word of n letters.
#[derive(Clone, Copy)]
struct Phase2 {
    n: usize,
}

impl Machine for Phase2 {
    type Row = Row;

    type End = usize;

    ghost can_step = { λ m at _. can_step m.n at };

    ghost step_gives = { λ m at sheet. step_gives m.n at sheet };

    #[tactic(auto, using(crate::proofs::Going::parts, tables1980::proofs::Readers::suffix_word))]
    fn step(&self, at: Row, sheet: &mut [u8]) -> Turn {
        let x = Instruction::from(word_at(suffix_table(), at.pc));
        interpret(self.n, at, sheet, x)
    }
}

// Removes the suffixes of a word of n letters, each word fetched taking one instruction of the budget: None where one more instruction is
// needed than there is budget for; else it goes on with finale.
#[tactic(auto, using(crate::proofs::Going::may_run))]
pub fn remove_suffixes(budget: usize, n: usize, sheet: &mut [u8]) -> Option<Stopped<usize>>
    requires { (short_word1980 < n) × (n ≤ word_limit1980) × Sheet n sheet.old }
    ensures answer { told result sheet.new ≡ phase2 budget n sheet.old }
    ensures kept { Ready n result sheet.new }
{
    let i = U + n - 1;
    let pc = code_at(sheet, i + 1) as usize;
    let first = Row {
        i,
        pc,
        firsttime: true,
        finale: final_at(i, pc, INFINITY),
    };
    turns1980::run(&Phase2 { n }, budget, first, sheet)
}
