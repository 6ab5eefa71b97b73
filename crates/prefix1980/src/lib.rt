// Phase 3 of the 1980 machine: the removal of prefixes. CR 4. Names are 004's.
#![tactic(auto)]

ghost use Rattle.std.specs.Prelude.{◌≡◌, Some, cond, ◌+◌, ◌-◌, ◌<◌, ◌≤◌, eqb};
ghost use Rattle.std.proofs.Common.{Break};
ghost use Rattle.base.specs.Limits.{word_limit1980, short_word1980};
ghost use Rattle.tables1980.specs.Words.{◌ε◌};
ghost use Rattle.sheet1980.specs.Sheet.{place_bound, mem, clear, Sheet};
ghost use Rattle.prefix1980.specs.Prefixes.{decode, reenter, interpp, phase3};
ghost use Rattle.prefix1980.specs.Joined.{joined, can_step, step_gives, told, Ready};

use middle1980::{Goto, Label, Step};
use sheet1980::{Stopped, U, clear_at, code_at, is_scanned};
use std::ops::ControlFlow::{self, Break, Continue};
use tables1980::{falsex, has_bit, opcode, operand, prefix_table, truex, word_at};
use turns1980::Machine;

// An instruction word taken apart: operand, truex and falsex, as far as its opcode uses them; a table's whole word.
#[derive(Clone, Copy)]
pub enum Instruction {
    Scan { t: u16, truex: u16, falsex: u16 },
    Repeat { t: u16 },
    Mark { t: u16 },
    Table { letters: u64 },
    Fail,
    Vow,
    Cons,
    Confusion,
}

// The machine's registers at a row.
#[derive(Clone, Copy)]
pub struct Row {
    pub i: usize,
    pub pc: usize,
    pub c: u8,
    pub j: usize,
}

impl Row {
    // Out of it to a label of phase 4; its register b isn't in use yet.
    fn to(self, label: Label, i: usize) -> Turn
        ensures { result ≡ Break (Some (record { label = label; i = i; b = 0; c = self.c })) }
    {
        Break(Some(Goto {
            label,
            i,
            b: 0,
            c: self.c,
        }))
    }
}

// Where the machine goes: on to a row, or out of it to a label of phase 4 or to phase 5.
pub type Turn = ControlFlow<Step, Row>;

// How many bits stand before the letters in a table's word.
const LETTERS_AT: u8 = 9;

#[tactic(auto, unfolding(crate::specs::Prefixes::decode))]
impl From<u64> for Instruction {
    ghost from_gives = { λ w x. x ≡ decode w };

    fn from(w: u64) -> Self {
        let t = operand(w);
        match opcode(w) {
            0 => Instruction::Scan {
                t,
                truex: truex(w),
                falsex: falsex(w),
            },
            2 => Instruction::Table { letters: w },
            4 => Instruction::Vow,
            5 => Instruction::Fail,
            6 => Instruction::Repeat { t },
            7 => Instruction::Cons,
            8 => Instruction::Mark { t },
            _ => Instruction::Confusion,
        }
    }
}

// Is the letter at a place one of a table's?
fn is_in_table(sheet: &[u8], i: usize, letters: u64) -> bool
    requires { mem sheet.now i ≤ 26 }
    ensures { result ≡ ((mem sheet.now i + 9) ε letters) }
{
    has_bit(letters, code_at(sheet, i) + LETTERS_AT)
}

// A prefix was removed: a hyphen before the letter in front of i, and again from there.
fn reenter_at(i: usize, sheet: &mut [u8]) -> Turn
    requires { 1 ≤ i }
    ensures { joined result sheet.new ≡ reenter i sheet.old }
{
    let c = code_at(sheet, i - 1);
    clear_at(sheet, i - 1);
    Continue(Row {
        i,
        pc: c as usize,
        c,
        j: i - 1,
    })
}

// The hyphen of a mark with its operand.
fn mark_back(t: u16, i: usize, sheet: &mut [u8])
    ensures { sheet.new ≡ cond (eqb t 0) sheet.old (clear sheet.old (i - t)) }
{
    if t != 0 {
        clear_at(sheet, i.saturating_sub(t as usize));
    }
}

// One instruction.
#[tactic(auto, unfolding(crate::specs::Prefixes::interpp))]
fn interpret(at: Row, sheet: &mut [u8], x: Instruction) -> Turn
    requires { can_step at sheet.old }
    ensures { joined result sheet.new ≡ interpp at.i at.c at.j sheet.old x }
{
    match x {
        Instruction::Scan { t, truex, falsex } => {
            let matched = is_scanned(sheet, at.i, t);
            let (i, pc) = if matched {
                (at.i + 1, truex)
            } else {
                (at.i, falsex)
            };
            Continue(Row {
                i,
                pc: pc as usize,
                ..at
            })
        }
        Instruction::Repeat { t } => {
            let behind = at.i.saturating_sub(t as usize) + 1;
            if code_at(sheet, behind) == 0 {
                Break(None)
            } else {
                reenter_at(behind, sheet)
            }
        }
        Instruction::Mark { t } => {
            mark_back(t, at.i, sheet);
            at.to(Label::Marki, at.i)
        }
        Instruction::Table { letters } => {
            if is_in_table(sheet, at.i, letters) {
                at.to(Label::Marki, at.i)
            } else {
                at.to(Label::Vowelscan, at.j)
            }
        }
        Instruction::Fail => Break(None),
        Instruction::Vow => at.to(Label::Phase4v, at.i),
        Instruction::Cons => at.to(Label::Phase4c, at.i),
        Instruction::Confusion => Break(None),
    }
}

// Phase 3 on a word's sheet.
#[derive(Clone, Copy)]
struct Phase3;

impl Machine for Phase3 {
    type Row = Row;

    type End = Step;

    ghost can_step = { λ _ at sheet. can_step at sheet };

    ghost step_gives = { λ _ at sheet. step_gives at sheet };

    #[tactic(auto, using(crate::proofs::Going::parts, tables1980::proofs::Readers::prefix_word))]
    fn step(&self, at: Row, sheet: &mut [u8]) -> Turn {
        let x = Instruction::from(word_at(prefix_table(), at.pc));
        interpret(at, sheet, x)
    }
}

// Removes the prefixes of a word of n letters, each word fetched taking one instruction of the budget: None where one more instruction is
// needed than there is budget for; else it goes on with the step to take. n is for the contract alone: the sheet has it.
pub fn remove_prefixes(budget: usize, n: usize, sheet: &mut [u8]) -> Option<Stopped<Step>>
    requires { (short_word1980 < n) × (n ≤ word_limit1980) × Sheet n sheet.old }
    ensures answer { told result sheet.new ≡ phase3 budget sheet.old }
    ensures place { Ready n result sheet.new }
{
    let c = code_at(sheet, U + 1);
    let first = Row {
        i: U + 2,
        pc: c as usize,
        c,
        j: U + 1,
    };
    turns1980::run(&Phase3, budget, first, sheet)
}
