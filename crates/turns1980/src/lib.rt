// The loop of the machines of 1980 that have a budget. CR 4.
#![tactic(auto)]

ghost use Rattle.std.specs.Prelude.{◌≡◌, ℕ, List, Option};
ghost use Rattle.std.proofs.Common.{ControlFlow, Continue};
ghost use Rattle.turns1980.specs.Turns.{Left, turns, Runs};

use sheet1980::Stopped;
use std::ops::ControlFlow::{self, Break, Continue};

// A machine that works on a sheet, one instruction a turn.
pub trait Machine {
    // Its registers at a row, and what it stops with.
    type Row: Copy;

    type End: Copy;

    // Where an instruction may be executed, and what it gives there.
    ghost can_step: { Self → Self.Row → List ℕ → Type 0 };

    ghost step_gives: { Self → Self.Row → List ℕ → Left (ControlFlow Self.End Self.Row) };

    // Executes the instruction at a row: on to a row, or to the end.
    fn step(&self, row: Self::Row, sheet: &mut [u8]) -> ControlFlow<Self::End, Self::Row>
        requires { can_step self.now row sheet.old }
        ensures { (result, sheet.new) ≡ step_gives self.now row sheet.old };
}

// Runs a machine from a row on, each turn taking one instruction of the budget: None where one more instruction is needed than there is
// budget for.
#[tactic(auto, unfolding(crate::specs::Turns::turns, crate::specs::Turns::Runs), using(crate::proofs::Laws::turned, crate::proofs::Laws::still, crate::proofs::Laws::out))]
pub fn run<M: Machine>(
    machine: &M,
    budget: usize,
    first: M::Row,
    sheet: &mut [u8],
) -> Option<Stopped<M::End>>
    requires { Runs (M.can_step machine.now) (M.step_gives machine.now) budget (Continue first) sheet.old }
    ensures { (result, sheet.new) ≡ turns (M.step_gives machine.now) budget (Continue first) sheet.old }
{
    let mut row = first;
    for left in (0..budget).rev() {
        match machine.step(row, sheet) {
            Continue(next) => row = next,
            Break(next) => return Some(Stopped { left, next }),
        }
    }
    None
}
