ghost use Rattle.std.specs.Prelude.{◌≡◌, ◌↔◌, length, IsSome, IfSome, IfOk};
ghost use Rattle.vk_vickrey.specs.BoardPlans.{BoardClaim, IsBoardCase, board_numbers, board_plan, board_row_count, board_values, board_wire_count, numbers_of};
ghost use Rattle.vk_vickrey.specs.BoardLaws.{board_begins, board_complete, board_is_plan, board_sound};

use crate::outcomes::VickreyOutcome;
use crate::plan::VickreyPlan;
use crate::reserve::ReservePlan;
use crate::sales::Sale;
use std::alloc::Global;
use vk_plan::{Circuit, Plan};
use vk_residue::{NoMemory, Residue};

/// The plan of a board, by its version.
#[derive(Clone, Copy, Debug)]
pub enum BoardPlan {
    /// Of version 1, which names no reserve.
    One(VickreyPlan),
    /// Of version 2, which names one.
    Two(ReservePlan),
}

impl BoardPlan {
    /// None where a number is not within its limits, or the version is neither 1 nor 2, or a board
    /// of version 1 would have a reserve other than 0 or stay unsold. Takes no memory.
    pub fn of(version: u32, seals: u32, width: u32, reserve: u64, sale: Sale) -> Option<BoardPlan>
        ensures admitted { IsSome result
            ↔ IsBoardCase (board_numbers version seals width reserve sale) }
        ensures numbers { IfSome result
            (λ plan. numbers_of plan ≡ board_numbers version seals width reserve sale) }
    {
        if version == 1 {
            return BoardPlan::first(seals, width, reserve, sale);
        }
        if version != 2 {
            return None;
        }
        match ReservePlan::new(seals, width, reserve, sale) {
            Some(plan) => Some(BoardPlan::Two(plan)),
            None => None,
        }
    }

    /// The plan of a board of version 1. None where these numbers are not within their limits.
    fn first(seals: u32, width: u32, reserve: u64, sale: Sale) -> Option<BoardPlan>
        ensures admitted { IsSome result ↔ IsBoardCase (board_numbers 1 seals width reserve sale) }
        ensures numbers { IfSome result
            (λ plan. numbers_of plan ≡ board_numbers 1 seals width reserve sale) }
    {
        match sale {
            Sale::Sold { position, price } => {
                if reserve != 0 {
                    return None;
                }
                match VickreyPlan::new(seals, width, VickreyOutcome { position, price }) {
                    Some(plan) => Some(BoardPlan::One(plan)),
                    None => None,
                }
            }
            Sale::Unsold => None,
        }
    }
}

impl Circuit for BoardPlan {
    ghost plan_of = { λ c. board_plan (numbers_of c) };

    ghost claim = { λ c bids. BoardClaim (numbers_of c) bids };

    ghost filled = { λ c bids. board_values (numbers_of c) bids };

    ghost is_plan = { board_is_plan };

    ghost begins = { board_begins };

    ghost sound = { board_sound };

    ghost complete = { board_complete };

    fn inputs(&self) -> u32
        ensures inputs { result ≡ (board_plan (numbers_of self.now)).inputs }
        ensures seals { result ≡ (numbers_of self.now).seals }
    {
        match self {
            BoardPlan::One(plan) => plan.inputs(),
            BoardPlan::Two(plan) => plan.inputs(),
        }
    }

    fn plan(&self, alloc: Global) -> Result<Plan, NoMemory>
        ensures plan { IfOk result (λ plan. plan ≡ board_plan (numbers_of self.now)) }
        ensures wires { IfOk result
            (λ plan. length plan.kinds ≡ board_wire_count (numbers_of self.now)) }
        ensures rows { IfOk result
            (λ plan. length plan.rows ≡ board_row_count (numbers_of self.now)) }
    {
        match self {
            BoardPlan::One(plan) => plan.plan(alloc),
            BoardPlan::Two(plan) => plan.plan(alloc),
        }
    }

    /// Which selector is 1, and where there is none, `first_holders_are_selected` says.
    fn fill(&self, alloc: Global, inputs: &[Residue]) -> Result<Vec<Residue>, NoMemory>
        requires { BoardClaim (numbers_of self.now) inputs.now }
        ensures { IfOk result (λ values. values.items
            ≡ board_values (numbers_of self.now) inputs.now) }
    {
        match self {
            BoardPlan::One(plan) => plan.fill(alloc, inputs),
            BoardPlan::Two(plan) => plan.fill(alloc, inputs),
        }
    }
}
