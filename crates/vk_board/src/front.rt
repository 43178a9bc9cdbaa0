// What stands on a board before its first lane.
ghost use Rattle.std.specs.Prelude.{◌≡◌, ◌⊎◌, IfErr, IfOk, IfSome, IsErrOf};
ghost use Rattle.vk_lines.specs.Common.{Gives, KeepsFile, MayCause, OnlyReads, Rose, rest_of};
ghost use Rattle.vk_board.specs.Values.{IsHead, AreSeals};
ghost use Rattle.vk_board.specs.Reading.{seats_of, IsAmongFront};
ghost use Rattle.vk_board.specs.Fronts.{IsFront, fault_of, front_of, front_at};
ghost use Rattle.vk_board.specs.declared.front.FrontErr.TheVariants as refusal;

use crate::board::{Head, SealLines};
use crate::published::{place_of_winner, price_stands};
use crate::reading::{read_head, read_seals};
use std::alloc::Global;
use vk_io::Shelf;
use vk_lines::{Lines, ReadErr};
use vk_residue::NoMemory;
use vk_seq::Seq;

/// What stands on a board before its first lane, and the place of the winner's seal, from 1. No
/// place where nothing is sold.
#[derive(Debug, Drop)]
pub struct Front {
    pub head: Head,
    pub seals: Seq<SealLines>,
    pub position: Option<u32>,
}

/// Why no front was read.
#[derive(Clone, Copy, Debug, PartialEq, Eq)]
pub enum FrontErr {
    /// A line isn't what its place demands, or nothing was read.
    Unread(ReadErr),
    /// The price may not stand beside the reserve, the width and the number of seals.
    Price,
    /// The board names a winner, and no seal has that seat.
    Winner,
}

impl From<ReadErr> for FrontErr {
    ghost from_gives = { λ refused e. e ≡ refusal.Unread refused };

    fn from(refused: ReadErr) -> FrontErr {
        FrontErr::Unread(refused)
    }
}

/// Reads the lines of a board before its first lane. They are refused for the first line that isn't
/// what its place demands, then for the price, and then for the winner.
#[tactic(auto, unfolding(crate::specs::Fronts::front_at))]
pub fn read_front<S: Shelf>(
    alloc: Global,
    shelf: &mut S,
    lines: &mut Lines,
) -> Result<Front, FrontErr>
    ensures modelled { IfSome (S.held shelf.old) (λ files.
        Gives fault_of (λ front. (front, rest_of lines.new files)) result
        (front_at (rest_of lines.old files))) }
    ensures right { IfOk result IsFront }
    ensures file { KeepsFile lines.old lines.new }
    ensures shelf { OnlyReads S.held S.Shelf.faults (FrontErr.Unread ReadErr.Failed) result
        shelf.old shelf.new }
    ensures wants { MayCause (FrontErr.Unread ReadErr.NoMemory) result (S.Shelf.wants shelf.old)
        (S.Shelf.wants shelf.new) }
    ensures behind { IsErrOf result (FrontErr.Unread ReadErr.NoMemory)
        → IsAmongFront (S.held shelf.old) lines.old lines.new
        ⊎ Rose (S.Shelf.wants shelf.old) (S.Shelf.wants shelf.new) }
{
    let head = read_head(shelf, lines)?;
    let seals = read_seals(alloc, shelf, lines, &head)?;
    let front = front_from(head, seals)?;
    Ok(front)
}

/// What was read, where its price and its winner may stand.
#[tactic(auto, unfolding(crate::specs::Fronts::front_of))]
fn front_from(head: Head, seals: Seq<SealLines>) -> Result<Front, FrontErr>
    requires head { IsHead head }
    requires seals { AreSeals head seals }
    ensures told { Gives fault_of (λ front. front) result (front_of head seals) }
    ensures right { IfOk result IsFront }
    ensures inside { IfErr result
        (λ refusal. (refusal ≡ FrontErr.Price) ⊎ (refusal ≡ FrontErr.Winner)) }
{
    if !price_stands(&head) {
        return Err(FrontErr::Price);
    }
    match place_of_winner(head.winner, seals.as_slice()) {
        None => Err(FrontErr::Winner),
        Some(position) => Ok(Front {
            head,
            seals,
            position,
        }),
    }
}

/// The seats of the seals, one after another.
pub fn seats_of(alloc: Global, seals: &[SealLines]) -> Result<Seq<u16>, NoMemory>
    ensures { IfOk result (λ seats. seats ≡ seats_of seals.now) }
{
    let mut seats = Seq::new(alloc);
    for seal in seals {
        seats.push(seal.seat)?;
    }
    Ok(seats)
}
