//! The commands of a script, one after another.

ghost use Rattle.std.specs.Prelude.{◌≡◌, ◌≤◌, ◌+◌, ◌^◌, false, IfOk, IfSome};
ghost use Rattle.vk_lines.specs.Lines.{KeepsFile};
ghost use Rattle.vk_words.specs.Orders.{IsHouseOrder, house_seen};
ghost use Rattle.vk_effect.specs.Effects.{IsCommandEnd, outside};
ghost use Rattle.vk_effect.specs.Ends.{Ends};
ghost use Rattle.vk_auctioneer.specs.Common.{KeepsAnswers, Modelled, stores};
ghost use Rattle.vk_auctioneer.specs.Effects.{house_effect};
ghost use Rattle.vk_ceremony.specs.Ceremonies.{EndsSome, ceremony_on};
ghost use Rattle.vk_ceremony.specs.Leaving.{HoldLeaves, LeavesAnswered, OrderLeaves, TakesTurn};
ghost use Rattle.vk_ceremony.specs.Turns.{CausesAny, EndsWell, IsNextTurn, left_of, turn_by};

use crate::closing::{close, say};
use crate::reading::{Line, begin_script, behind_end, read_line};
use std::alloc::Global;
use vk_auctioneer::house_command;
use vk_io::{OutsideErr, Shelf, Sink};
use vk_keeper::Keeper;
use vk_lines::Lines;
use vk_words::{HouseOrder, script_order};

/// Where a ceremony stands after a line of its script.
pub enum Turn {
    /// Before the next line. It is told whether a command was refused so far.
    Next(bool),
    /// At its end, with this status.
    Ended(u8),
}

/// Does the house's commands that stand in the script of that name, each when its line is reached,
/// and prints what each says. A command that is done or refused is followed by the next line.
/// Answers the status: 5 or 4 where the script isn't held or is too long; 4 where a line is no such
/// command in its form or writes the script itself; that of a command which is neither done nor
/// refused; and at the end of the script 8 where a command was refused, else 0.
#[tactic(auto, using(crate::proofs::Turning::left_stopped, crate::proofs::Leaving::stopped_left))]
pub fn ceremony<S: Shelf, K: Keeper + Drop, W: Sink>(
    alloc: Global,
    shelf: &mut S,
    keeper: &mut K,
    out: &mut W,
    script: &str,
) -> Result<u8, OutsideErr>
    ensures ends { EndsSome (ceremony_on (S.held shelf.old) (K.ledger keeper.old) script.now) result
        (outside (stores (S.held shelf.old) (K.ledger keeper.old)) (W.taken out.old))
        (outside (stores (S.held shelf.new) (K.ledger keeper.new)) (W.taken out.new)) }
    ensures end { IfOk result IsCommandEnd }
    ensures files { Modelled (LeavesAnswered script.now result) (S.held shelf.old)
        (S.held shelf.new) }
    ensures once { Modelled KeepsAnswers (K.ledger keeper.old) (K.ledger keeper.new) }
    ensures causes { CausesAny S.Shelf.faults K.faults W.Sink.faults result shelf.old shelf.new
        keeper.old keeper.new out.old out.new }
{
    match begin_script(alloc, shelf, script) {
        Ok(lines) => {
            let status = hold(alloc, shelf, keeper, out, script, lines)?;
            Ok(status)
        }
        Err(unread) => {
            let said = unread.said_or_stopped()?;
            let status = say(out, &said)?;
            Ok(status)
        }
    }
}

/// Does the commands of a script that is read behind its first line.
#[tactic(auto, using(crate::proofs::Leading::leads_to_stop, crate::proofs::Leading::leads_to_end, crate::proofs::Leading::keeps_further, crate::proofs::Leaving::leaves_to_stop, crate::proofs::Leaving::leaves_to_end))]
fn hold<S: Shelf, K: Keeper + Drop, W: Sink>(
    alloc: Global,
    shelf: &mut S,
    keeper: &mut K,
    out: &mut W,
    script: &str,
    lines: Lines,
) -> Result<u8, OutsideErr>
    requires { lines.name ≡ script.now }
    ensures ends { EndsSome (left_of script.now false lines
        (stores (S.held shelf.old) (K.ledger keeper.old))) result
        (outside (stores (S.held shelf.old) (K.ledger keeper.old)) (W.taken out.old))
        (outside (stores (S.held shelf.new) (K.ledger keeper.new)) (W.taken out.new)) }
    ensures end { IfOk result IsCommandEnd }
    ensures files { Modelled (HoldLeaves script.now lines result) (S.held shelf.old)
        (S.held shelf.new) }
    ensures once { Modelled KeepsAnswers (K.ledger keeper.old) (K.ledger keeper.new) }
    ensures causes { CausesAny S.Shelf.faults K.faults W.Sink.faults result shelf.old shelf.new
        keeper.old keeper.new out.old out.new }
{
    let mut lines = lines;
    let mut refused = false;
    'lines: loop {
        match next(alloc, shelf, keeper, out, script, &mut lines, refused)? {
            Turn::Next(now) => refused = now,
            Turn::Ended(status) => return Ok(status),
        }
    }
}

/// Takes the next line of a script, and does its command.
fn next<S: Shelf, K: Keeper + Drop, W: Sink>(
    alloc: Global,
    shelf: &mut S,
    keeper: &mut K,
    out: &mut W,
    script: &str,
    lines: &mut Lines,
    refused: bool,
) -> Result<Turn, OutsideErr>
    requires { lines.now.name ≡ script.now }
    ensures turn { TakesTurn script.now refused lines.old lines.new result
        (outside (stores (S.held shelf.old) (K.ledger keeper.old)) (W.taken out.old))
        (outside (stores (S.held shelf.new) (K.ledger keeper.new)) (W.taken out.new)) }
    ensures end { IfOk result (λ turn. EndsWell turn) }
    ensures file { KeepsFile lines.old lines.new }
    ensures taken { IfOk result
        (λ turn. IsNextTurn turn → (lines.new.taken ≡ lines.old.taken + 1)
        × (lines.new.taken ≤ 2 ^ 30)) }
    ensures once { Modelled KeepsAnswers (K.ledger keeper.old) (K.ledger keeper.new) }
    ensures causes { CausesAny S.Shelf.faults K.faults W.Sink.faults result shelf.old shelf.new
        keeper.old keeper.new out.old out.new }
{
    match read_line(alloc, shelf, lines)? {
        Line::Words(words) => match script_order(words.as_slice(), script) {
            Some(order) => {
                let status = command(alloc, shelf, keeper, out, &order)?;
                Ok(turn_by(refused, status))
            }
            None => {
                let turn = close(alloc, out, script, Some(lines.number()), refused);
                turn
            }
        },
        Line::End => {
            let fault = behind_end(shelf, lines)?;
            let turn = close(alloc, out, script, fault, refused);
            turn
        }
        Line::Malformed(number) => {
            let turn = close(alloc, out, script, Some(number), refused);
            turn
        }
    }
}

/// Where a ceremony stands after a command of that status.
fn turn_by(refused: bool, status: u8) -> Turn
    requires { IsCommandEnd status }
    ensures value { result ≡ turn_by refused status }
    ensures end { EndsWell result }
{
    let is_refusal = status == 8;
    if status == 0 || is_refusal {
        Turn::Next(refused || is_refusal)
    } else {
        Turn::Ended(status)
    }
}

/// Does a command, and prints what it says. Answers its status.
#[tactic(auto, using(vk_effect::proofs::Acting::stopped_printing))]
fn command<S: Shelf, K: Keeper + Drop, W: Sink>(
    alloc: Global,
    shelf: &mut S,
    keeper: &mut K,
    out: &mut W,
    order: &HouseOrder<'_>,
) -> Result<u8, OutsideErr>
    requires { IsHouseOrder order.now }
    ensures end { IfOk result IsCommandEnd }
    ensures ends { IfSome (house_effect (S.held shelf.old) (K.ledger keeper.old)
        (house_seen order.now))
        (λ effect. Ends result effect
        (outside (stores (S.held shelf.old) (K.ledger keeper.old)) (W.taken out.old))
        (outside (stores (S.held shelf.new) (K.ledger keeper.new)) (W.taken out.new))) }
    ensures files { Modelled (OrderLeaves (house_seen order.now) result) (S.held shelf.old)
        (S.held shelf.new) }
    ensures once { Modelled KeepsAnswers (K.ledger keeper.old) (K.ledger keeper.new) }
    ensures causes { CausesAny S.Shelf.faults K.faults W.Sink.faults result shelf.old shelf.new
        keeper.old keeper.new out.old out.new }
{
    let said = house_command(alloc, shelf, keeper, order)?;
    said.print(out)?;
    Ok(said.status())
}
