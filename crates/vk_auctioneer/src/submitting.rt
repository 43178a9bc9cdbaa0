//! `submit`.

ghost use Rattle.std.specs.Prelude.{◌≡◌, ℕ, IfErr, IfOk, IfSome, IsOk, List};
ghost use Rattle.vk_seal.specs.declared.secret.Seal.{Seal};
ghost use Rattle.vk_seal.specs.declared.secret.Secret.{Secret};
ghost use Rattle.vk_seal.specs.Values.{IsSeal, IsSecret};
ghost use Rattle.vk_house.specs.Commands.{Submit};
ghost use Rattle.vk_house.specs.Replies.{Position};
ghost use Rattle.vk_effect.specs.Reading.{said_of_unread};
ghost use Rattle.vk_auctioneer.specs.Answers.{AsksAlone, AsksOnce, Says};
ghost use Rattle.vk_auctioneer.specs.Common.{Acts, Causes, CausesTwo, Gives, KeepsAnswers, OnlyReads, Modelled, as_reply, stores};
ghost use Rattle.vk_auctioneer.specs.Effects.{asked, no_file, on_both, submit_effect};
ghost use Rattle.vk_auctioneer.specs.Inputs.{row_in};
ghost use Rattle.vk_auctioneer.specs.Lines.{TakesNoMemory, done_said, taken_line};

use crate::refusals::say_refusal;
use std::alloc::Global;
use vk_effect::{Said, Unread, begin_named, named_value};
use vk_house::{House, HouseErr};
use vk_io::{OutsideErr, Shelf};
use vk_keeper::{Keeper, SealRow};
use vk_residue::NoMemory;
use vk_seal::{read_seal, read_secret};

/// The names of the files that a seal and its secret stand in.
#[derive(Clone, Copy)]
pub struct RowNames<'a> {
    pub seal: &'a str,
    pub secret: &'a str,
}

/// Hands the named seal and its secret in.
pub fn submit<S: Shelf, K: Keeper + Drop>(
    alloc: Global,
    shelf: &mut S,
    keeper: &mut K,
    id: &[u8; 16],
    names: RowNames<'_>,
) -> Result<Said, OutsideErr>
    ensures acts { IfSome (on_both
        (λ held kept. submit_effect held kept id.now names.entry.seal.now names.entry.secret.now)
        (S.held shelf.old) (K.ledger keeper.old))
        (λ effect. Acts result effect (stores (S.held shelf.old) (K.ledger keeper.old))
        (stores (S.held shelf.new) (K.ledger keeper.new))) }
    ensures held { S.held shelf.new ≡ S.held shelf.old }
    ensures once { Modelled KeepsAnswers (K.ledger keeper.old) (K.ledger keeper.new) }
    ensures turns { AsksOnce (K.turns keeper.old) (K.turns keeper.new) }
    ensures causes { CausesTwo OutsideErr.Failed result (S.Shelf.faults shelf.old)
        (S.Shelf.faults shelf.new) (K.faults keeper.old) (K.faults keeper.new) }
{
    match row(alloc, shelf, names) {
        Ok(row) => hand_in(alloc, keeper, id, row),
        Err(unread) => unread.said_or_stopped(),
    }
}

/// Reads the named seal and its secret.
#[tactic(auto, unfolding(crate::specs::Inputs::row_in))]
fn row<S: Shelf>(alloc: Global, shelf: &mut S, names: RowNames<'_>) -> Result<SealRow, Unread>
    ensures modelled { IfSome (S.held shelf.old)
        (λ files. Gives said_of_unread (λ row. row) result
        (row_in files names.entry.seal.now names.entry.secret.now)) }
    ensures seal { IfOk result (λ row. IsSeal row.seal) }
    ensures secret { IfOk result (λ row. IsSecret row.secret) }
    ensures shelf { OnlyReads S.held S.Shelf.faults Unread.Failed result shelf.old shelf.new }
{
    let mut seal_lines = begin_named(alloc, shelf, names.seal)?;
    let mut secret_lines = begin_named(alloc, shelf, names.secret)?;
    let read = read_seal(alloc, shelf, &mut seal_lines);
    let seal = named_value(alloc, names.seal, read)?;
    let read = read_secret(alloc, shelf, &mut secret_lines);
    let secret = named_value(alloc, names.secret, read)?;
    Ok(SealRow { seal, secret })
}

/// Hands a seal and its secret in.
fn hand_in<K: Keeper + Drop>(
    alloc: Global,
    keeper: &mut K,
    id: &[u8; 16],
    row: SealRow,
) -> Result<Said, OutsideErr>
    requires seal { IsSeal row.seal }
    requires secret { IsSecret row.secret }
    ensures { AsksAlone K.ledger K.turns K.faults
        (λ kept. asked no_file kept (Submit id.now row.seal row.secret)) result keeper.old
        keeper.new }
{
    let SealRow { seal, secret } = row;
    let seat = seal.seat;
    let answer = House::over(keeper).submit(id, seal, secret);
    let said = handed_in(alloc, seat, answer);
    said
}

/// What `submit` says by the house's answer to a seal of that seat.
fn handed_in(alloc: Global, seat: u16, answer: Result<u32, HouseErr>) -> Result<Said, OutsideErr>
    ensures said { (id : List ℕ) (seal : Seal) (secret : Secret) → seal.seat ≡ seat
        → Says (Submit id seal secret) (as_reply Position answer) result }
    ensures told { IfErr answer (λ refusal. TakesNoMemory refusal → IsOk result) }
    ensures causes { (before after : ℕ) → Causes HouseErr.KeeperFailed answer before after
        → Causes OutsideErr.Failed result before after }
{
    match answer {
        Ok(position) => Ok(say_taken(alloc, seat, position)?),
        Err(refusal) => say_refusal(alloc, seat, refusal),
    }
}

/// What is said of a seal that was taken.
fn say_taken(alloc: Global, seat: u16, position: u32) -> Result<Said, NoMemory>
    ensures { IfOk result (λ said. said ≡ done_said (taken_line seat position)) }
{
    let line = format!(in alloc; "taken seat {seat} position {position}\n")?;
    let said = Said::of_line(alloc, 0, line.as_str())?;
    Ok(said)
}
