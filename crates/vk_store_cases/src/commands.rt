// Commands of a house over a keeper of one auction.
ghost use Rattle.std.specs.Prelude.{IfOk, IfSome};
ghost use Rattle.vk_residue.specs.Limits.{IsSize};
ghost use Rattle.vk_reply.specs.Values.{IsChallenge};
ghost use Rattle.vk_seal.specs.Values.{IsSeal, IsSecret};
ghost use Rattle.vk_keeper.specs.Auctions.{IsAuction};

use crate::texts::{put_found, put_job, put_refused};
use std::alloc::Global;
use vk_cases::{Text, Tried, Unreplayed, number_at, text_in, word_at};
use vk_dice::ChaChaWords;
use vk_house::{House, HouseErr};
use vk_keeper::{Auction, Keeper, MemKeeper};
use vk_reply::{Challenge, bits_of};
use vk_seal::{Seal, Secret, make_seal};

/// The auction that commands are of which name none.
const ID: [u8; 16] = [0, 1, 2, 3, 4, 5, 6, 7, 8, 9, 10, 11, 12, 13, 14, 15];

/// The seed of the auctioneer and of all bidders.
const SEED: [u8; 32] = [0x5a; 32];

/// What is done over a store.
#[derive(Clone, Copy)]
pub enum Task<'a> {
    /// Statements are run, with no keeper.
    Run(&'a str),
    /// The auction is found, kept anew and found again.
    Find,
    /// `announce WIDTH LANES`, `announce WIDTH LANES RESERVE`, `submit SEAT BID`, `prove`, `answer
    /// BITS`, `find`; or `keep COMMAND, ..`, which keeps the auction that these make in the place
    /// of the one that is kept. `of N COMMAND` is of the auction whose id ends with the byte N.
    Command(&'a [u8]),
}

/// A command of the auction of that id.
#[derive(Clone, Copy)]
struct Order<'a> {
    alloc: Global,
    id: [u8; 16],
    command: &'a [u8],
}

impl Task<'_> {
    /// Puts behind the text what the keeper answers.
    pub fn put_done<K: Keeper + Drop>(
        &self,
        alloc: Global,
        keeper: &mut K,
        text: &mut Text,
    ) -> Tried<()> {
        match self {
            Task::Run(_) => Err(Unreplayed::NoCase),
            Task::Find => put_kept_anew(alloc, keeper, text),
            Task::Command(command) => {
                let order = named(alloc, command)?;
                put_commanded(keeper, text, &order)
            }
        }
    }
}

/// The auction that is found before it is kept anew, and what is found after where that is
/// something else or it wasn't kept.
fn put_kept_anew<K: Keeper + Drop>(alloc: Global, keeper: &mut K, text: &mut Text) -> Tried<()> {
    put_kept(keeper, text, &ID)?;
    match keep_anew(keeper) {
        Some(is_kept) => put_behind(alloc, keeper, text, is_kept),
        None => Ok(()),
    }
}

/// Keeps the auction anew that is found, and answers whether it was kept. None where none is found.
fn keep_anew<K: Keeper + Drop>(keeper: &mut K) -> Option<bool> {
    match keeper.get(&ID) {
        Ok(Some(auction)) => Some(keeper.put(auction).is_ok()),
        Ok(None) => None,
        Err(_refusal) => None,
    }
}

/// What is found now, behind what was found before, where that is something else or it wasn't kept.
fn put_behind<K: Keeper + Drop>(
    alloc: Global,
    keeper: &mut K,
    text: &mut Text,
    is_kept: bool,
) -> Tried<()> {
    let mut after = Text::new(alloc);
    let put = put_kept(keeper, &mut after, &ID);
    match put {
        Ok(()) => put_other(text, &after, is_kept),
        Err(unreplayed) => Err(unreplayed),
    }
}

/// The other text behind this one, where it is something else or it wasn't kept.
fn put_other(text: &mut Text, after: &Text, is_kept: bool) -> Tried<()> {
    let after = after.bytes()?;
    if !is_kept || after != text.bytes()? {
        text.put(b", then ");
        text.put(after);
    }
    Ok(())
}

/// What the keeper finds.
fn put_kept<K: Keeper + Drop>(keeper: &mut K, text: &mut Text, id: &[u8; 16]) -> Tried<()> {
    let found = keeper.get(id);
    let put = put_found(text, &found);
    put
}

/// A command, of the auction that it names.
fn named(alloc: Global, command: &[u8]) -> Tried<Order<'_>> {
    let mut id = ID;
    if text_in(word_at(command, 0)?)? != "of" {
        return Ok(Order { alloc, id, command });
    }
    id[15] = number_at(command, 1, 255)? as u8;
    let command = behind_word(behind_word(command).trim_ascii()).trim_ascii();
    Ok(Order { alloc, id, command })
}

/// What is answered to a command.
fn put_commanded<K: Keeper + Drop>(keeper: &mut K, text: &mut Text, order: &Order) -> Tried<()> {
    if text_in(word_at(order.command, 0)?)? != "keep" {
        return put_housed(keeper, text, order);
    }
    let auction = made(order)?;
    match keeper.put(auction) {
        Ok(()) => text.put(b"kept"),
        Err(_refusal) => text.put(b"fault"),
    }
    Ok(())
}

/// What stands behind the first word.
pub fn behind_word(command: &[u8]) -> &[u8] {
    for (i, byte) in command.iter().enumerate() {
        if *byte == b' ' {
            let (_word, behind) = command.split_at(i);
            return behind;
        }
    }
    &[]
}

/// The auction that the commands behind the first word, with commas between them, make in memory.
fn made(order: &Order) -> Tried<Auction>
    ensures { IfOk result IsAuction }
{
    let mut keeper = MemKeeper::new(order.alloc);
    let mut said = Text::new(order.alloc);
    let made = made_in(&mut keeper, &mut said, order);
    made
}

/// The auction of that id, once these commands are done over the keeper.
fn made_in<K: Keeper + Drop>(keeper: &mut K, said: &mut Text, order: &Order) -> Tried<Auction>
    ensures { IfOk result IsAuction }
{
    for command in behind_word(order.command).split(|byte| *byte == b',') {
        let command = command.trim_ascii();
        put_housed(keeper, said, &Order { command, ..*order })?;
    }
    match keeper.get(&order.id) {
        Ok(Some(auction)) => Ok(auction),
        Ok(None) => Err(Unreplayed::NoCase),
        Err(refusal) => Err(Unreplayed::from(refusal)),
    }
}

/// What a house answers to a command.
fn put_housed<K: Keeper + Drop>(keeper: &mut K, text: &mut Text, order: &Order) -> Tried<()> {
    match text_in(word_at(order.command, 0)?)? {
        "announce" => put_announced(keeper, text, order),
        "submit" => put_submitted(keeper, text, order),
        "prove" => put_worked(keeper, text, order, None),
        "answer" => answer(keeper, text, order),
        "find" => put_kept(keeper, text, &order.id),
        _ => Err(Unreplayed::NoCase),
    }
}

/// What is answered to the challenge of the bits.
fn answer<K: Keeper + Drop>(keeper: &mut K, text: &mut Text, order: &Order) -> Tried<()> {
    let challenge = challenge_of(order.alloc, word_at(order.command, 1)?)?;
    let put = put_worked(keeper, text, order, Some(&challenge));
    put
}

/// The sale that a house proves; or, where there is a challenge, what it answers to that. A job is
/// dropped here alone, which is dear to prove.
fn put_worked<K: Keeper + Drop>(
    keeper: &mut K,
    text: &mut Text,
    order: &Order,
    challenge: Option<&Challenge>,
) -> Tried<()>
    requires { IfSome challenge (λ asked. IsChallenge asked.now) }
{
    let mut house = House::over(keeper);
    let worked = match challenge {
        None => house.prove(order.alloc, &order.id, &SEED),
        Some(challenge) => house.answer(order.alloc, &order.id, challenge),
    };
    let put = put_job(text, &worked, challenge.is_some());
    put
}

fn put_announced<K: Keeper + Drop>(keeper: &mut K, text: &mut Text, order: &Order) -> Tried<()> {
    let width = number_at(order.command, 1, 40)? as u32;
    let lanes = number_at(order.command, 2, 64)? as u32;
    if width == 0 || lanes == 0 {
        return Err(Unreplayed::NoCase);
    }
    let mut house = House::over(keeper);
    let announced = if word_at(order.command, 3).is_err() {
        house.announce(order.alloc, &order.id, width, lanes)
    } else {
        let reserve = number_at(order.command, 3, (1 << width) - 1)?;
        house.announce_reserve(order.alloc, &order.id, width, lanes, reserve)
    };
    let put = put_announcement(text, &announced);
    put
}

/// What a house answers to an announcement.
fn put_announcement(text: &mut Text, announced: &Result<(), HouseErr>) -> Tried<()> {
    match announced {
        Ok(()) => {
            text.put(b"announced");
            Ok(())
        }
        Err(refusal) => put_refused(text, refusal),
    }
}

/// The seal of the seat and its secret, made for the auction that is kept, are handed in.
fn put_submitted<K: Keeper + Drop>(keeper: &mut K, text: &mut Text, order: &Order) -> Tried<()> {
    let seat = number_at(order.command, 1, 65535)? as u16;
    let bid = number_at(order.command, 2, u64::MAX)?;
    let (width, lanes) = size_of(keeper, &order.id)?;
    if seat == 0 {
        return Err(Unreplayed::NoCase);
    }
    let mut words = ChaChaWords::of(&SEED, &order.id, 65536 + u64::from(seat));
    let sealed = make_seal(order.alloc, bid, seat, &order.id, width, lanes, &mut words);
    match sealed {
        Ok((secret, seal)) => hand_in(keeper, text, &order.id, seal, secret),
        Err(_refused) => Err(Unreplayed::NoCase),
    }
}

/// The seal and its secret are handed in.
fn hand_in<K: Keeper + Drop>(
    keeper: &mut K,
    text: &mut Text,
    id: &[u8; 16],
    seal: Seal,
    secret: Secret,
) -> Tried<()>
    requires seal { IsSeal seal }
    requires secret { IsSecret secret }
{
    let position = House::over(keeper).submit(id, seal, secret);
    let put = put_position(text, &position);
    put
}

/// The position at which a house took a seal.
fn put_position(text: &mut Text, position: &Result<u32, HouseErr>) -> Tried<()> {
    match position {
        Ok(position) => {
            text.put_number(b"position ", u64::from(*position));
            Ok(())
        }
        Err(refusal) => put_refused(text, refusal),
    }
}

/// The width and the number of lanes of the auction that is kept.
fn size_of<K: Keeper + Drop>(keeper: &mut K, id: &[u8; 16]) -> Tried<(u32, u32)>
    ensures { IfOk result (λ size. IsSize size.0 size.1) }
{
    match keeper.get(id) {
        Ok(Some(auction)) => Ok((auction.width, auction.lanes)),
        Ok(None) => Err(Unreplayed::NoCase),
        Err(refusal) => Err(Unreplayed::from(refusal)),
    }
}

fn challenge_of(alloc: Global, bits: &[u8]) -> Tried<Challenge>
    ensures { IfOk result IsChallenge }
{
    let bits = bits_of(alloc, bits)?.ok_or(Unreplayed::NoCase)?;
    Ok(Challenge { bits })
}
