//! `announce` and `show`, which read and write no file: an auction begins, and how it stands is
//! said.

ghost use Rattle.std.specs.Prelude.{◌≡◌, ◌≤◌, ◌+◌, ◌^◌, ◌<◌, ◌++◌, ℕ, IfErr, IfOk, IsOk, length};
ghost use Rattle.vk_residue.specs.Limits.{IsSize};
ghost use Rattle.vk_house.specs.Replies.{Done, Stands};
ghost use Rattle.vk_house.specs.Commands.{Announce, AnnounceReserve, Show};
ghost use Rattle.vk_auctioneer.specs.Answers.{AsksAlone, Says};
ghost use Rattle.vk_auctioneer.specs.Common.{Causes, as_reply};
ghost use Rattle.vk_auctioneer.specs.Effects.{announce_effect, announce_reserve_effect, show_effect};
ghost use Rattle.vk_auctioneer.specs.Lines.{TakesNoMemory, announced_line, done_said, progress_words, reserve_words, standing_line};

use crate::refusals::{phase_word, say_refusal};
use std::alloc::Global;
use vk_effect::Said;
use vk_house::{House, HouseErr, Standing};
use vk_io::OutsideErr;
use vk_keeper::Keeper;
use vk_residue::NoMemory;
use vk_text::ShortText;

/// Opens the auction.
pub fn announce<K: Keeper + Drop>(
    alloc: Global,
    keeper: &mut K,
    id: &[u8; 16],
    width: u32,
    lanes: u32,
) -> Result<Said, OutsideErr>
    requires { IsSize width lanes }
    ensures { AsksAlone K.ledger K.turns K.faults
        (λ kept. announce_effect kept id.now width lanes) result keeper.old keeper.new }
{
    let answer = House::over(keeper).announce(alloc, id, width, lanes);
    let said = say_announced(alloc, id, answer);
    said
}

/// Opens the auction under that reserve.
pub fn announce_reserve<K: Keeper + Drop>(
    alloc: Global,
    keeper: &mut K,
    id: &[u8; 16],
    width: u32,
    lanes: u32,
    reserve: u64,
) -> Result<Said, OutsideErr>
    requires size { IsSize width lanes }
    requires small { reserve < 2 ^ width }
    ensures { AsksAlone K.ledger K.turns K.faults
        (λ kept. announce_reserve_effect kept id.now width lanes reserve) result keeper.old
        keeper.new }
{
    let answer = House::over(keeper).announce_reserve(alloc, id, width, lanes, reserve);
    let said = say_announced(alloc, id, answer);
    said
}

/// What `announce` says by the house's answer, with a reserve and without.
fn say_announced(
    alloc: Global,
    id: &[u8; 16],
    answer: Result<(), HouseErr>,
) -> Result<Said, OutsideErr>
    ensures said { (width lanes : ℕ)
        → Says (Announce id.now width lanes) (as_reply (λ _. Done) answer) result }
    ensures reserved { (width lanes reserve : ℕ)
        → Says (AnnounceReserve id.now width lanes reserve) (as_reply (λ _. Done) answer) result }
    ensures told { IfErr answer (λ refusal. TakesNoMemory refusal → IsOk result) }
    ensures causes { (before after : ℕ) → Causes HouseErr.KeeperFailed answer before after
        → Causes OutsideErr.Failed result before after }
{
    match answer {
        Ok(()) => Ok(say_opened(alloc, id)?),
        Err(refusal) => say_refusal(alloc, 0, refusal),
    }
}

/// What is said of an auction that was opened.
fn say_opened(alloc: Global, id: &[u8; 16]) -> Result<Said, NoMemory>
    ensures { IfOk result (λ said. said ≡ done_said (announced_line id.now)) }
{
    let id = hex::encode(alloc, id.as_slice())?;
    let line = format!(in alloc; "announced {id}\n")?;
    let said = Said::of_line(alloc, 0, line.as_str())?;
    Ok(said)
}

/// Says how the auction stands.
pub fn show<K: Keeper + Drop>(
    alloc: Global,
    keeper: &mut K,
    id: &[u8; 16],
) -> Result<Said, OutsideErr>
    ensures { AsksAlone K.ledger K.turns K.faults
        (λ kept. show_effect kept id.now) result keeper.old keeper.new }
{
    let answer = House::over(keeper).show(id);
    let said = say_standing(alloc, id, answer);
    said
}

/// What `show` says by the house's answer.
fn say_standing(
    alloc: Global,
    id: &[u8; 16],
    answer: Result<Standing, HouseErr>,
) -> Result<Said, OutsideErr>
    ensures said { Says (Show id.now) (as_reply Stands answer) result }
    ensures told { IfErr answer (λ refusal. TakesNoMemory refusal → IsOk result) }
    ensures causes { (before after : ℕ) → Causes HouseErr.KeeperFailed answer before after
        → Causes OutsideErr.Failed result before after }
{
    match answer {
        Ok(standing) => Ok(Said::of_short(0, standing_line(id, &standing))),
        Err(refusal) => say_refusal(alloc, 0, refusal),
    }
}

/// The line of an auction that stands so.
fn standing_line(id: &[u8; 16], standing: &Standing) -> ShortText
    ensures { result ≡ standing_line id.now standing.now }
{
    let size = ShortText::new()
        .word("auction ")
        .hex(id)
        .word(" width ")
        .number(u64::from(standing.width))
        .word(" lanes ")
        .number(u64::from(standing.lanes));
    with_progress(size, standing)
}

/// The text, and how far an auction has come that stands so.
fn with_progress(text: ShortText, standing: &Standing) -> ShortText
    requires { length text ≤ 200 }
    ensures { result ≡ text ++ progress_words standing.now }
{
    let text = text
        .word(" seals ")
        .number(u64::from(standing.seals))
        .word(" phase ")
        .word(phase_word(standing.phase));
    with_reserve(text, standing.reserve).word("\n")
}

/// The text, and the reserve of an auction that names one.
fn with_reserve(text: ShortText, reserve: Option<u64>) -> ShortText
    requires { length text ≤ 300 }
    ensures text { result ≡ text ++ reserve_words reserve }
    ensures long { length result ≤ length text + 29 }
{
    match reserve {
        Some(reserve) => text.word(" reserve ").number(reserve),
        None => text,
    }
}
