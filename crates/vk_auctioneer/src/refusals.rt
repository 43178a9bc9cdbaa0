//! What is said of a refusal of the house.

ghost use Rattle.std.specs.Prelude.{◌≡◌, ℕ, Err, IfOk, Ok, OnOk, Result, string_bytes};
ghost use Rattle.vk_io.specs.Faults.{Causes};
ghost use Rattle.vk_reply.specs.Texts.{bit_character, bits_text};
ghost use Rattle.vk_seal.specs.Mismatches.{mismatch_fields};
ghost use Rattle.vk_house.specs.Replies.{Refused};
ghost use Rattle.vk_auctioneer.specs.Answers.{IsReply};
ghost use Rattle.vk_auctioneer.specs.Lines.{TakesNoMemory, phase_word, refusal_line, refused_said};

use std::alloc::Global;
use vk_effect::{Said, house_dry_line, numbers_line};
use vk_house::{HouseErr, PhaseName};
use vk_io::OutsideErr;
use vk_reply::Challenge;
use vk_residue::NoMemory;
use vk_seal::with_mismatch;
use vk_text::ShortText;

/// What is said of a refusal, or why nothing is said. The seat is that of the seal that was handed
/// in, 0 where none was. Only the kept challenge's bits take memory: every other refusal is told as
/// it is.
pub fn say_refusal(alloc: Global, seat: u16, refusal: HouseErr) -> Result<Said, OutsideErr>
    ensures said { IfOk result (λ said. said ≡ refused_said seat refusal) }
    ensures told { TakesNoMemory refusal → result ≡ Ok (refused_said seat refusal) }
    ensures reply { OnOk result (IsReply (Refused refusal)) }
    ensures causes { (before after : ℕ)
        → Causes {T = Unit {0}} HouseErr.KeeperFailed (Err refusal) before after
        → Causes OutsideErr.Failed result before after }
{
    match refusal {
        HouseErr::KeeperFailed => Err(OutsideErr::Failed),
        HouseErr::NoMemory => Err(OutsideErr::NoMemory),
        HouseErr::OtherChallenge { kept } => {
            let said = other_challenge(alloc, &kept)?;
            Ok(said)
        }
        refusal => Ok(Said::of_short(8, refusal_line(seat, &refusal))),
    }
}

/// The line of a refusal that takes no memory. It is empty for the others.
fn refusal_line(seat: u16, refusal: &HouseErr) -> ShortText
    ensures { TakesNoMemory refusal.now → result ≡ refusal_line seat refusal.now }
{
    match refusal {
        HouseErr::Known => ShortText::new().word("house known\n"),
        HouseErr::Unknown => ShortText::new().word("house unknown\n"),
        HouseErr::Phase { kept } => phase_line(*kept),
        HouseErr::Full => ShortText::new().word("house full\n"),
        HouseErr::OtherAuction { given } => ShortText::new()
            .word("house other auction ")
            .hex(given)
            .word("\n"),
        HouseErr::SeatTaken => ShortText::new()
            .word("house seat taken ")
            .number(u64::from(seat))
            .word("\n"),
        HouseErr::Length { kept, given } => length_line(*kept, *given),
        HouseErr::BidTooLarge => ShortText::new().word("house bid too large\n"),
        HouseErr::Mismatch(mismatch) => {
            let start = ShortText::new().word("house mismatch ");
            with_mismatch(start, mismatch).word("\n")
        }
        HouseErr::NoSeals => ShortText::new().word("house no seals\n"),
        HouseErr::OtherSeed { kept } => ShortText::new()
            .word("house other seed kept ")
            .hex(kept)
            .word("\n"),
        HouseErr::DrySeed { lane, wire } => house_dry_line(*lane, *wire),
        HouseErr::OtherChallenge { kept: _ } | HouseErr::KeeperFailed | HouseErr::NoMemory => {
            ShortText::new()
        }
    }
}

/// The refusal of what an auction that has come so far no longer takes, or not yet.
fn phase_line(kept: PhaseName) -> ShortText
    ensures { result ≡ refusal_line 0 (HouseErr.Phase kept) }
{
    ShortText::new()
        .word("house phase ")
        .word(phase_word(kept))
        .word("\n")
}

/// The refusal of another number of lanes than the kept one of the auction.
fn length_line(kept: u32, given: u32) -> ShortText
    ensures { result ≡ refusal_line 0 (HouseErr.Length kept given) }
{
    numbers_line("house length kept ", kept, " given ", given)
}

/// What is said where the auction has answered another challenge, the kept one.
fn other_challenge(alloc: Global, kept: &Challenge) -> Result<Said, NoMemory>
    ensures { IfOk result (λ said. said ≡ refused_said 0 (HouseErr.OtherChallenge kept.now)) }
{
    let kept = bits(alloc, kept)?;
    let line = format!(in alloc; "house other challenge kept {kept}\n")?;
    let said = Said::of_line(alloc, 8, line.as_str())?;
    Ok(said)
}

/// The word for how far an auction has come.
pub fn phase_word(phase: PhaseName) -> &'static str
    ensures { result.now ≡ phase_word phase }
{
    match phase {
        PhaseName::Taking => "taking",
        PhaseName::Proved => "proved",
        PhaseName::Answered => "answered",
    }
}

/// The bits of a challenge as characters.
fn bits(alloc: Global, challenge: &Challenge) -> Result<String, NoMemory>
    ensures { IfOk result (λ text. string_bytes text ≡ bits_text challenge.now.bits) }
{
    let mut text = String::new(alloc);
    for bit in challenge.bits.as_slice() {
        text.push_str(if *bit { "1" } else { "0" })?;
    }
    Ok(text)
}
