//! What stands in the rows of an auction, beside what it has itself.

ghost use Rattle.std.specs.Prelude.{◌≡◌, map, IfOk};
ghost use Rattle.vk_rows.specs.Columns.{bits_in, seal_texts, texts_of};

use std::alloc::Global;
use vk_keeper::{Auction, Phase, SealRow};
use vk_reply::push_bits;
use vk_residue::NoMemory;
use vk_seal::{seal_text, secret_text};
use vk_seq::Seq;

/// What stands in the rows of an auction, beside what it has itself.
#[derive(Drop)]
pub struct Texts {
    /// The characters of the challenge, where one is kept.
    pub bits: Option<Seq<u8>>,
    pub seals: Seq<SealTexts>,
}

/// What stands in the row of a seal, beside the auction's id and its position.
#[derive(Drop)]
pub struct SealTexts {
    pub seat: u16,
    pub seal: Seq<u8>,
    pub secret: Seq<u8>,
}

/// The texts of an auction's rows. Errs for want of memory alone.
pub fn texts_of(alloc: Global, auction: &Auction) -> Result<Texts, NoMemory>
    ensures { IfOk result (λ texts. texts ≡ texts_of auction.now) }
{
    let bits = bits_of(alloc, &auction.phase)?;
    let seals = seals_of(alloc, auction.seals.as_slice())?;
    Ok(Texts { bits, seals })
}

/// The characters of the challenge, where one is kept.
fn bits_of(alloc: Global, phase: &Phase) -> Result<Option<Seq<u8>>, NoMemory>
    ensures { IfOk result (λ bits. bits ≡ bits_in phase.now) }
{
    match phase {
        Phase::Answered { challenge, .. } => {
            let mut text = Vec::new(alloc);
            push_bits(&mut text, challenge.bits.as_slice())?;
            Ok(Some(Seq::from_vec(text)))
        }
        _ => Ok(None),
    }
}

/// The texts of one seal's row.
fn seal_of(alloc: Global, row: &SealRow) -> Result<SealTexts, NoMemory>
    ensures { IfOk result (λ texts. texts ≡ seal_texts row.now) }
{
    let seal = seal_text(alloc, &row.seal)?;
    let secret = secret_text(alloc, &row.secret)?;
    Ok(SealTexts {
        seat: row.seal.seat,
        seal: Seq::from_vec(seal),
        secret: Seq::from_vec(secret),
    })
}

/// The texts of these seals' rows.
fn seals_of(alloc: Global, seals: &[SealRow]) -> Result<Seq<SealTexts>, NoMemory>
    ensures { IfOk result (λ texts. texts ≡ map seal_texts seals.now) }
{
    let mut texts = Seq::new(alloc);
    for row in seals {
        let one = seal_of(alloc, row)?;
        texts.push(one)?;
    }
    Ok(texts)
}
