//! `seal`: a bidder's secret and seal.

ghost use Rattle.std.specs.Prelude.{◌≡◌, ◌≢◌, ◌++◌, Err, IfErr, IfOk, IsErr, IsOk, Ok, codes};
ghost use Rattle.vk_words.specs.Orders.{IsSealOrder, seal_seen};
ghost use Rattle.vk_effect.specs.Dry.{bidder_dry_line};
ghost use Rattle.vk_effect.specs.Texts.{line_feed};
ghost use Rattle.vk_app.specs.Commands.{ActsOnFiles};
ghost use Rattle.vk_app.specs.Sealing.{made_deed, refused_said, seal_made, seal_on, sealed_line};

use std::alloc::Global;
use vk_dice::ChaChaWords;
use vk_effect::{Deed, Said, bidder_dry_line};
use vk_io::{OutsideErr, Shelf};
use vk_residue::NoMemory;
use vk_seal::{Seal, SealErr, Secret, make_seal, seal_text, secret_text};
use vk_text::ShortText;
use vk_words::SealOrder;

/// What a seal that was made says. Takes no memory.
fn say_sealed(order: &SealOrder<'_>) -> Said
    ensures { result ≡ record { status = 0; text = sealed_line order.now.seat order.now.lanes } }
{
    let line = ShortText::new()
        .word("sealed seat ")
        .number(u64::from(order.seat))
        .word(" lanes ")
        .number(u64::from(order.lanes))
        .word("\n");
    Said::of_short(0, line)
}

/// What is said of a bid that isn't below 2^width. Takes no memory.
fn bid_too_large() -> Said
    ensures { result ≡ refused_said (codes "seal bid too large" ++ line_feed) }
{
    Said::of_short(8, ShortText::new().word("seal bid too large\n"))
}

/// What is said of a seed that gives no residue for the lane. Takes no memory.
pub fn dry_seed(lane: u32) -> Said
    ensures { result ≡ refused_said (bidder_dry_line lane) }
{
    Said::of_short(8, bidder_dry_line(lane))
}

/// A seal that was made is said, and its files are written: the secret's, then its own.
fn write_seal(
    alloc: Global,
    order: &SealOrder<'_>,
    secret: &Secret,
    seal: &Seal,
) -> Result<Deed, NoMemory>
    ensures { IfOk result (λ deed. deed
        ≡ made_deed (seal_seen order.now) (Ok (secret.now, seal.now))) }
{
    let secret = secret_text(alloc, secret)?;
    let seal = seal_text(alloc, seal)?;
    let deed = Deed::says(alloc, say_sealed(order)).with_file(alloc, order.secret, secret)?;
    let deed = deed.with_file(alloc, order.seal, seal)?;
    Ok(deed)
}

/// Makes the seal and its secret, from the seed's words in the stream of the seat.
#[tactic(auto, unfolding(crate::specs::Sealing::seal_made))]
fn make(alloc: Global, order: &SealOrder<'_>) -> Result<Deed, NoMemory>
    requires { IsSealOrder (seal_seen order.now) }
    ensures { IfOk result (λ deed. deed
        ≡ made_deed (seal_seen order.now) (seal_made (seal_seen order.now))) }
{
    let stream = 65536 + u64::from(order.seat);
    let mut words = ChaChaWords::of(&order.seed, &order.auction, stream);
    let sealed = make_seal(
        alloc,
        order.bid,
        order.seat,
        &order.auction,
        order.width,
        order.lanes,
        &mut words,
    );
    let deed = seal_deed(alloc, order, sealed);
    deed
}

/// What comes of a seal that was made, or of why none was. Only a seal that was made takes memory:
/// a refusal is told as it is.
fn seal_deed(
    alloc: Global,
    order: &SealOrder<'_>,
    sealed: Result<(Secret, Seal), SealErr>,
) -> Result<Deed, NoMemory>
    ensures deed { IfOk result (λ deed. deed ≡ made_deed (seal_seen order.now) sealed) }
    ensures told { IfErr sealed (λ refusal. refusal ≢ SealErr.NoMemory → IsOk result) }
    ensures memory { sealed ≡ Err SealErr.NoMemory → IsErr result }
{
    match sealed {
        Ok((secret, seal)) => write_seal(alloc, order, &secret, &seal),
        Err(SealErr::BidTooLarge) => Ok(Deed::says(alloc, bid_too_large())),
        Err(SealErr::DrySeed { lane }) => Ok(Deed::says(alloc, dry_seed(lane))),
        Err(SealErr::NoMemory) => Err(NoMemory),
    }
}

/// Makes a seal and its secret, and writes both.
#[tactic(auto, unfolding(crate::specs::Sealing::seal_on))]
pub fn seal<S: Shelf>(
    alloc: Global,
    shelf: &mut S,
    order: &SealOrder<'_>,
) -> Result<Said, OutsideErr>
    requires { IsSealOrder (seal_seen order.now) }
    ensures { ActsOnFiles S.held S.Shelf.faults
        (λ files ledger. seal_on ledger (seal_seen order.now)) result shelf.old shelf.new }
{
    let deed = make(alloc, order)?;
    let said = deed.carry_out(alloc, shelf)?;
    Ok(said)
}
