// A bidder's secret against what is shown of its lanes.
ghost use Rattle.std.specs.Prelude.{◌≡◌, ◌<◌, ◌≤◌, ◌^◌, ◌↔◌, IfSome, None, false, true, length};
ghost use Rattle.vk_residue.specs.Residue.{sum};
ghost use Rattle.vk_extractor.specs.Confronting.{AreItsHalves, IsConfronted, OpensSecret, confronted, confronted_half, secret_opening, secret_place};

use vk_commit::{Opening, Place, TwoOpenings, commit};
use vk_residue::Residue;
use vk_seal::Secret;

/// The secret's opening and the shown one of the lane's first half, where their values differ; else
/// of its second half, where they differ there; else none, and then the values that are shown add
/// up to the bid.
///
/// Lanes are counted from 1. It takes no memory.
pub fn confront(
    secret: &Secret,
    lane: u32,
    first: &Opening,
    second: &Opening,
) -> Option<TwoOpenings>
    requires small_bid { secret.now.bid < 2 ^ 40 }
    requires few_lanes { length secret.now.lanes ≤ 64 }
    requires some_lane { 1 ≤ lane }
    requires last_lane { lane ≤ length secret.now.lanes }
    requires first_opens { OpensSecret secret.now lane false first.now }
    requires second_opens { OpensSecret secret.now lane true second.now }
    ensures answer { result ≡ confronted secret.now lane first.now second.now }
    ensures held { (result ≡ None) ↔ AreItsHalves secret.now lane first.now second.now }
    ensures bid { result ≡ None → sum first.now.value second.now.value ≡ secret.now.bid }
    ensures clash { IfSome result (IsConfronted secret.now lane first.now second.now) }
{
    if let Some(two) = confront_half(secret, lane, false, first) {
        return Some(two);
    }
    let two = confront_half(secret, lane, true, second);
    two
}

/// The secret's opening and the shown one of the lane's first or second half, where their values
/// differ.
fn confront_half(secret: &Secret, lane: u32, second: bool, shown: &Opening) -> Option<TwoOpenings>
    requires small_bid { secret.now.bid < 2 ^ 40 }
    requires few_lanes { length secret.now.lanes ≤ 64 }
    requires some_lane { 1 ≤ lane }
    requires last_lane { lane ≤ length secret.now.lanes }
    requires opens { OpensSecret secret.now lane second shown.now }
    ensures { result ≡ confronted_half secret.now lane second shown.now }
{
    let place = place_of(secret, lane, second);
    let own = opening_of(secret, lane, second);
    let digest = commit(&place, &own);
    let two = TwoOpenings::of(place, digest, own, *shown);
    two
}

/// Where the secret's commitment to the lane's first or second half stands.
fn place_of(secret: &Secret, lane: u32, second: bool) -> Place
    requires { lane ≤ 64 }
    ensures { result ≡ secret_place secret.now lane second }
{
    Place {
        auction: secret.auction,
        seat: secret.seat,
        lane: lane as u16,
        slot: if second { 1 } else { 0 },
    }
}

/// The opening of the secret's commitment to the lane's first or second half.
fn opening_of(secret: &Secret, lane: u32, second: bool) -> Opening
    requires small_bid { secret.now.bid < 2 ^ 40 }
    requires some_lane { 1 ≤ lane }
    requires last_lane { lane ≤ length secret.now.lanes }
    ensures { result ≡ secret_opening secret.now lane second }
{
    let tape = &secret.lanes.as_slice()[lane as usize - 1];
    let bid = Residue::new(secret.bid).unwrap();
    if second {
        Opening {
            key: tape.second_key,
            value: bid.sub(tape.mask),
        }
    } else {
        Opening {
            key: tape.first_key,
            value: tape.mask,
        }
    }
}
