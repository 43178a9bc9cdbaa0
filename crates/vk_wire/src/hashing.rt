// The digests of what shown wires open.
ghost use Rattle.std.specs.Prelude.{◌≡◌, ◌%◌, All};
ghost use Rattle.std.specs.List.{list_any};
ghost use Rattle.std.specs.Simd.Lanes.{zip2};
ghost use Rattle.vk_wire.specs.Opened.{entry_made, opened_by, opened_entry, opens_two};
ghost use Rattle.vk_wire.specs.Places.{entry_place};
ghost use Rattle.vk_wire.specs.declared.hashing.Which.TheVariants.{First, Last};

use crate::place::place_of_entry;
use crate::wire::{Opened, Shown};
use vk_commit::{Opening, Place, commit, commit_four};

/// Which of the entries that a shown wire opens. Of a wire that opens one entry, they are the same.
#[derive(Clone, Copy, Debug, PartialEq, Eq)]
pub enum Which {
    First,
    Last,
}

/// The digests of what the wire opens for the bit, at its places. The second commitment stands at
/// the slot after `place`.
#[tactic(auto, unfolding(crate::specs::Opened::opened_by))]
pub fn hash_opened(place: &Place, shown: &Shown, bit: bool) -> Opened
    requires { place.now.slot % 2 ≡ 0 }
    ensures { result ≡ opened_by place.now shown.now bit }
{
    let (at, opening) = opened_entry(place, shown, bit, Which::First);
    let first = commit(&at, &opening);
    let last = if opens_two(shown) {
        let (at, opening) = opened_entry(place, shown, bit, Which::Last);
        commit(&at, &opening)
    } else {
        first
    };
    Opened { first, last }
}

/// The digests of what each of four wires opens for the bit, hashed side by side.
pub fn hash_four(places: &[Place; 4], shown: &[Shown; 4], bit: bool) -> [Opened; 4]
    requires { All (λ place. place.slot % 2 ≡ 0) places.now }
    ensures { result ≡ zip2 (λ place shown. opened_by place shown bit) places.now shown.now }
{
    let firsts = hash_each(places, shown, bit, Which::First);
    let lasts = hash_lasts(places, shown, bit, &firsts);
    [
        Opened {
            first: firsts[0],
            last: lasts[0],
        },
        Opened {
            first: firsts[1],
            last: lasts[1],
        },
        Opened {
            first: firsts[2],
            last: lasts[2],
        },
        Opened {
            first: firsts[3],
            last: lasts[3],
        },
    ]
}

/// The digest of the entry that each wire opens first or last.
fn hash_each(places: &[Place; 4], shown: &[Shown; 4], bit: bool, which: Which) -> [[u8; 32]; 4]
    requires { All (λ place. place.slot % 2 ≡ 0) places.now }
    ensures { result
        ≡ zip2 (λ place shown. entry_made place (opened_entry shown bit which)) places.now
        shown.now }
{
    let (place0, opening0) = opened_entry(&places[0], &shown[0], bit, which);
    let (place1, opening1) = opened_entry(&places[1], &shown[1], bit, which);
    let (place2, opening2) = opened_entry(&places[2], &shown[2], bit, which);
    let (place3, opening3) = opened_entry(&places[3], &shown[3], bit, which);
    commit_four(
        &[place0, place1, place2, place3],
        &[opening0, opening1, opening2, opening3],
    )
}

/// The digest of what each wire opens last, where `firsts` are those of what each opens first.
fn hash_lasts(
    places: &[Place; 4],
    shown: &[Shown; 4],
    bit: bool,
    firsts: &[[u8; 32]; 4],
) -> [[u8; 32]; 4]
    requires slots { All (λ place. place.slot % 2 ≡ 0) places.now }
    requires firsts { firsts.now
        ≡ zip2 (λ place shown. entry_made place (opened_entry shown bit First)) places.now
        shown.now }
    ensures { result
        ≡ zip2 (λ place shown. entry_made place (opened_entry shown bit Last)) places.now
        shown.now }
{
    if !any_opens_two(shown) {
        return *firsts;
    }
    hash_each(places, shown, bit, Which::Last)
}

/// Whether one of the wires opens two entries.
fn any_opens_two(shown: &[Shown; 4]) -> bool
    ensures { result ≡ list_any opens_two shown.now }
{
    opens_two(&shown[0]) || opens_two(&shown[1]) || opens_two(&shown[2]) || opens_two(&shown[3])
}

fn opens_two(shown: &Shown) -> bool
    ensures { result ≡ opens_two shown.now }
{
    matches!(shown, Shown::Whole(_, _))
}

/// The entry that the wire opens first or last: its place, and what opens it.
fn opened_entry(place: &Place, shown: &Shown, bit: bool, which: Which) -> (Place, Opening)
    requires { place.now.slot % 2 ≡ 0 }
    ensures place { result.0 ≡ entry_place place.now (opened_entry shown.now bit which).0 }
    ensures opening { result.1 ≡ (opened_entry shown.now bit which).1 }
{
    match (shown, which) {
        (Shown::Half(opening), _) => (place_of_entry(place, bit), *opening),
        (Shown::Whole(first, _), Which::First) => (place_of_entry(place, false), *first),
        (Shown::Whole(_, second), Which::Last) => (place_of_entry(place, true), *second),
        (Shown::Spent { second, opening }, _) => (place_of_entry(place, *second), *opening),
    }
}
