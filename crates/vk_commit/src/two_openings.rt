// Two openings of one digest.
ghost use Rattle.std.specs.Prelude.{◌≡◌, ◌↔◌, IsSome, IfSome};
ghost use Rattle.vk_commit.specs.Commitment.{AreTwoOpenings};

use crate::commitment::opens;
use crate::place::{Opening, Place};
use std::marker::Model;

/// Two openings of different values that both open one digest at one place.
#[derive(Clone, Copy, Debug)]
pub struct TwoOpenings {
    place: Place,
    digest: [u8; 32],
    first: Opening,
    second: Opening,
}

impl Model for TwoOpenings {
    ghost use Rattle.vk_commit.specs.Commitment.{TwoOpeningsSeen, AreTwoOpenings};

    ghost Value = { TwoOpeningsSeen };

    ghost view = { λ a. record {
      place = a.place;
      digest = a.digest;
      first = a.first;
      second = a.second;
    } };

    ghost invariant = { λ a. AreTwoOpenings a.place a.digest a.first a.second };

    ghost inverse = { λ v. record {
      place = v.place;
      digest = v.digest;
      first = v.first;
      second = v.second;
    } };
}

impl TwoOpenings {
    /// The two openings, or None where they have equal values or one of them doesn't open `digest`.
    pub fn of(
        place: Place,
        digest: [u8; 32],
        first: Opening,
        second: Opening,
    ) -> Option<TwoOpenings>
        ensures exactly { IsSome result ↔ AreTwoOpenings place digest first second }
        ensures made { IfSome result (λ two. two
            ≡ record { place = place; digest = digest; first = first; second = second }) }
    {
        if first.value == second.value
            || !opens(&place, &digest, &first)
            || !opens(&place, &digest, &second)
        {
            return None;
        }
        Some(TwoOpenings {
            place,
            digest,
            first,
            second,
        })
    }

    /// Where the commitment stands.
    pub fn place(&self) -> Place
        ensures place { result ≡ self.now.place }
        ensures two { AreTwoOpenings self.now.place self.now.digest self.now.first self.now.second }
    {
        self.place
    }

    /// The digest that both open.
    pub fn digest(&self) -> [u8; 32]
        ensures digest { result ≡ self.now.digest }
        ensures two { AreTwoOpenings self.now.place self.now.digest self.now.first self.now.second }
    {
        self.digest
    }

    /// The one opening.
    pub fn first(&self) -> Opening
        ensures first { result ≡ self.now.first }
        ensures two { AreTwoOpenings self.now.place self.now.digest self.now.first self.now.second }
    {
        self.first
    }

    /// The other opening.
    pub fn second(&self) -> Opening
        ensures second { result ≡ self.now.second }
        ensures two { AreTwoOpenings self.now.place self.now.digest self.now.first self.now.second }
    {
        self.second
    }
}
