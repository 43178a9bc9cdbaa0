// What holds of every commitment.
ghost use Rattle.std.specs.Prelude.{◌≡◌, ◌≢◌, length};
ghost use Rattle.vk_commit.specs.Commitment.{message, digest_of};
ghost use Rattle.vk_commit.specs.Values.{AreBytes, IsOpening};
ghost use Rattle.vk_commit.specs.declared.place.Opening.{Opening};
ghost use Rattle.vk_commit.specs.declared.place.Place.{Place};

/// The message of every commitment has 68 bytes, and openings with different values have different
/// messages, at whichever places.
pub fn messages_tell_values_apart()
    ensures size { (place : Place) (opening : Opening) → length place.auction ≡ 16
        → IsOpening opening → length (message place opening) ≡ 68 }
    ensures differ { (place other : Place) (first second : Opening) → IsOpening first
        → IsOpening second → first.value ≢ second.value
        → message place first ≢ message other second }
{}

/// Every commitment is 32 bytes.
pub fn commitments_are_bytes()
    ensures { (place : Place) (opening : Opening) → AreBytes 32 (digest_of place opening) }
{}
