// The names of the files of a sample's claim.
ghost use Rattle.std.specs.Prelude.{◌≡◌};
ghost use Rattle.vk_words.specs.Names.{extract_seen};
ghost use Rattle.vk_claims.specs.Texts.{claim_names};

use vk_judge::TwoReplies;

/// The names of the files.
pub fn claim_names() -> TwoReplies<'static>
    ensures { extract_seen result ≡ claim_names }
{
    TwoReplies {
        file: "claim-board",
        challenge1: "claim-challenge-1",
        reply1: "claim-reply-1",
        challenge2: "claim-challenge-2",
        reply2: "claim-reply-2",
    }
}
