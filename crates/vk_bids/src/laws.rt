// What holds of every lane that is accepted for both bits, and of two replies behind a front and to
// a board.
ghost use Rattle.std.specs.Prelude.{ℕ, List};
ghost use Rattle.vk_verifier.specs.Refusals.{board_form};
ghost use Rattle.vk_verifier.specs.Verdicts.{board_front_at};
ghost use Rattle.vk_bids.specs.Binding.{FilesAreConfronted, OnlyAcceptedAreConfronted, OthersAreMalformed, SealedAreHeldOrClash, SecretsAreBound};
ghost use Rattle.vk_bids.specs.Headline.{AcceptedAreExtracted, AcceptedBehindOpen, FilesAreExtracted, OnlyAcceptedAreExtracted, OnlyAcceptedOpen, SameIsFound};
ghost use Rattle.vk_bids.specs.FileExtraction.{file_extraction_in};
ghost use Rattle.vk_bids.specs.FileHeadline.{ExtractionHoldsOf};
ghost use Rattle.vk_bids.specs.Laws.{AcceptedLanesOpen, AcceptedLanesShow};

/// Of any statement and any of its lanes, where a reply is accepted for bit 0 and another for bit
/// 1: the values that they give open the lane's seals, and are inputs for which the statement's
/// circuit holds. Or an entry was opened with two values, and then the first such entry has two
/// openings with different values.
pub fn accepted_lanes_open_values()
    ensures { AcceptedLanesOpen }
{}

/// Of any board's front and any of its lanes, where a reply is accepted for bit 0 and another for
/// bit 1: the bids that they open are below 2^width, open the lane's seals, and make the published
/// sale under the board's reserve, which is 0 with version 1. Or an entry was opened with two
/// values, and then the first such entry has two openings with different values.
pub fn accepted_lanes_show_the_outcome()
    ensures { AcceptedLanesShow }
{}

/// Of any statement, any front and any files, where both replies are accepted behind the front and
/// the challenges differ: they come to the values of just the lanes whose two bits differ. In each
/// of these they open the lane's seals by what the replies show, and are inputs for which the
/// statement's circuit holds. Or they come to a clash: of the first of these lanes that has one,
/// the first commitment with two openings of different values.
///
/// Only such files come to values or a clash.
pub fn accepted_replies_open_values_or_clash()
    ensures given { AcceptedBehindOpen }
    ensures only { OnlyAcceptedOpen }
{}

/// Of any five files, where both replies are accepted with the board and the challenges differ: the
/// extraction is the bids of just the lanes whose two bits differ. In each of these they are below
/// 2^width, and open the lane's seals by what the replies show. Whatever the board's version, the
/// sale that they make under its reserve is the one that it publishes. Or the extraction is a
/// clash: of the first of these lanes that has one, the first commitment with two openings of
/// different values.
///
/// Only such files give bids or a clash, and the challenges are found to be the same exactly where
/// both replies are accepted and the bits are equal. What is found is what the verdicts on both
/// come to. The extraction of named files is that of their bytes.
pub fn accepted_replies_give_bids_or_a_clash()
    ensures given { AcceptedAreExtracted }
    ensures only { OnlyAcceptedAreExtracted }
    ensures same { SameIsFound }
    ensures found { (board challenge reply other second : List ℕ)
        → ExtractionHoldsOf board_form
        (file_extraction_in board_front_at board challenge reply other second) board challenge reply
        other second }
    ensures files { FilesAreExtracted }
{}

/// Of any six files, where both replies are accepted with the board, the challenges differ, and the
/// last file is the text of a secret: where the secret is held, it matches the board's seal of its
/// seat, and in every lane whose two bits differ both halves that were opened of that seal are the
/// secret's, and so is the bid. Else no seal has the seat; or that seal isn't the secret's; or one
/// commitment has two openings of different values: one that the replies open, or one of that seal,
/// which the secret opens and a reply opens with another value.
///
/// Where a seal on the board is the secret's, the secret is held or there is a clash, so there is
/// one where a half that was opened isn't the secret's. A file that is no secret is named with its
/// fault line, and only replies that are accepted for different challenges come to any of this. The
/// confrontation of named files is that of their bytes.
pub fn a_secret_is_bound_by_accepted_replies()
    ensures bound { SecretsAreBound }
    ensures sealed { SealedAreHeldOrClash }
    ensures malformed { OthersAreMalformed }
    ensures only { OnlyAcceptedAreConfronted }
    ensures files { FilesAreConfronted }
{}
