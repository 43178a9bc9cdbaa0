// What holds of views and moved tapes: of any circuit, of bids, and of every auction that is
// proved.
ghost use Rattle.vk_views.specs.Auctions.{OtherBidsGiveTheViews, PostedAreThoseOfViews, RepliesAreTextsOfViews};
ghost use Rattle.vk_views.specs.Bids.{BothHold, OfOneOutcome};
ghost use Rattle.vk_views.specs.Laws.{MovedTapesAreTapes, OfWires, RowsPostTheSame, ShowsTheSame, TapesAreEquallyMany, TapesComeBack, TapesOfLanesAreEquallyMany, TapesStayForBit0, ViewsAreTheSame, WhereBothHold, WireComesBack};

/// A law of one wire, a split one and a pair: with its tape moved it shows of the other value what
/// it showed of the value. With the values exchanged, the tape moves back.
pub fn moved_wires_show_the_same()
    ensures shown { OfWires ShowsTheSame }
    ensures back { OfWires WireComesBack }
{}

/// A law of one row that is 0 on two lists of values: with the tape moved its posted number stays.
pub fn rows_post_the_same()
    ensures { RowsPostTheSame }
{}

/// A law of any plan and two lists of values that hold for it: with the moved tape the others give
/// the view of the values with the tape, for either bit. With the lists exchanged, the tape moves
/// back.
///
/// So moving takes the tapes by which the values give a view to those by which the others give it,
/// one to one and onto: there are equally many. The same holds over all lanes of any challenge.
pub fn moved_tapes_give_the_same_views()
    ensures views { WhereBothHold ViewsAreTheSame }
    ensures back { WhereBothHold TapesComeBack }
    ensures tapes { WhereBothHold MovedTapesAreTapes }
    ensures bit_0 { WhereBothHold TapesStayForBit0 }
    ensures equally_many { WhereBothHold TapesAreEquallyMany }
    ensures all_lanes { WhereBothHold TapesOfLanesAreEquallyMany }
{}

/// A law of any two lists of bids, equally many and below 2^width each, of which an auction
/// publishes one sale under one reserve, in either version of a board: a winner and a price, or
/// that nothing is sold. Nothing else is asked but that there are 1 to 64 of them, the width is 1
/// to 40, and the reserve is below 2^width, and 0 in version 1.
///
/// Their values hold for one plan. So for either bit and any tape, the first bids with the tape and
/// the other bids with the moved tape give one view, and back; and each view arises from equally
/// many tapes, in a lane and over all lanes of any challenge.
///
/// A losing bid is hidden among all that leave the outcome as it is, as far as what is opened and
/// posted tells. That digests hide what isn't opened is not claimed.
pub fn bids_of_one_outcome_give_the_same_views()
    ensures held { OfOneOutcome BothHold }
    ensures views { OfOneOutcome ViewsAreTheSame }
    ensures back { OfOneOutcome TapesComeBack }
    ensures equally_many { OfOneOutcome TapesAreEquallyMany }
    ensures all_lanes { OfOneOutcome TapesOfLanesAreEquallyMany }
{}

/// A law of every auction that is proved, of either version, sold or not: the reply to a challenge
/// is the text of what the views of its lanes show, and the numbers that the board posts are those
/// of the views. What else stands in a lane of the board is digests, by
/// `vk_job::published_boards_are_of_their_form`. Other bids of the sale give the same views, with
/// the moved tapes.
pub fn what_is_handed_out_is_the_views()
    ensures replies { RepliesAreTextsOfViews }
    ensures posted { PostedAreThoseOfViews }
    ensures others { OtherBidsGiveTheViews }
{}
