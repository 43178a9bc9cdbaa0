// What holds of every lane.
ghost use Rattle.vk_row.specs.Laws.{LaneComputes};

/// What definitions compute of a lane is its halves where it is accepted, and else its first fault.
pub fn checked_lanes_are_those_accepted()
    ensures { LaneComputes }
{}
