//! What a report means, and what every sample has.

ghost use Rattle.std.specs.Prelude.{ℕ};
ghost use Rattle.vk_report.specs.Meaning.{RefusedExactly, ReportedExactly, UnreportedExactly};
ghost use Rattle.vk_report.specs.Samples.{IsSampleCase, sample_of};

/// A law: a file is reported on exactly where it is the text of a board whose price and winner may
/// stand, and the report says what that board publishes.
pub fn a_file_is_reported_on_where_it_is_a_board()
    ensures { ReportedExactly }
{}

/// A law: no report is made of a file exactly where the file isn't held, is longer than 2^30 bytes,
/// begins with a head and seals whose price or whose winner may not stand, or has a fault line by
/// the board's table and no fault of that kind before it; and that is the refusal.
pub fn a_file_is_refused_for_what_fails_first()
    ensures bytes { RefusedExactly }
    ensures files { UnreportedExactly }
{}

/// A law: the sample of each number has an id and a seed; 20 seals of different seats, each with
/// its bidder's seed and a bid below 2^32; and two challenges of 40 bits that differ in each.
pub fn each_number_has_a_sample()
    ensures { (number : ℕ) → IsSampleCase (sample_of number) }
{}
