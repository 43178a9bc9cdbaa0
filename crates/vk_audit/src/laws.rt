//! What the statuses of an auditor's commands mean.

ghost use Rattle.vk_audit.specs.Answers.{TellsConfrontations, TellsExtractions, TellsReports, TellsVerdicts};
ghost use Rattle.vk_audit.specs.Statuses.{BindsExactly, ExtractsExactly, ReportsExactly, TellsSameExactly, VerifiesExactly};

/// A law, over any files and any names of them.
///
/// `verify` says status 0 exactly where its reply is accepted. Of two replies that are accepted for
/// different challenges `extract` says the bids whose sale the board publishes, with status 0, or
/// two openings of one commitment, with status 3, and it says neither of others; status 7 exactly
/// where both are accepted and the challenges don't differ. `confront` says status 0 only where the
/// secret has the board's seal of its seat and the replies open just its halves; where they open
/// another of its own seal, status 3 with two openings of one commitment. `report` says status 0
/// exactly where the file is a board whose price and winner may stand, and then what it publishes.
///
/// And whichever status they say, it is that of an answer that holds of the files by their bytes
/// alone, and its text is the answer's: which file is the first that isn't held or is too long,
/// which line of a file is its fault line, what of the board, of a reply or of a secret is refused,
/// or one of those above. Whatever of these refusals holds is what is said. Where two replies clash
/// `confront` says so whatever the secret's file holds.
pub fn statuses_mean_what_the_files_are()
    ensures verified { VerifiesExactly }
    ensures extracted { ExtractsExactly }
    ensures same { TellsSameExactly }
    ensures bound { BindsExactly }
    ensures reported { ReportsExactly }
    ensures verdict_told { TellsVerdicts }
    ensures extraction_told { TellsExtractions }
    ensures confrontation_told { TellsConfrontations }
    ensures report_told { TellsReports }
{}
