//! What the statuses of the commands on claims mean.

ghost use Rattle.std.specs.Prelude.{ℕ, List};
ghost use Rattle.vk_claims.specs.Statuses.{AdmitsMatching, AdmitsUniform, ExtractsClaimsExactly, TellsClaimExtractions, TellsClaimVerdicts, TellsSameClaimsExactly, VerifiesClaimsExactly};

/// A law: a public part is admitted exactly where there is a circuit of its numbers, is shown by
/// the plan of this circuit, and claims what the circuit does.
pub fn a_part_is_admitted_where_its_circuit_is()
    ensures uniform { (inputs : ℕ) (numbers : List ℕ) → AdmitsUniform inputs numbers }
    ensures matching { (inputs : ℕ) (numbers : List ℕ) → AdmitsMatching inputs numbers }
{}

/// A law, over any files and any names of them.
///
/// `claim-verify` says status 0 exactly where its reply is accepted. Of two replies that are
/// accepted for different challenges `claim-extract` says, with status 0, values of every lane
/// whose bits differ: they open the lane's seals, and the file's claim holds of them; or it says
/// two openings of one commitment, with status 3. It says neither of others. Status 7 comes exactly
/// where both are accepted and the challenges don't differ.
///
/// And whichever status they say, it is that of an answer that holds of the files by their bytes
/// alone, and its text is the answer's: which file is the first that isn't held or is too long,
/// which line of a file is its fault line, that the public part isn't admitted, what of a reply is
/// refused, or one of those above. Whatever of these refusals holds is what is said.
pub fn statuses_of_claims_mean_what_the_files_are()
    ensures verified { VerifiesClaimsExactly }
    ensures extracted { ExtractsClaimsExactly }
    ensures same { TellsSameClaimsExactly }
    ensures verdict_told { TellsClaimVerdicts }
    ensures extraction_told { TellsClaimExtractions }
{}
