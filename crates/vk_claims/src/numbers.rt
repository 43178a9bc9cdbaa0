// The numbers that the claim of a sample publishes: the width of the sealed values, and what is
// claimed of them.
ghost use Rattle.std.specs.Prelude.{◌≡◌, ◌++◌, IfOk};
ghost use Rattle.vk_report.specs.Samples.{IsCaseOf};
ghost use Rattle.vk_claims.specs.Claims.{Publishes, sizes_of};
ghost use Rattle.vk_words.specs.declared.claim.Kind.TheVariants.{Uniform, Matching};

use std::alloc::Global;
use vk_matching::propose;
use vk_report::{SampleCase, Sizes};
use vk_residue::NoMemory;
use vk_seq::Seq;
use vk_uniform::uniform;
use vk_words::Kind;

/// How many units are sold.
const UNITS: u32 = 3;

/// How many men are matched with as many women.
const COUPLES: u32 = 4;

/// What the case of a claim has: 10 seals of bids below 2^16, or 32 of ranks below 2^8, and 8
/// lanes.
pub fn sizes_of(kind: Kind) -> Sizes
    ensures { result ≡ sizes_of kind }
{
    match kind {
        Kind::Uniform => Sizes {
            letters: *b"VKS2",
            seals: 10,
            width: 16,
            lanes: 8,
        },
        Kind::Matching => Sizes {
            letters: *b"VKS3",
            seals: 32,
            width: 8,
            lanes: 8,
        },
    }
}

/// Numbers that may be published of the case.
pub fn numbers_of(alloc: Global, kind: Kind, case: &SampleCase) -> Result<Seq<u64>, NoMemory>
    requires { IsCaseOf (sizes_of kind) case.now }
    ensures { Publishes kind case.now result }
{
    match kind {
        Kind::Uniform => {
            let numbers = sale_of(alloc, case)?;
            Ok(numbers)
        }
        Kind::Matching => {
            let numbers = matching_of(alloc, case)?;
            Ok(numbers)
        }
    }
}

/// The width, the price, and the winners of the one outcome that the bids have.
#[tactic(auto, using(vk_judge::specs::Wanting::memory_was_wanting))]
fn sale_of(alloc: Global, case: &SampleCase) -> Result<Seq<u64>, NoMemory>
    requires { IsCaseOf (sizes_of Uniform) case.now }
    ensures { Publishes Uniform case.now result }
{
    let outcome = uniform(alloc, case.bids.as_slice(), UNITS)?;
    let front = [u64::from(case.width), outcome.price];
    let numbers = list_numbers(alloc, &front, outcome.winners.as_slice())?;
    Ok(numbers)
}

/// The width, and a matching that no pair blocks by the ranks.
#[tactic(auto, using(vk_judge::specs::Wanting::memory_was_wanting))]
fn matching_of(alloc: Global, case: &SampleCase) -> Result<Seq<u64>, NoMemory>
    requires { IsCaseOf (sizes_of Matching) case.now }
    ensures { Publishes Matching case.now result }
{
    let matching = propose(alloc, COUPLES, case.bids.as_slice())?;
    let numbers = list_numbers(alloc, &[u64::from(case.width)], matching.as_slice())?;
    Ok(numbers)
}

/// These numbers, and then those of persons.
fn list_numbers(alloc: Global, front: &[u64], persons: &[u32]) -> Result<Seq<u64>, NoMemory>
    ensures { IfOk result (λ numbers. numbers ≡ front.now ++ persons.now) }
{
    let mut numbers = Vec::from_slice(alloc, front)?;
    for person in persons {
        numbers.push(u64::from(*person))?;
    }
    Ok(Seq::from_vec(numbers))
}
