// A bidder's secret against two replies to a board.
ghost use Rattle.std.specs.Prelude.{◌≡◌, ◌<◌, ◌≤◌, ◌^◌, ℕ, List, All, IfOk, IfSome, IsErrOf, Ok, Result, length};
ghost use Rattle.std.specs.FinMap as map;
ghost use Rattle.vk_judge.specs.Common.{Causes, Files, Gives, GivesReading, MemoryWasWanting, OnlyReads, Rest, Starts, rest_of};
ghost use Rattle.vk_seal.specs.Made.{seal_of};
ghost use Rattle.vk_seal.specs.Values.{IsSecret};
ghost use Rattle.vk_board.specs.Fronts.{IsFront};
ghost use Rattle.vk_bids.specs.Confrontation.{OpensSecretIn, Secret, board_seal, confrontation_named, confrontation_of, confronted_found, confronted_lane, confronted_lanes, fault_of, index_of_seat, match_of, matched_by, secret_at, secret_begun, secret_in};
ghost use Rattle.vk_bids.specs.Extraction.{Shows};
ghost use Rattle.vk_bids.specs.Outcome.{LaneShows};

use crate::bids::LaneBids;
use crate::extraction::{Extracted, Extraction, begin, extract_rest};
use std::alloc::Global;
use vk_board::{Front, SealLines};
use vk_commit::TwoOpenings;
use vk_io::{OutsideErr, Shelf};
use vk_judge::{TwoReplies, VErr};
use vk_lines::{Lines, ReadErr, StartErr};
use vk_seal::{Mismatch, Seal, Secret, matches, read_secret};
use vk_verifier::BoardVerdict;

/// The names of the files that a secret is confronted with, and its own.
#[derive(Clone, Copy, Debug)]
pub struct SecretAndReplies<'a> {
    pub replies: TwoReplies<'a>,
    pub secret: &'a str,
}

/// What a secret comes to against two replies to a board: the first of these tests that fails, or
/// that it is held.
#[derive(Debug, Drop)]
pub enum Confrontation {
    /// The verdict on the first reply, where that isn't accepted, else the verdict on the second,
    /// which isn't. The second's names the second challenge or the second reply in place of a first
    /// one.
    Refused { second: bool, verdict: BoardVerdict },
    /// Both replies are accepted, and the challenges' bits are the same.
    Same,
    /// The file is no secret. The line, counted from 1, is the first that isn't what its place
    /// demands.
    Malformed { line: u64 },
    /// No seal on the board has the secret's seat.
    NoSeal { seat: u16 },
    /// The board's seal of the secret's seat isn't the secret's.
    Mismatch(Mismatch),
    /// One commitment was opened with two values: by the replies, before a secret is asked for; or
    /// by the secret and a reply, in the first lane with different bits where this is so.
    Clash(TwoOpenings),
    /// The secret has the seal, and in every lane with different bits its halves are those that
    /// were opened.
    Held { seat: u16 },
}

/// Why a secret was not confronted.
#[derive(Clone, Copy, Debug, PartialEq, Eq)]
pub enum ConfrontErr {
    /// A file of the extraction is missing or too long; or the outside failed, where the shelf's
    /// count of faults rose in this call; or want of memory.
    Unread(VErr),
    /// The secret's file, which is named last, isn't held, and the others are held and not too
    /// long.
    MissingSecret,
    /// The secret's file has more than 2^30 bytes, and the others are held and not too long.
    TooLongSecret,
}

impl From<VErr> for ConfrontErr {
    ghost use Rattle.std.specs.Prelude.{◌≡◌};
    ghost use Rattle.vk_bids.specs.declared.confrontation.ConfrontErr.TheVariants.{Unread};

    ghost from_gives = { λ refused e. e ≡ Unread refused };

    fn from(refused: VErr) -> ConfrontErr {
        ConfrontErr::Unread(refused)
    }
}

impl From<OutsideErr> for ConfrontErr {
    ghost use Rattle.std.specs.Prelude.{◌≡◌};
    ghost use Rattle.vk_io.specs.Faults.{told_as};
    ghost use Rattle.vk_judge.specs.declared.answers.VErr.TheVariants.{Failed, NoMemory};
    ghost use Rattle.vk_bids.specs.declared.confrontation.ConfrontErr.TheVariants.{Unread};

    ghost from_gives = { λ outside e. e ≡ Unread (told_as Failed NoMemory outside) };

    fn from(outside: OutsideErr) -> ConfrontErr {
        ConfrontErr::Unread(VErr::from(outside))
    }
}

/// What a secret comes to against the replies to two challenges. The tests come in this order: what
/// the replies come to, a clash between them, the form of the secret's file, the seal of its seat,
/// and then lane by lane what was opened of that seal.
///
/// Errs where a file is missing or longer than 2^30 bytes, and names the first that is, in the
/// order of the names; where the shelf fails; and for want of memory.
pub fn confront<S: Shelf>(
    alloc: Global,
    shelf: &mut S,
    names: &SecretAndReplies<'_>,
) -> Result<Confrontation, ConfrontErr>
    ensures modelled { IfSome (S.held shelf.old)
        (λ files. Gives fault_of (λ confrontation. confrontation) result
        (confrontation_named files names.now)) }
    ensures wanting { IsErrOf result (ConfrontErr.Unread VErr.NoMemory) → MemoryWasWanting }
    ensures shelf { OnlyReads S.held S.Shelf.faults (ConfrontErr.Unread VErr.Failed) result
        shelf.old shelf.new }
{
    let checker = begin(alloc, shelf, &names.replies)?;
    let mut lines = begin_secret(alloc, shelf, names.secret)?;
    let extraction = extract_rest(alloc, shelf, checker)?;
    let secret = secret_of(alloc, shelf, &mut lines)?;
    let confrontation = compare_secret(extraction, secret);
    Ok(confrontation)
}

/// Begins to read the secret's file.
#[tactic(auto, using(vk_judge::specs::Wanting::memory_was_wanting))]
fn begin_secret<S: Shelf>(alloc: Global, shelf: &mut S, name: &str) -> Result<Lines, ConfrontErr>
    ensures modelled { IfSome (S.held shelf.old) (λ files.
        Gives fault_of (λ lines. rest_of lines files) result
        (secret_begun (map.get files name.now))) }
    ensures wanting { IsErrOf result (ConfrontErr.Unread VErr.NoMemory) → MemoryWasWanting }
    ensures shelf { OnlyReads S.held S.Shelf.faults (ConfrontErr.Unread VErr.Failed) result
        shelf.old shelf.new }
{
    let started = Lines::start(alloc, shelf, name);
    let lines = secret_lines(started);
    lines
}

/// The secret's file from its first line on, or why it was not begun.
fn secret_lines(started: Result<Lines, StartErr>) -> Result<Lines, ConfrontErr>
    ensures modelled { (files : Files) (name : List ℕ) → Starts files name started
        → Gives fault_of (λ lines. rest_of lines files) result (secret_begun (map.get files name)) }
    ensures causes { (before : ℕ) (after : ℕ) → Causes StartErr.Failed started before after
        → Causes (ConfrontErr.Unread VErr.Failed) result before after }
{
    match started {
        Ok(lines) => Ok(lines),
        Err(StartErr::Missing) => Err(ConfrontErr::MissingSecret),
        Err(StartErr::TooLong) => Err(ConfrontErr::TooLongSecret),
        Err(StartErr::Failed) => Err(ConfrontErr::Unread(VErr::Failed)),
        Err(StartErr::NoMemory) => Err(ConfrontErr::Unread(VErr::NoMemory)),
    }
}

/// The secret, or the fault line of its file.
#[tactic(auto, using(vk_judge::specs::Wanting::memory_was_wanting))]
fn secret_of<S: Shelf>(
    alloc: Global,
    shelf: &mut S,
    lines: &mut Lines,
) -> Result<Result<Secret, u64>, OutsideErr>
    ensures modelled { IfOk result (λ secret. IfSome (S.held shelf.old) (λ files.
        secret_in (secret_at (rest_of lines.old files)) ≡ secret)) }
    ensures right { IfOk result (λ secret. IfOk secret IsSecret) }
    ensures wanting { IsErrOf result OutsideErr.NoMemory → MemoryWasWanting }
    ensures shelf { OnlyReads S.held S.Shelf.faults OutsideErr.Failed result shelf.old shelf.new }
{
    let read = read_secret(alloc, shelf, lines);
    let secret = secret_or_fault(read);
    secret
}

/// What was read, with a fault line as a value.
fn secret_or_fault(read: Result<Secret, ReadErr>) -> Result<Result<Secret, u64>, OutsideErr>
    requires { IfOk read IsSecret }
    ensures modelled { (rest : Rest) (expected : Result (Secret × Rest) ℕ)
        → GivesReading (λ x. x) read rest expected
        → IfOk result (λ secret. secret_in expected ≡ secret) }
    ensures right { IfOk result (λ secret. IfOk secret IsSecret) }
    ensures causes { (before : ℕ) (after : ℕ) → Causes ReadErr.Failed read before after
        → Causes OutsideErr.Failed result before after }
{
    match read {
        Ok(secret) => Ok(Ok(secret)),
        Err(ReadErr::Malformed { line }) => Ok(Err(line)),
        Err(ReadErr::Failed) => Err(OutsideErr::Failed),
        Err(ReadErr::NoMemory) => Err(OutsideErr::NoMemory),
    }
}

/// The secret against what the replies come to.
fn compare_secret(extraction: Extraction, secret: Result<Secret, u64>) -> Confrontation
    requires shows { Shows extraction }
    requires secret { IfOk secret IsSecret }
    ensures { result ≡ confrontation_of extraction secret }
{
    match extraction {
        Extraction::Refused { second, verdict } => Confrontation::Refused { second, verdict },
        Extraction::Same => Confrontation::Same,
        Extraction::Clash(two) => Confrontation::Clash(two),
        Extraction::Bids(found) => match secret {
            Ok(secret) => confront_found(&secret, found),
            Err(line) => Confrontation::Malformed { line },
        },
    }
}

/// The secret against the seal of its seat, and then against the bids of that seal.
fn confront_found(secret: &Secret, found: Extracted) -> Confrontation
    requires secret { IsSecret secret.now }
    requires front { IsFront found.front }
    requires shows { All (LaneShows found.front) found.lanes }
    ensures { result ≡ confronted_found secret.now found }
{
    let Extracted { front, lanes } = found;
    match index_of_seat(front.seals.as_slice(), secret.seat) {
        None => Confrontation::NoSeal { seat: secret.seat },
        Some(index) => {
            let seal = seal_at(front, index);
            confront_seal(secret, index, &seal, lanes.as_slice())
        }
    }
}

/// The index, from 0, of the seal of that seat.
fn index_of_seat(seals: &[SealLines], seat: u16) -> Option<usize>
    ensures { result ≡ index_of_seat seat seals.now }
{
    seals.iter().position(|seal| seal.seat == seat)
}

/// The board's seal at that index, from 0.
fn seal_at(front: Front, index: usize) -> Seal
    requires { index < length front.seals }
    ensures { result ≡ board_seal front.head front.seals index }
{
    let auction = front.head.auction;
    let mut seals = front.seals.into_vec();
    let SealLines { seat, coms } = seals.swap_remove(index);
    Seal {
        auction,
        seat,
        lanes: coms,
    }
}

/// The secret against the seal at that index, and then against its bids.
fn confront_seal(secret: &Secret, index: usize, seal: &Seal, lanes: &[LaneBids]) -> Confrontation
    requires secret { IsSecret secret.now }
    requires few_kept { length seal.now.lanes ≤ 64 }
    requires opened { (seal.now ≡ seal_of secret.now)
        → All (OpensSecretIn secret.now index) lanes.now }
    ensures { result ≡ matched_by secret.now index lanes.now (match_of secret.now seal.now) }
{
    match matches(secret, seal) {
        Err(mismatch) => Confrontation::Mismatch(mismatch),
        Ok(()) => match confront_lanes(secret, index, lanes) {
            Some(two) => Confrontation::Clash(two),
            None => Confrontation::Held { seat: secret.seat },
        },
    }
}

/// The secret against the bids of the seal at that index, lane by lane: the first clash.
fn confront_lanes(secret: &Secret, index: usize, lanes: &[LaneBids]) -> Option<TwoOpenings>
    requires small_bid { secret.now.bid < 2 ^ 40 }
    requires few_lanes { length secret.now.lanes ≤ 64 }
    requires opened { All (OpensSecretIn secret.now index) lanes.now }
    ensures { result ≡ confronted_lanes secret.now index lanes.now }
{
    for lane in lanes {
        if let Some(two) = confront_lane(secret, index, lane) {
            return Some(two);
        }
    }
    None
}

/// The secret against the bid of the seal at that index, in the lane.
fn confront_lane(secret: &Secret, index: usize, lane: &LaneBids) -> Option<TwoOpenings>
    requires small_bid { secret.now.bid < 2 ^ 40 }
    requires few_lanes { length secret.now.lanes ≤ 64 }
    requires opened { OpensSecretIn secret.now index lane.now }
    ensures { result ≡ confronted_lane secret.now index lane.now }
{
    match lane.bids.as_slice().get(index) {
        None => None,
        Some(bid) => vk_extractor::confront(secret, lane.number, &bid.first, &bid.second),
    }
}
