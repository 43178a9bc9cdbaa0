//! `prove` and `answer`, each of which writes a file of the auction: its board, and the reply to a
//! challenge.

ghost use Rattle.std.specs.Prelude.{◌≡◌, ◌∷◌, [], ℕ, IfErr, IfOk, IfSome, IsOk, List, Some, length};
ghost use Rattle.vk_reply.specs.Values.{IsChallenge};
ghost use Rattle.vk_keeper.specs.Auctions.{challenge_of};
ghost use Rattle.vk_job.specs.Jobs.{IsProvedAuction, winner_of};
ghost use Rattle.vk_job.specs.Published.{board_of, reply_of};
ghost use Rattle.vk_words.specs.Orders.{Prove as ProveWords, Answer as AnswerWords};
ghost use Rattle.vk_house.specs.Commands.{Prove, Answer};
ghost use Rattle.vk_effect.specs.Reading.{said_of_unread};
ghost use Rattle.vk_auctioneer.specs.Answers.{Leaves, Says, AsksOnce};
ghost use Rattle.vk_auctioneer.specs.Common.{Acts, Causes, CausesTwo, GetsOnce, KeepsAnswers, Modelled, as_reply, stores, work_of, Gives, OnlyReads};
ghost use Rattle.vk_auctioneer.specs.Effects.{board_file, on_ledger, prove_effect, answer_effect, asked, on_both, reply_file};
ghost use Rattle.vk_auctioneer.specs.Inputs.{challenge_in};
ghost use Rattle.vk_auctioneer.specs.Laws.{IsText};
ghost use Rattle.vk_auctioneer.specs.Leaving.{LeavesAsSaid};
ghost use Rattle.vk_auctioneer.specs.Lines.{TakesNoMemory, done_said, proved_line, answered_line};

use crate::refusals::say_refusal;
use std::alloc::Global;
use vk_effect::{Said, Unread, begin_named, named_value};
use vk_house::{House, HouseErr};
use vk_io::{OutsideErr, Shelf, WrittenFiles, write_files};
use vk_job::Job;
use vk_keeper::Keeper;
use vk_reply::{Challenge, read_challenge};
use vk_residue::NoMemory;
use vk_text::ShortText;
use vk_vickrey::Sale;

/// Proves the auction, and writes its board.
pub fn prove<S: Shelf, K: Keeper + Drop>(
    alloc: Global,
    shelf: &mut S,
    keeper: &mut K,
    id: &[u8; 16],
    seed: &[u8; 32],
    board: &str,
) -> Result<Said, OutsideErr>
    ensures acts { IfSome (on_ledger (λ kept. prove_effect kept id.now seed.now board.now)
        (K.ledger keeper.old))
        (λ effect. Acts result effect (stores (S.held shelf.old) (K.ledger keeper.old))
        (stores (S.held shelf.new) (K.ledger keeper.new))) }
    ensures files { LeavesAsSaid (ProveWords id.now seed.now board.now) result (S.held shelf.old)
        (S.held shelf.new) }
    ensures once { Modelled KeepsAnswers (K.ledger keeper.old) (K.ledger keeper.new) }
    ensures turns { GetsOnce (K.turns keeper.old) (K.turns keeper.new) }
    ensures causes { CausesTwo OutsideErr.Failed result (S.Shelf.faults shelf.old)
        (S.Shelf.faults shelf.new) (K.faults keeper.old) (K.faults keeper.new) }
{
    let mut house = House::over(keeper);
    let said = say_proved(alloc, shelf, board, house.prove(alloc, id, seed));
    said
}

/// What `prove` says by the house's answer. The board of a job is written to the named file.
fn say_proved<S: Shelf>(
    alloc: Global,
    shelf: &mut S,
    name: &str,
    answer: Result<Job, HouseErr>,
) -> Result<Said, OutsideErr>
    ensures said { (id seed : List ℕ) → Says (Prove id seed) (as_reply work_of answer) result }
    ensures written { Modelled (Leaves (board_file name.now (as_reply work_of answer)) result)
        (S.held shelf.old) (S.held shelf.new) }
    ensures proved { IfOk answer (λ job. IsProvedAuction job.auction) }
    ensures told { IfErr answer (λ refusal. TakesNoMemory refusal → IsOk result) }
    ensures causes { (before after : ℕ) → Causes HouseErr.KeeperFailed answer before after
        → CausesTwo OutsideErr.Failed result (S.Shelf.faults shelf.old) (S.Shelf.faults shelf.new)
        before after }
{
    match answer {
        Ok(job) => publish(alloc, shelf, name, &job),
        Err(refusal) => say_refusal(alloc, 0, refusal),
    }
}

/// Writes the board of a job to the named file. What is said is made before.
fn publish<S: Shelf>(
    alloc: Global,
    shelf: &mut S,
    name: &str,
    job: &Job,
) -> Result<Said, OutsideErr>
    ensures said { IfOk result
        (λ said. said ≡ done_said (proved_line (winner_of job.now.auction) job.now.sale)) }
    ensures written { Modelled (Leaves ((name.now, board_of job.now.auction) ∷ []) result)
        (S.held shelf.old) (S.held shelf.new) }
    ensures proved { IsProvedAuction job.now.auction }
    ensures causes { Causes OutsideErr.Failed result (S.Shelf.faults shelf.old)
        (S.Shelf.faults shelf.new) }
{
    let auction = job.auction();
    let said = Said::of_short(0, proved_line(job.winner(), job.sale()));
    write_files(alloc, shelf, &BoardFile { name, job })?;
    Ok(said)
}

/// The line of an auction that is proved: the winner's seat and the price, or that nothing is sold.
fn proved_line(winner: Option<u16>, sale: Sale) -> ShortText
    ensures { result ≡ proved_line winner sale }
{
    match (winner, sale) {
        (Some(winner), Sale::Sold { price, .. }) => ShortText::new()
            .word("proved winner ")
            .number(u64::from(winner))
            .word(" price ")
            .number(price)
            .word("\n"),
        _ => ShortText::new().word("proved unsold\n"),
    }
}

/// The file that the board of a job is written to.
#[derive(Drop)]
struct BoardFile<'a> {
    name: &'a str,
    job: &'a Job,
}

impl<'a> WrittenFiles for BoardFile<'a> {
    ghost use Rattle.std.specs.Prelude.{[], ◌∷◌};
    ghost use Rattle.vk_job.specs.Published.{board_pieces};

    ghost files = { λ f. record { name = f.name.now; pieces = board_pieces f.job.now.auction }
        ∷ [] };

    fn count(&self) -> usize {
        1
    }

    fn name(&self, _file: usize) -> &str {
        self.name
    }

    fn pieces(&self, _file: usize) -> usize {
        self.job.board_pieces()
    }

    fn piece(&self, alloc: Global, _file: usize, index: usize) -> Result<Vec<u8>, NoMemory> {
        let piece = self.job.board_piece(alloc, index)?;
        Ok(piece)
    }
}

/// Answers the named challenge, and writes the reply.
pub fn answer<S: Shelf, K: Keeper + Drop>(
    alloc: Global,
    shelf: &mut S,
    keeper: &mut K,
    id: &[u8; 16],
    challenge: &str,
    reply: &str,
) -> Result<Said, OutsideErr>
    ensures acts { IfSome (on_both
        (λ held kept. answer_effect held kept id.now challenge.now reply.now) (S.held shelf.old)
        (K.ledger keeper.old))
        (λ effect. Acts result effect (stores (S.held shelf.old) (K.ledger keeper.old))
        (stores (S.held shelf.new) (K.ledger keeper.new))) }
    ensures files { LeavesAsSaid (AnswerWords id.now challenge.now reply.now) result
        (S.held shelf.old) (S.held shelf.new) }
    ensures once { Modelled KeepsAnswers (K.ledger keeper.old) (K.ledger keeper.new) }
    ensures turns { AsksOnce (K.turns keeper.old) (K.turns keeper.new) }
    ensures causes { CausesTwo OutsideErr.Failed result (S.Shelf.faults shelf.old)
        (S.Shelf.faults shelf.new) (K.faults keeper.old) (K.faults keeper.new) }
{
    match asked_challenge(alloc, shelf, challenge) {
        Ok(challenge) => {
            let said = answer_challenge(alloc, &challenge, shelf, keeper, id, reply);
            said
        }
        Err(unread) => unread.said_or_stopped(),
    }
}

/// Reads the named challenge.
#[tactic(auto, unfolding(vk_effect::specs::Reading::named_in))]
fn asked_challenge<S: Shelf>(alloc: Global, shelf: &mut S, name: &str) -> Result<Challenge, Unread>
    ensures modelled { IfSome (S.held shelf.old)
        (λ files. Gives said_of_unread (λ challenge. challenge) result
        (challenge_in files name.now)) }
    ensures right { IfOk result IsChallenge }
    ensures shelf { OnlyReads S.held S.Shelf.faults Unread.Failed result shelf.old shelf.new }
{
    let mut lines = begin_named(alloc, shelf, name)?;
    let challenge = read_challenge(alloc, shelf, &mut lines);
    let challenge = named_value(alloc, name, challenge);
    challenge
}

/// Answers a challenge, and writes the reply.
fn answer_challenge<S: Shelf, K: Keeper + Drop>(
    alloc: Global,
    challenge: &Challenge,
    shelf: &mut S,
    keeper: &mut K,
    id: &[u8; 16],
    reply: &str,
) -> Result<Said, OutsideErr>
    requires { IsChallenge challenge.now }
    ensures acts { IfSome (on_ledger
        (λ kept. asked (reply_file reply.now challenge.now) kept (Answer id.now challenge.now))
        (K.ledger keeper.old))
        (λ effect. Acts result effect (stores (S.held shelf.old) (K.ledger keeper.old))
        (stores (S.held shelf.new) (K.ledger keeper.new))) }
    ensures files { (name : List ℕ)
        → IfSome (S.held shelf.old) (λ files. IsText files name challenge.now)
        → LeavesAsSaid (AnswerWords id.now name reply.now) result (S.held shelf.old)
        (S.held shelf.new) }
    ensures once { Modelled KeepsAnswers (K.ledger keeper.old) (K.ledger keeper.new) }
    ensures turns { GetsOnce (K.turns keeper.old) (K.turns keeper.new) }
    ensures causes { CausesTwo OutsideErr.Failed result (S.Shelf.faults shelf.old)
        (S.Shelf.faults shelf.new) (K.faults keeper.old) (K.faults keeper.new) }
{
    let answer = House::over(keeper).answer(alloc, id, challenge);
    let said = say_answered(alloc, shelf, reply, challenge, answer);
    said
}

/// What `answer` says by the house's answer. The reply of a job to the challenge is written to the
/// named file.
fn say_answered<S: Shelf>(
    alloc: Global,
    shelf: &mut S,
    name: &str,
    challenge: &Challenge,
    answer: Result<Job, HouseErr>,
) -> Result<Said, OutsideErr>
    requires { IfOk answer (λ job. challenge_of job.auction.phase ≡ Some challenge.now) }
    ensures said { (id : List ℕ) → Says (Answer id challenge.now) (as_reply work_of answer) result }
    ensures written { Modelled
        (Leaves (reply_file name.now challenge.now (as_reply work_of answer)) result)
        (S.held shelf.old) (S.held shelf.new) }
    ensures told { IfErr answer (λ refusal. TakesNoMemory refusal → IsOk result) }
    ensures proved { IfOk answer (λ job. IsProvedAuction job.auction) }
    ensures causes { (before after : ℕ) → Causes HouseErr.KeeperFailed answer before after
        → CausesTwo OutsideErr.Failed result (S.Shelf.faults shelf.old) (S.Shelf.faults shelf.new)
        before after }
{
    match answer {
        Ok(job) => show_halves(alloc, shelf, name, challenge, &job),
        Err(refusal) => say_refusal(alloc, 0, refusal),
    }
}

/// Writes the reply of a job to the challenge to the named file. What is said is made before.
fn show_halves<S: Shelf>(
    alloc: Global,
    shelf: &mut S,
    name: &str,
    challenge: &Challenge,
    job: &Job,
) -> Result<Said, OutsideErr>
    requires { challenge_of job.now.auction.phase ≡ Some challenge.now }
    ensures said { IfOk result (λ said. said ≡ done_said answered_line) }
    ensures written { Modelled
        (Leaves ((name.now, reply_of job.now.auction challenge.now) ∷ []) result) (S.held shelf.old)
        (S.held shelf.new) }
    ensures proved { IsProvedAuction job.now.auction }
    ensures causes { Causes OutsideErr.Failed result (S.Shelf.faults shelf.old)
        (S.Shelf.faults shelf.new) }
{
    let auction = job.auction();
    let said = Said::of_line(alloc, 0, "answered\n")?;
    write_files(
        alloc,
        shelf,
        &ReplyFile {
            name,
            job,
            challenge,
        },
    )?;
    Ok(said)
}

/// The file that the reply of a job to a challenge is written to.
#[derive(Drop)]
struct ReplyFile<'a> {
    name: &'a str,
    job: &'a Job,
    challenge: &'a Challenge,
    ghost one_bit_each: { length challenge.now.bits ≡ job.now.auction.lanes },
}

impl<'a> WrittenFiles for ReplyFile<'a> {
    ghost use Rattle.std.specs.Prelude.{[], ◌∷◌};
    ghost use Rattle.vk_job.specs.Published.{reply_pieces};

    ghost files = { λ f. record {
      name = f.name.now;
      pieces = reply_pieces f.job.now.auction f.challenge.now;
    } ∷ [] };

    fn count(&self) -> usize {
        1
    }

    fn name(&self, _file: usize) -> &str {
        self.name
    }

    fn pieces(&self, _file: usize) -> usize {
        self.job.proof().reply_pieces(self.challenge)
    }

    fn piece(&self, alloc: Global, _file: usize, index: usize) -> Result<Vec<u8>, NoMemory> {
        let piece = self.job.proof().reply_piece(alloc, self.challenge, index)?;
        Ok(piece)
    }
}
