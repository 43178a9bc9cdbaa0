//! The top call.

ghost use Rattle.std.specs.Prelude.{◌≡◌, ◌≢◌, ◌⊎◌, ℕ, None, IfSome, IfOk, IsErrOf, Some, map, option_map, string_bytes};
ghost use Rattle.vk_judge.specs.Common.{MemoryWasWanting, Modelled, Rose};
ghost use Rattle.vk_keeper.specs.Ledgers.{Ledger};
ghost use Rattle.vk_words.specs.Common.{ClaimSample, Coin, CoinWords, IsCommand, Seal, SealWords, audit_seen, claim_order_seen, command_seen, command_words};
ghost use Rattle.vk_words.specs.declared.claim.Kind.TheVariants.{Matching};
ghost use Rattle.vk_effect.specs.Effects.{IsCommandEnd, IsEnd, outside, stores};
ghost use Rattle.vk_effect.specs.Ends.{Acts};
ghost use Rattle.vk_house.specs.Once.{KeepsAnswers};
ghost use Rattle.vk_effect.specs.Counts.{CausesThree, CausesTwo};
ghost use Rattle.vk_coins.specs.Meaning.{MakesChallenge};
ghost use Rattle.vk_app.specs.Commands.{ActsOnFiles, CommandActsFreely, CommandEndsFreely, EndsWork, LeavesKeeper, ReadsReplies, RunIsDone, RunIsStopped, audit_on, claim_on, command_effect, script_in, work_of, work_on};
ghost use Rattle.vk_app.specs.Promises.{Audits, ClaimExtractIsComplete, ClaimExtractIsSound, ClaimHeadline, Claims, CommandLeft, ExtractIsComplete, ExtractIsSound, Headline, HoldsCeremony, KeepsHouse, OverFiles, RunLeaves, RunStops, SamplesMatching, TellsUsage, WorkLeft};
ghost use Rattle.vk_app.specs.Sealing.{Seals};

use crate::seal::seal;
use crate::usage::usage;
use std::alloc::Global;
use vk_auctioneer::house_command;
use vk_audit::audit;
use vk_ceremony::ceremony;
use vk_claims::{audit_claim, claim_sample};
use vk_coins::make_challenge;
use vk_effect::Said;
use vk_io::{OutsideErr, Shelf, Sink};
use vk_keeper::Keeper;
use vk_sample::sample;
use vk_words::{AuditOrder, ClaimOrder, Command, command_of};

/// Does an auditor's command, but for printing.
fn read<S: Shelf>(alloc: Global, shelf: &mut S, order: &AuditOrder<'_>) -> Result<Said, OutsideErr>
    ensures wanting { IsErrOf result OutsideErr.NoMemory → MemoryWasWanting }
    ensures acts { ActsOnFiles S.held S.Shelf.faults
        (λ files ledger. audit_on files ledger (audit_seen order.now)) result shelf.old shelf.new }
{
    let said = audit(alloc, shelf, order);
    said
}

/// Does a command on claims, but for printing.
fn read_claim<S: Shelf>(
    alloc: Global,
    shelf: &mut S,
    order: &ClaimOrder<'_>,
) -> Result<Said, OutsideErr>
    ensures wanting { IsErrOf result OutsideErr.NoMemory → MemoryWasWanting }
    ensures acts { ActsOnFiles S.held S.Shelf.faults
        (λ files ledger. claim_on files ledger (claim_order_seen order.now)) result shelf.old
        shelf.new }
{
    let said = audit_claim(alloc, shelf, order);
    said
}

/// Does the command, but for printing; a ceremony is none of these.
#[tactic(auto, using(vk_ceremony::proofs::Leading::keeps_told))]
fn act<S: Shelf, K: Keeper + Drop>(
    alloc: Global,
    shelf: &mut S,
    keeper: &mut K,
    command: Command<'_>,
) -> Result<Said, OutsideErr>
    requires right { IsCommand command }
    requires single { script_in (Some (command_seen command)) ≡ None }
    ensures acts { IfSome (command_effect (S.held shelf.old) (K.ledger keeper.old)
        (Some (command_seen command.entry)))
        (λ effect. Acts result effect (stores (S.held shelf.old) (K.ledger keeper.old))
        (stores (S.held shelf.new) (K.ledger keeper.new))) }
    ensures free { CommandActsFreely (Some (command_seen command.entry)) result
        (stores (S.held shelf.old) (K.ledger keeper.old))
        (stores (S.held shelf.new) (K.ledger keeper.new)) }
    ensures files { CommandLeft (Some (command_seen command.entry)) result (S.held shelf.old)
        (S.held shelf.new) }
    ensures wanting { ReadsReplies (command_seen command.entry)
        → IsErrOf result OutsideErr.NoMemory → MemoryWasWanting }
    ensures once { Modelled KeepsAnswers (K.ledger keeper.old) (K.ledger keeper.new) }
    ensures keeper { LeavesKeeper K.ledger K.Keeper.faults (Some (command_seen command.entry)) keeper.old
        keeper.new }
    ensures causes { CausesTwo OutsideErr.Failed result (S.Shelf.faults shelf.old)
        (S.Shelf.faults shelf.new)
        (K.Keeper.faults keeper.old) (K.Keeper.faults keeper.new) }
{
    match command {
        Command::Seal(order) => Ok(seal(alloc, shelf, &order)?),
        Command::House(order) => Ok(house_command(alloc, shelf, keeper, &order)?),
        Command::Audit(order) => Ok(read(alloc, shelf, &order)?),
        Command::Sample(number) => Ok(sample(alloc, shelf, number)?),
        Command::Claim(order) => Ok(read_claim(alloc, shelf, &order)?),
        Command::ClaimSample { kind, number } => {
            let said = claim_sample(alloc, shelf, kind, number)?;
            Ok(said)
        }
        Command::Coin(order) => Ok(make_challenge(alloc, shelf, &order)?),
        Command::Ceremony(_) => unreachable!(),
    }
}

/// The name of the script, where the command is a ceremony.
fn script_of(command: Command<'_>) -> Option<&str>
    ensures { option_map (λ name. name.now) result ≡ script_in (Some (command_seen command.entry)) }
{
    match command {
        Command::Ceremony(script) => Some(script),
        _ => None,
    }
}

/// Does the command, or what a script says, prints at the end of a command, and answers the status.
#[tactic(auto, using(crate::proofs::Kept::acting_left, crate::proofs::Kept::printing_left, crate::proofs::Kept::script_left, crate::proofs::Kept::script_stopped))]
fn perform_command<S: Shelf, K: Keeper + Drop, W: Sink>(
    alloc: Global,
    command: Command<'_>,
    shelf: &mut S,
    keeper: &mut K,
    out: &mut W,
) -> Result<u8, OutsideErr>
    requires { IsCommand command }
    ensures ends { IfSome (work_of (S.held shelf.old) (K.ledger keeper.old)
        (Some (command_seen command.entry)))
        (λ work. EndsWork result work
        (outside (stores (S.held shelf.old) (K.ledger keeper.old)) (W.taken out.old))
        (outside (stores (S.held shelf.new) (K.ledger keeper.new)) (W.taken out.new))) }
    ensures free { CommandEndsFreely (Some (command_seen command.entry)) result
        (outside (stores (S.held shelf.old) (K.ledger keeper.old)) (W.taken out.old))
        (outside (stores (S.held shelf.new) (K.ledger keeper.new)) (W.taken out.new)) }
    ensures end { IfOk result IsCommandEnd }
    ensures files { WorkLeft (Some (command_seen command.entry)) result (S.held shelf.old)
        (S.held shelf.new) }
    ensures once { Modelled KeepsAnswers (K.ledger keeper.old) (K.ledger keeper.new) }
    ensures keeper { LeavesKeeper K.ledger K.Keeper.faults (Some (command_seen command.entry)) keeper.old
        keeper.new }
    ensures causes { CausesThree OutsideErr.Failed result (S.Shelf.faults shelf.old)
        (S.Shelf.faults shelf.new)
        (K.Keeper.faults keeper.old) (K.Keeper.faults keeper.new) (W.Sink.faults out.old)
        (W.Sink.faults out.new) }
{
    match script_of(command) {
        Some(script) => {
            let status = ceremony(alloc, shelf, keeper, out, script)?;
            Ok(status)
        }
        None => {
            let said = act(alloc, shelf, keeper, command)?;
            said.print(out)?;
            Ok(said.status())
        }
    }
}

/// Does what the words say, and answers the status.
fn perform<S: Shelf, K: Keeper + Drop, W: Sink>(
    alloc: Global,
    words: &[String],
    shelf: &mut S,
    keeper: &mut K,
    out: &mut W,
) -> Result<u8, OutsideErr>
    ensures ends { IfSome (work_on (S.held shelf.old) (K.ledger keeper.old)
        (map string_bytes words.now))
        (λ work. EndsWork result work
        (outside (stores (S.held shelf.old) (K.ledger keeper.old)) (W.taken out.old))
        (outside (stores (S.held shelf.new) (K.ledger keeper.new)) (W.taken out.new))) }
    ensures free { CommandEndsFreely (command_words (map string_bytes words.now)) result
        (outside (stores (S.held shelf.old) (K.ledger keeper.old)) (W.taken out.old))
        (outside (stores (S.held shelf.new) (K.ledger keeper.new)) (W.taken out.new)) }
    ensures end { IfOk result IsEnd }
    ensures usage { IfOk result
        (λ status. status ≡ 2 → command_words (map string_bytes words.now) ≡ None) }
    ensures files { WorkLeft (command_words (map string_bytes words.now)) result
        (S.held shelf.old) (S.held shelf.new) }
    ensures once { Modelled KeepsAnswers (K.ledger keeper.old) (K.ledger keeper.new) }
    ensures keeper { LeavesKeeper K.ledger K.Keeper.faults
        (command_words (map string_bytes words.now)) keeper.old keeper.new }
    ensures causes { CausesThree OutsideErr.Failed result (S.Shelf.faults shelf.old)
        (S.Shelf.faults shelf.new)
        (K.Keeper.faults keeper.old) (K.Keeper.faults keeper.new) (W.Sink.faults out.old)
        (W.Sink.faults out.new) }
{
    let Some(command) = command_of(words) else {
        usage(out)?;
        return Ok(2);
    };
    let status = perform_command(alloc, command, shelf, keeper, out)?;
    Ok(status)
}

/// Does what the words say over the shelf and the keeper, prints to the sink, and answers the
/// status: that of the command, 6 where the outside failed, or 9 for want of memory.
pub fn run<S: Shelf, K: Keeper + Drop, W: Sink>(
    alloc: Global,
    words: &[String],
    shelf: &mut S,
    keeper: &mut K,
    out: &mut W,
) -> u8
    ensures done { RunIsDone (map string_bytes words.now) result
        (outside (stores (S.held shelf.old) (K.ledger keeper.old)) (W.taken out.old))
        (outside (stores (S.held shelf.new) (K.ledger keeper.new)) (W.taken out.new)) }
    ensures stopped { RunIsStopped (map string_bytes words.now) result
        (outside (stores (S.held shelf.old) (K.ledger keeper.old)) (W.taken out.old))
        (outside (stores (S.held shelf.new) (K.ledger keeper.new)) (W.taken out.new)) }

    // Whatever the files are, what `extract` prints with status 0 or 3 is true of the board: bids
    // that open its seals and make the sale that it publishes, or two openings of one commitment.
    ensures sound { OverFiles ExtractIsSound (S.held shelf.old) (map string_bytes words.now) result
        (W.taken out.old) (W.taken out.new) }

    // Where both replies are accepted for different challenges, the status is 0 or 3.
    ensures complete { OverFiles ExtractIsComplete (S.held shelf.old) (map string_bytes words.now)
        result (W.taken out.old) (W.taken out.new) }

    // Both at once: of two replies that are accepted for different challenges, an `extract` puts the
    // bids that they open, or the first commitment that they open twice; and it puts such of no
    // others.
    ensures headline { OverFiles Headline (S.held shelf.old) (map string_bytes words.now) result
        (W.taken out.old) (W.taken out.new) }

    // What each status of `verify`, `extract`, `confront` and `report` means, by the bytes of the
    // named files.
    ensures audits { OverFiles Audits (S.held shelf.old) (map string_bytes words.now) result
        (W.taken out.old) (W.taken out.new) }

    // The same two of `claim-extract`: values that open the seals of the claim file, and of which
    // its claim holds.
    ensures claim_sound { OverFiles ClaimExtractIsSound (S.held shelf.old)
        (map string_bytes words.now) result (W.taken out.old) (W.taken out.new) }
    ensures claim_complete { OverFiles ClaimExtractIsComplete (S.held shelf.old)
        (map string_bytes words.now) result (W.taken out.old) (W.taken out.new) }

    // Of two replies to a claim file that are accepted for different challenges, a `claim-extract`
    // puts values that open the seals and of which the file's claim holds, or two openings of one
    // commitment; and it puts such of no others.
    ensures claim_headline { OverFiles ClaimHeadline (S.held shelf.old)
        (map string_bytes words.now) result (W.taken out.old) (W.taken out.new) }

    // What each status of `claim-verify` and `claim-extract` means, by the bytes of the named
    // files.
    ensures claims { OverFiles Claims (S.held shelf.old) (map string_bytes words.now) result
        (W.taken out.old) (W.taken out.new) }

    // What each status of `seal` means, and which files it leaves.
    ensures seals { (order : SealWords)
        → command_words (map string_bytes words.now) ≡ Some (Seal order) → result ≢ 6 → result ≢ 9
        → Seals order (S.held shelf.old) (S.held shelf.new) result (W.taken out.old)
        (W.taken out.new) }

    // Which stable matching a `claim-sample matching` publishes is free, and nothing else is.
    ensures matching { (number : ℕ)
        → command_words (map string_bytes words.now) ≡ Some (ClaimSample Matching number)
        → SamplesMatching number result
        (outside (stores (S.held shelf.old) (K.ledger keeper.old)) (W.taken out.old))
        (outside (stores (S.held shelf.new) (K.ledger keeper.new)) (W.taken out.new)) }

    // What each status of `coin-part`, `coin-join` and `coin-board` means, and which file it
    // leaves: the share that is drawn; the challenge of the shown bits, each share opening its
    // part; the challenge that a board's bytes give.
    ensures coins { (order : CoinWords)
        → command_words (map string_bytes words.now) ≡ Some (Coin order) → result ≢ 6 → result ≢ 9
        → MakesChallenge order (S.held shelf.old) (S.held shelf.new) result (W.taken out.old)
        (W.taken out.new) }

    // Whatever the words and the status, the house does what it does command by command, in a
    // ceremony too, also where that was stopped: each is a step of the house, a board is that of
    // the auction that is kept, and a reply is accepted with it.
    ensures house { IfSome (S.held shelf.old) (λ files. IfSome (K.ledger keeper.old) (λ ledger.
        KeepsHouse files ledger (map string_bytes words.now) result (S.held shelf.new) (K.ledger keeper.new) (W.taken out.old) (W.taken out.new))) }

    // A ceremony that came to its end did all that its script says, one command after another.
    ensures ceremony { IfSome (S.held shelf.old) (λ files. IfSome (K.ledger keeper.old) (λ ledger.
        HoldsCeremony files ledger (map string_bytes words.now) result (S.held shelf.new) (K.ledger keeper.new) (W.taken out.old) (W.taken out.new))) }

    // Whether or not the keeper is modelled, as a database isn't: what a command of the house, or a
    // ceremony, leaves of the files. A board is that of some proved auction, and a reply is one to
    // the challenge of the named file.
    ensures files { result ≢ 6 → result ≢ 9
        → RunLeaves (map string_bytes words.now) result (S.held shelf.old) (S.held shelf.new) }

    // And what they leave that were stopped: all files, but for the one that the stopped command
    // writes. That holds the first bytes of such a board, or of such a reply.
    ensures parts { (result ≡ 6) ⊎ (result ≡ 9)
        → RunStops (map string_bytes words.now) (S.held shelf.old) (S.held shelf.new) }

    // Status 2 is that the words are no command.
    ensures usage { TellsUsage (map string_bytes words.now) result (W.taken out.old)
        (W.taken out.new) }

    // Whatever the words and the status, an auction that was answered is the same after, and one
    // that was proved has its seed and its seals.
    ensures once { Modelled KeepsAnswers (K.ledger keeper.old) (K.ledger keeper.new) }

    // A command that asks no keeper leaves it alone.
    ensures keeper { LeavesKeeper K.ledger K.Keeper.faults
        (command_words (map string_bytes words.now)) keeper.old keeper.new }

    // Status 6 comes exactly where a count rose in this call.
    ensures fault { result ≡ 6 → Rose (S.Shelf.faults shelf.old) (S.Shelf.faults shelf.new)
        ⊎ Rose (K.Keeper.faults keeper.old) (K.Keeper.faults keeper.new)
        ⊎ Rose (W.Sink.faults out.old) (W.Sink.faults out.new) }
    ensures no_fault { result ≢ 6 → (S.Shelf.faults shelf.new ≡ S.Shelf.faults shelf.old)
        × (K.Keeper.faults keeper.new ≡ K.Keeper.faults keeper.old)
        × (W.Sink.faults out.new ≡ W.Sink.faults out.old) }
{
    match perform(alloc, words, shelf, keeper, out) {
        Ok(status) => status,
        Err(OutsideErr::Failed) => 6,
        Err(OutsideErr::NoMemory) => 9,
    }
}
