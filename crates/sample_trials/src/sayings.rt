// What is said of seeds that are dry, which no sample has, and of verdicts on a second reply.
use std::alloc::Global;
use vk_app::dry_seed;
use vk_audit::say_verdict;
use vk_cases::{Text, Tried};
use vk_effect::{Said, bidder_dry_line, house_dry_line};
use vk_io::Sink;
use vk_judge::TwoReplies;
use vk_verifier::BoardVerdict;
use vk_wire::WireFault;

/// The files of an `extract`.
const NAMES: TwoReplies<'static> = TwoReplies {
    file: "board",
    challenge1: "challenge-0",
    reply1: "reply-0",
    challenge2: "challenge-1",
    reply2: "reply-1",
};

/// Verdicts on the second reply, each of which is a refusal.
const REFUSALS: [BoardVerdict; 6] = [
    BoardVerdict::Wire {
        lane: 1,
        wire: 1,
        fault: WireFault::Digest { second: true },
    },
    BoardVerdict::Wire {
        lane: 64,
        wire: 10310,
        fault: WireFault::NotASet,
    },
    BoardVerdict::Row { lane: 1, row: 1 },
    BoardVerdict::Lanes,
    BoardVerdict::Price,
    BoardVerdict::Winner,
];

/// Tells what is said of a bidder's seed that is dry for lane 3, and of a house's for lane 1 and
/// wire 20; and with its status, of a bidder's for lane 64, and of each refusal.
pub fn tell_sayings<W: Sink>(alloc: Global, out: &mut W, text: &mut Text) -> Tried<()> {
    out.put(bidder_dry_line(3).as_bytes())?;
    out.put(house_dry_line(1, 20).as_bytes())?;
    tell(out, text, &dry_seed(64))?;
    for verdict in &REFUSALS {
        let said = say_verdict(alloc, &NAMES, true, *verdict)?;
        tell(out, text, &said)?;
    }
    Ok(())
}

/// Tells the status, and what is said.
fn tell<W: Sink>(out: &mut W, text: &mut Text, said: &Said) -> Tried<()> {
    text.clear();
    text.put_count(b"status ", u64::from(said.status()));
    text.print(out)?;
    said.print(out)?;
    Ok(())
}
