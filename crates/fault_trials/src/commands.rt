// Commands of which each call fails in turn: what they find, and what they do where none fails.
use crate::world::Outside;

/// The words of a command. Each text stands once, since the prover reads each where it stands.
#[derive(Clone, Copy)]
pub enum Line {
    Verify,
    Extract,
    Confront,
    Seal,
    Announce,
    /// With a reserve that is above both bids.
    AnnounceReserve,
    Submit7,
    Submit8,
    Prove,
    Answer,
    /// An answer to another challenge.
    AnswerOther,
    Show,
}

impl Line {
    /// The words.
    pub fn words(self) -> &'static str {
        match self {
            Line::Verify => "verify board challenge-0 reply-0",
            Line::Extract => "extract board challenge-0 reply-0 challenge-1 reply-1",
            Line::Confront => "confront board challenge-0 reply-0 challenge-1 reply-1 secret",
            Line::Seal =>
                "seal 000102030405060708090a0b0c0d0e0f 7 15 4 2 000102030405060708090a0b0c0d0e0f101112131415161718191a1b1c1d1e1f old new",
            Line::Announce => "announce 000102030405060708090a0b0c0d0e0f 4 2",
            Line::AnnounceReserve => "announce 000102030405060708090a0b0c0d0e0f 4 2 10",
            Line::Submit7 => "submit 000102030405060708090a0b0c0d0e0f seal-7 secret-7",
            Line::Submit8 => "submit 000102030405060708090a0b0c0d0e0f seal-8 secret-8",
            Line::Prove =>
                "prove 000102030405060708090a0b0c0d0e0f 5a5a5a5a5a5a5a5a5a5a5a5a5a5a5a5a5a5a5a5a5a5a5a5a5a5a5a5a5a5a5a5a old",
            Line::Answer => "answer 000102030405060708090a0b0c0d0e0f challenge-01 old",
            Line::AnswerOther => "answer 000102030405060708090a0b0c0d0e0f challenge-11 new",
            Line::Show => "show 000102030405060708090a0b0c0d0e0f",
        }
    }
}

/// The files that a command finds.
#[derive(Clone, Copy)]
pub enum Given {
    /// The smallest board with its two challenges and replies, and the secret of its seal.
    Smallest,
    /// Two seals with their secrets, two challenges, and a file that a bidder's and a house's
    /// commands write over.
    House,
}

impl Given {
    /// The names of the files.
    pub fn names(self) -> &'static [&'static str] {
        match self {
            Given::Smallest => &[
                "board",
                "challenge-0",
                "reply-0",
                "challenge-1",
                "reply-1",
                "secret",
            ],
            Given::House => &[
                "seal-7",
                "secret-7",
                "seal-8",
                "secret-8",
                "challenge-01",
                "challenge-11",
                "old",
            ],
        }
    }
}

/// A command, over what it finds.
#[derive(Clone, Copy)]
pub struct Command {
    pub name: &'static str,
    pub given: Given,
    /// The commands that the house did before it.
    pub before: &'static [Line],
    pub line: Line,
    /// What it prints where nothing fails.
    pub whole: &'static str,
    /// The names of the files that it writes, in order.
    pub writes: &'static [&'static str],
    /// What is refused once the auction is kept as the command leaves it.
    pub refused: Option<Line>,
    /// What fails.
    pub outsides: &'static [Outside],
}

/// The id of the auction that the house has in them.
pub const ID: [u8; 16] = [0, 1, 2, 3, 4, 5, 6, 7, 8, 9, 10, 11, 12, 13, 14, 15];

/// What is said of the line that is refused.
pub const OTHER_KEPT: &str = "house other challenge kept 01\n";

/// What a command is that reads the smallest board, or that works on a house.
const READS: Command = Command {
    name: "verify",
    given: Given::Smallest,
    before: &[],
    line: Line::Verify,
    whole: "accepted\n",
    writes: &[],
    refused: None,
    outsides: &[Outside::Shelf, Outside::Sink],
};

const HOUSES: Command = Command {
    name: "",
    given: Given::House,
    before: &[],
    line: Line::Announce,
    whole: "",
    writes: &[],
    refused: None,
    outsides: &[Outside::Keeper],
};

const PROVES: Command = Command {
    line: Line::Prove,
    writes: &["old"],
    outsides: &[Outside::Shelf, Outside::Keeper, Outside::Sink],
    ..HOUSES
};

/// How many commands there are.
pub const COMMANDS: u32 = 11;

/// The command at that place, in the order in which they are told of. None behind the last.
pub fn command_at(place: u32) -> Option<Command> {
    match place {
        0 => Some(READS),
        1 => Some(Command {
            name: "extract",
            line: Line::Extract,
            whole: "lane 1 seat 7 bid 0 u 1111111111111111111111111111111111111111111111111111111111111111 3 v 2222222222222222222222222222222222222222222222222222222222222222 2305843009213693948
winner 7 price 0
seat 7 same
end
",
            ..READS
        }),
        2 => Some(Command {
            name: "confront",
            line: Line::Confront,
            whole: "held seat 7\n",
            ..READS
        }),
        3 => Some(Command {
            name: "seal",
            given: Given::House,
            line: Line::Seal,
            writes: &["old", "new"],
            whole: "sealed seat 7 lanes 2\n",
            ..READS
        }),
        _ => house_command_at(place),
    }
}

/// The same of those of a house.
fn house_command_at(place: u32) -> Option<Command> {
    match place {
        4 => Some(Command {
            name: "announce",
            whole: "announced 000102030405060708090a0b0c0d0e0f\n",
            ..HOUSES
        }),
        5 => Some(Command {
            name: "announce with a reserve",
            line: Line::AnnounceReserve,
            whole: "announced 000102030405060708090a0b0c0d0e0f\n",
            ..HOUSES
        }),
        6 => Some(Command {
            name: "submit",
            before: &[Line::Announce],
            line: Line::Submit7,
            whole: "taken seat 7 position 1\n",
            ..HOUSES
        }),
        _ => later_command_at(place),
    }
}

/// The same of those behind the seals. The prover takes fewer arms in a shorter time.
fn later_command_at(place: u32) -> Option<Command> {
    match place {
        7 => Some(Command {
            name: "prove",
            before: &[Line::Announce, Line::Submit7, Line::Submit8],
            whole: "proved winner 8 price 5\n",
            ..PROVES
        }),
        8 => Some(Command {
            name: "prove, unsold",
            before: &[Line::AnnounceReserve, Line::Submit7, Line::Submit8],
            whole: "proved unsold\n",
            ..PROVES
        }),
        9 => Some(Command {
            name: "answer",
            before: &[Line::Announce, Line::Submit7, Line::Submit8, Line::Prove],
            line: Line::Answer,
            refused: Some(Line::AnswerOther),
            whole: "answered\n",
            ..PROVES
        }),
        10 => Some(Command {
            name: "show",
            before: &[Line::Announce, Line::Submit7, Line::Submit8, Line::Prove],
            line: Line::Show,
            whole: "auction 000102030405060708090a0b0c0d0e0f width 4 lanes 2 seals 2 phase proved\n",
            ..HOUSES
        }),
        _ => None,
    }
}
