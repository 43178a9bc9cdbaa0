// What is asked for of an auction.

/// What is asked for in each lane.
#[derive(Clone, Copy)]
pub enum Asked {
    /// The first halves.
    Zeros,
    /// The second halves.
    Ones,
    /// The second halves of the last lane, and the first ones of all others.
    Last,
}

/// All that is asked for.
pub const ALL: [Asked; 3] = [Asked::Zeros, Asked::Ones, Asked::Last];

impl Asked {
    /// The name of the challenge's file.
    pub fn name(self) -> &'static str {
        match self {
            Asked::Zeros => "zeros",
            Asked::Ones => "ones",
            Asked::Last => "last",
        }
    }

    /// The name of the reply's file.
    pub fn reply(self) -> &'static str {
        match self {
            Asked::Zeros => "reply-zeros",
            Asked::Ones => "reply-ones",
            Asked::Last => "reply-last",
        }
    }

    /// The bit of a lane, from 1.
    pub fn bit(self, lane: u16, lanes: u16) -> bool {
        match self {
            Asked::Zeros => false,
            Asked::Ones => true,
            Asked::Last => lane == lanes,
        }
    }
}
