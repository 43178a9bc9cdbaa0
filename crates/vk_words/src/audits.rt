//! What the commands are to do that audit a file by the replies to it.

use crate::names::ConfrontNames;
use vk_judge::{OneReply, TwoReplies};

/// What is to be audited: the names of the files.
#[derive(Clone, Copy, Debug)]
pub enum AuditOrder<'a> {
    Verify(OneReply<'a>),
    Extract(TwoReplies<'a>),
    Confront(ConfrontNames<'a>),
    /// The name of the board.
    Report(&'a str),
}

/// What is to be done with a claim of any circuit in the place of a board: the names of the files.
#[derive(Clone, Copy, Debug)]
pub enum ClaimOrder<'a> {
    Verify(OneReply<'a>),
    Extract(TwoReplies<'a>),
}
