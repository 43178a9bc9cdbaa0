/// What stands next in a file.
#[derive(Clone, Copy, Debug, PartialEq, Eq)]
pub enum Step {
    /// A line, which was taken.
    Text,
    /// No byte is left.
    End,
    /// The next 256 bytes hold no line feed.
    Long,
    /// Fewer than 256 bytes are left, at least one, and none is a line feed.
    Cut,
}
