/// What values a wire of a plan may have.
#[derive(Clone, Copy, Debug, PartialEq, Eq)]
pub enum WireKind {
    /// Any residue.
    Split,
    /// A test pair: 0 or 2^i, for an i below 61.
    Pair(u32),
}
