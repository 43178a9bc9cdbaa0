use vk_seq::Seq;

/// What is asked for: 1 to 64 bits, that of lane 1 first. False asks for the first halves of a
/// lane, and true for the second ones.
#[derive(Debug, Drop)]
pub struct Challenge {
    pub bits: Seq<bool>,
}
