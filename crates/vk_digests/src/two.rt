/// What is made of two digests.
pub trait TwoDigests {
    ghost use Rattle.std.specs.Prelude.{◌≡◌, ℕ, List};

    /// What these two make.
    ghost made: { List ℕ → List ℕ → Self };

    /// The first of those that it is made of.
    ghost first_of: { Self → List ℕ };

    /// The second.
    ghost second_of: { Self → List ℕ };

    /// Makes it of these two.
    fn of_two(first: [u8; 32], second: [u8; 32]) -> Self
        ensures value { result ≡ made first second }
        ensures first { first_of result ≡ first }
        ensures second { second_of result ≡ second };

    /// The first digest.
    fn first(&self) -> &[u8; 32]
        ensures { result.now ≡ first_of self.now };

    /// The second digest.
    fn second(&self) -> &[u8; 32]
        ensures { result.now ≡ second_of self.now };
}
