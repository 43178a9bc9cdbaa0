ghost use Rattle.std.specs.Prelude.{◌≡◌, ℕ};
ghost use Rattle.vk_dice.specs.Words.{later};

/// A source of words of 64 bits that does not end.
pub trait Words {
    /// The word at each distance ahead: the next one at 0.
    ghost ahead: { Self → ℕ → ℕ };

    /// The next word. Afterwards each word is one nearer.
    fn next(&mut self) -> u64
        ensures word { result ≡ ahead self.old 0 }
        ensures after { ahead self.new ≡ later 1 (ahead self.old) };
}
