//! The kinds of claims, by the words that name them.

ghost use Rattle.std.specs.Prelude.{◌≡◌};
ghost use Rattle.vk_words.specs.Claims.{kind_named, kind_word};

use vk_lines::read_word;

/// What is claimed of sealed values: which circuits a public part may have.
#[derive(Clone, Copy, Debug, PartialEq, Eq)]
pub enum Kind {
    /// Several equal units are sold at one price.
    Uniform,
    /// No man and woman who aren't matched rank each other better than their own.
    Matching,
}

impl Kind {
    /// The word that names it.
    pub fn word(self) -> &'static str
        ensures { result.now ≡ kind_word self }
    {
        match self {
            Kind::Uniform => "uniform",
            Kind::Matching => "matching",
        }
    }
}

/// The kind that the word names.
pub fn kind_named(word: &[u8]) -> Option<Kind>
    ensures { result ≡ kind_named word.now }
{
    if read_word(word, b"uniform").is_some() {
        Some(Kind::Uniform)
    } else if read_word(word, b"matching").is_some() {
        Some(Kind::Matching)
    } else {
        None
    }
}
