//! Words of 64 bits, from a ChaCha20 stream or from a list, and what is drawn from them: residues,
//! keys, bits, and so many of a kind.
#![tactic(auto)]

mod chacha_words;
mod draws;
mod list_words;
mod many;
mod words;

pub use chacha_words::ChaChaWords;
pub use draws::{
    DrySeed, draw_bit, draw_key, draw_residue, each_residue_is_drawn_by_eight_words,
    eight_words_are_rejected,
};
pub use list_words::ListWords;
pub use many::{Draw, DryDraw, draw_onto};
pub use words::Words;
