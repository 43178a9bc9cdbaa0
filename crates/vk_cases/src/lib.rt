//! Files of cases that are replayed, one case a line, as fields between single spaces; the programs
//! that replay them, and why one stopped before the end.
#![tactic(auto)]

mod cases;
mod counting;
mod parts;
mod replaying;
mod stages;
mod text;
mod unreplayed;
mod watched;
mod words;

pub use cases::{behind, id_at, key_at, number_at, numbers_in, read_cases, residue_at, word_at};
pub use counting::lines_in;
pub use parts::{before, cut, place_of, text_in};
pub use replaying::{Form, Replay, Replayed, replay_forms, replay_here};
pub use stages::{Stage, behind_word, status_of, take_file, tell_text, text_at};
pub use text::Text;
pub use unreplayed::{Tried, Unreplayed};
pub use watched::WatchedShelf;
pub use words::{text_of, words_of};
