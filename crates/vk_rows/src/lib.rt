//! An auction as the rows of a store: what stands in its columns, and which auction rows that were
//! read are.
#![tactic(auto)]

mod columns;
mod heads;
mod refusals;
mod rows;
mod sealed;
mod standing;
mod stored;
mod texts;

pub use columns::value_at;
pub use refusals::refused_statement;
pub use rows::found_in;
pub use standing::count_standing;
pub use texts::{SealTexts, Texts, texts_of};
