//! What a bidder makes: a secret with the bid, and the seal that is handed in for it.
#![tactic(auto)]

mod laws;
mod making;
mod matching;
mod printing;
mod reading;
mod secret;
mod writing;

pub use laws::{
    all_but_seals_have_a_fault_line, all_but_secrets_have_a_fault_line,
    reading_a_seal_stops_at_the_fault_line, reading_a_secret_stops_at_the_fault_line,
    seals_are_read_from_their_texts_alone, secrets_are_read_from_their_texts_alone,
};
pub use making::{SealErr, make_seal};
pub use matching::{Mismatch, matches};
pub use printing::with_mismatch;
pub use reading::{read_seal, read_secret};
pub use secret::{Seal, Secret, XTape};
pub use writing::{seal_text, secret_text};
