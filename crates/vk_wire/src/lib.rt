//! One wire of a lane: what is committed to, what is shown for a challenge bit, and what that
//! reads.
#![tactic(auto)]

mod hashing;
mod laws;
mod making;
mod place;
mod reading;
mod wire;

pub use hashing::{hash_four, hash_opened};
pub use laws::{
    at_most_one_half_is_read, made_wires_have_digests, made_wires_read_their_halves,
    readings_compute,
};
pub use making::{make, make_two, show};
pub use place::wire_place;
pub use reading::{read, read_opened};
pub use wire::{HonestWire, Opened, Shown, WireCom, WireFault, WireTape};
