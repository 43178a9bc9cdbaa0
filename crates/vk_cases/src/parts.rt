// Parts of texts. Loops with a condition stand here in place of adaptors of iterators, of which
// each takes ten seconds to prove.
use crate::cases::behind;
use crate::unreplayed::{Tried, Unreplayed};
use std::str::from_utf8;

/// What stands before the first of these bytes, and what stands behind it: nothing where it has
/// none.
pub fn cut(text: &[u8], mark: u8) -> (&[u8], &[u8]) {
    let place = place_of(text, mark);
    (before(text, place), behind(text, place.saturating_add(1)))
}

/// The place of the first of these bytes, or the length.
pub fn place_of(text: &[u8], mark: u8) -> usize {
    let mut place = 0usize;
    for byte in text {
        if *byte == mark {
            return place;
        }
        place = place.saturating_add(1);
    }
    place
}

/// The bytes before that place.
pub fn before(text: &[u8], place: usize) -> &[u8] {
    if text.len() < place {
        return text;
    }
    let (before, _behind) = text.split_at(place);
    before
}

/// The bytes as text, which is compared at less cost to the prover than bytes are.
pub fn text_in(bytes: &[u8]) -> Tried<&str> {
    match from_utf8(bytes) {
        Ok(text) => Ok(text),
        Err(_refused) => Err(Unreplayed::NoCase),
    }
}
