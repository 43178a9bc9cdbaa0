// The parts of a case.
use vk_cases::{Tried, Unreplayed, before, behind, place_of};

/// How many parts there are with that byte between them: one more than it stands there.
pub fn parts_of(bytes: &[u8], mark: u8) -> usize {
    let mut count = 1usize;
    for byte in bytes {
        if *byte == mark {
            count = count.saturating_add(1);
        }
    }
    count
}

/// The part at that place, from 0, of those with that byte between them.
pub fn part_at(bytes: &[u8], mark: u8, place: usize) -> Tried<&[u8]> {
    let mut rest = bytes;
    for _ in 0..place {
        let end = place_of(rest, mark);
        if end == rest.len() {
            return Err(Unreplayed::NoCase);
        }
        rest = behind(rest, end.saturating_add(1));
    }
    Ok(before(rest, place_of(rest, mark)))
}
