// Digests that the files of a trial need.
use crate::stage::Stage;
use sha2::{Digest, Sha256};
use std::alloc::Global;
use vk_cases::{Text, Tried, cut, key_at, number_at, residue_at, word_at};
use vk_commit::{Opening, Place, commit};
use vk_residue::{NoMemory, Residue};

/// The id of each auction.
pub const ID: [u8; 16] = [0, 1, 2, 3, 4, 5, 6, 7, 8, 9, 10, 11, 12, 13, 14, 15];

/// A key that hides nothing.
const NO_KEY: [u8; 32] = [0; 32];

/// Appends the line of the digest of a commitment, `SEAT LANE SLOT KEY VALUE`.
pub fn push_commitment(text: &mut Text, words: &[u8]) -> Tried<()> {
    let slot = number_at(words, 2, 65535)? as u32;
    let digest = digest_of(words, slot, key_at(words, 3)?, residue_at(words, 4)?)?;
    text.put_hex(b"", &digest);
    text.put(b"\n");
    Ok(())
}

/// Appends the line of the two digests of a wire whose keys hide nothing,
/// `WORD SEAT LANE SLOT VALUE VALUE`.
pub fn push_digests(text: &mut Text, line: &[u8]) -> Tried<()> {
    let (word, words) = cut(line, b' ');
    let slot = number_at(words, 2, 65535)? as u32;
    let first = digest_of(words, slot, NO_KEY, residue_at(words, 3)?)?;
    let second = digest_of(words, slot.saturating_add(1), NO_KEY, residue_at(words, 4)?)?;
    text.put(word);
    text.put_hex(b" ", &first);
    text.put_hex(b" ", &second);
    text.put(b"\n");
    Ok(())
}

/// The digest in that slot, at the place that begins with `SEAT LANE`.
fn digest_of(words: &[u8], slot: u32, key: [u8; 32], value: Residue) -> Tried<[u8; 32]> {
    let place = Place {
        auction: ID,
        seat: number_at(words, 0, 65535)? as u16,
        lane: number_at(words, 1, 64)? as u16,
        slot,
    };
    Ok(commit(&place, &Opening { key, value }))
}

/// Appends the line of the bits that a board gives for its lanes, `NAME LANES`.
pub fn push_derived(stage: &mut Stage, words: &[u8]) -> Tried<()> {
    let lanes = number_at(words, 1, 64)?;
    let digest = board_digest(stage.alloc, stage.files.file(word_at(words, 0)?)?)?;
    stage.text.put(b"bits ");
    push_leading(&mut stage.text, &digest, lanes);
    stage.text.put(b"\n");
    Ok(())
}

/// The digest from which the bits of a board come.
fn board_digest(alloc: Global, board: &[u8]) -> Result<[u8; 32], NoMemory> {
    let mut message = Vec::from_slice(alloc, b"VKD1")?;
    message.extend_from_slice(board)?;
    Ok(Sha256::digest(message.as_slice()))
}

/// Appends so many of the first bits of a digest.
fn push_leading(text: &mut Text, digest: &[u8; 32], count: u64) {
    for place in 0..count.min(64) {
        let byte = digest[(place / 8) as usize];
        let bit = (byte >> (7 - place % 8)) % 2;
        text.put_number(b"", u64::from(bit));
    }
}
